//! Lists compared item by item.

ghost use Rattle.std.specs.Prelude.{◌≡◌, Bool};
ghost use Rattle.std.specs.Fn.{FnReturnsAtPair};
ghost use Rattle.std.specs.Cmp.Lexicographic.{pointwise};

/// Whether the lists are as long and each pair is the same.
pub fn all_same<T, F: Fn(&T, &T) -> bool>(first: &[T], second: &[T], same: F) -> bool
    requires { F.IsAlwaysCallable same }
    ensures { (e : T → T → Bool) → ((x y : T) (b : Bool) → FnReturnsAtPair F.Fn same x y b → b ≡ e x y) → result ≡ pointwise e first.now second.now }
{
    let mut left = first;
    let mut right = second;
    while let Some((x, more)) = left.split_first() {
        let Some((y, rest)) = right.split_first() else {
            return false;
        };
        if !same(x, y) {
            return false;
        }
        left = more;
        right = rest;
    }
    right.is_empty()
}
