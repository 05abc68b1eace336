ghost use Rattle.std.specs.Prelude.{◌≡◌, ℕ, List, Option};

/// A state with a list that only grows, as a log does. It exists in contracts alone.
pub trait History {
    type Item;

    /// The list, the first item first.
    ghost items: { Self → List Self.Item };

    /// The number that an item opens, if any: no number is opened twice.
    ghost opens: { Self.Item → Option ℕ };

    /// The number that an item takes, if any: who opened a number alone takes it.
    ghost takes: { Self.Item → Option ℕ };
}
