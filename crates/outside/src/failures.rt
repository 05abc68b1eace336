ghost use Rattle.std.specs.Prelude.{◌≡◌};
ghost use Rattle.outside.specs.InMemory.{is_listed as is_listed_of};

use cat_model::List;

/// Whether a call's number is one of those that are to fail.
#[tactic(auto, unfolding(crate::specs::InMemory::is_listed))]
pub fn is_listed(failing: &List<u64>, call: u64) -> bool
    ensures { result ≡ is_listed_of failing.now call }
{
    failing.as_slice().contains(&call)
}
