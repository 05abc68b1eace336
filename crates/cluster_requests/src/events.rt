//! The count of events, as long as it fits.

ghost use Rattle.std.specs.Prelude.{ℕ, suc};
ghost use Rattle.cluster_requests.specs.Past.{IsCount};

/// One event more.
pub fn one_more(events: Option<u64>) -> Option<u64>
    ensures { (count : ℕ) → IsCount events count → IsCount result (suc count) }
{
    match events {
        Some(events) => events.checked_add(1),
        None => None,
    }
}

/// One event less.
pub fn one_less(events: Option<u64>) -> Option<u64>
    ensures { (count : ℕ) → IsCount events (suc count) → IsCount result count }
{
    match events {
        Some(events) => events.checked_sub(1),
        None => None,
    }
}
