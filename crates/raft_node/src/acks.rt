ghost use Rattle.std.specs.Prelude.{◌≡◌, ◌+◌, ◌-◌, ◌^◌, min, max, MatchOption};
ghost use Rattle.raft_model.specs.Node.{of_server, set_server};

use crate::quorum::{of_server, set_server};

/// Puts another number for a server, where there is such a server.
pub fn put(numbers: &mut Vec<u64>, server: u32, number: u64)
    ensures { numbers.new.items ≡ set_server numbers.old.items server number }
{
    set_server(numbers, server, number);
}

/// Raises a server's number to this one, where there is such a server. No number falls.
pub fn raise(numbers: &mut Vec<u64>, server: u32, number: u64)
    ensures { numbers.new.items ≡ set_server numbers.old.items server (max (of_server numbers.old.items server) number) }
{
    let before = of_server(numbers, server);
    set_server(numbers, server, before.max(number));
}

/// The index from which a server that said No is sent entries next: behind what it matched, one before where it was,
/// and no more than one behind its last entry. There is none behind the greatest index.
pub fn stepped_back(next: u64, matched: u64, last: u64) -> Option<u64>
    ensures { MatchOption result (matched ≡ 2 ^ 64 - 1) (λ back. back ≡ max (matched + 1) (min (next - 1) (last + 1))) }
{
    let behind = matched.checked_add(1)?;
    let back = next.saturating_sub(1).min(last.saturating_add(1));
    Some(back.max(behind))
}
