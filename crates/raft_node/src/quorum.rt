ghost use Rattle.std.specs.Prelude.{◌≡◌, ◌==◌, ◌&&◌, length};
ghost use Rattle.raft_model.specs.Log.{term_at};
ghost use Rattle.raft_model.specs.Quorum.{is_majority, members};
ghost use Rattle.raft_model.specs.Node.{of_server, set_server};
ghost use Rattle.raft_model.specs.Rules.{committed_upto};
ghost use Rattle.raft_node.specs.Counting.{counting, reached};

use crate::log;
use cat_model::Entry;

/// A server's number in a list by server, and 0 where there is no such server.
pub fn of_server(numbers: &[u64], server: u32) -> u64
    ensures { result ≡ of_server numbers.now server }
{
    if server == 0 || server as usize > numbers.len() {
        0
    } else {
        numbers[server as usize - 1]
    }
}

/// Puts another number for a server, where there is such a server.
pub fn set_server(numbers: &mut [u64], server: u32, number: u64)
    ensures { numbers.new ≡ set_server numbers.old server number }
{
    if server != 0 && server as usize <= numbers.len() {
        numbers[server as usize - 1] = number;
    }
}

// The server's number is `least` or more, or it is the server `id`.
#[tactic(auto, unfolding(crate::specs::Counting::reached))]
fn has_reached(id: u32, numbers: &[u64], least: u64, server: u32) -> bool
    ensures { result ≡ reached id numbers.now least server }
{
    server == id || least <= of_server(numbers, server)
}

/// More than half of the servers have a number from `least` on, the server `id` counted as one of them.
pub fn have_reached(id: u32, servers: u32, numbers: &[u64], least: u64) -> bool
    ensures { result ≡ is_majority servers (reached id numbers.now least) }
{
    let mut count: u64 = 0;
    for before in 0..servers {
        if has_reached(id, numbers, least, before + 1) {
            count += 1;
        }
    }
    u64::from(servers) < 2 * count
}

/// The server is in the list.
pub fn is_member(votes: &[u32], server: u32) -> bool
    ensures { result ≡ members votes.now server }
{
    for vote in votes {
        if server == *vote {
            return true;
        }
    }
    false
}

/// More than half of the servers are in the list.
pub fn has_majority(servers: u32, votes: &[u32]) -> bool
    ensures { result ≡ is_majority servers (members votes.now) }
{
    let mut count: u64 = 0;
    for before in 0..servers {
        if is_member(votes, before + 1) {
            count += 1;
        }
    }
    u64::from(servers) < 2 * count
}

// The entry at an index is of the term, and a majority has matched it.
fn is_matched(
    id: u32,
    servers: u32,
    term: u64,
    entries: &[Entry],
    matched: &[u64],
    index: u64,
) -> bool
    ensures { result ≡ (term_at index entries.now == term && is_majority servers (reached id matched.now index)) }
{
    log::term_at(entries, index) == term && have_reached(id, servers, matched, index)
}

/// The commit after the servers' matched indexes: the greatest index of an entry of the own term that a majority has
/// matched, the server itself counted, and the old commit where none is greater.
pub fn committed(
    id: u32,
    servers: u32,
    term: u64,
    commit: u64,
    entries: &[Entry],
    matched: &[u64],
) -> u64
    ensures { result ≡ committed_upto (counting id servers term commit entries.now matched.now) (length entries.now) }
{
    let mut index = entries.len() as u64;
    while index > commit {
        if is_matched(id, servers, term, entries, matched, index) {
            return index;
        }
        index -= 1;
    }
    commit
}
