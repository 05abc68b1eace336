//! The instances that pass a test.

ghost use Rattle.std.specs.Prelude.{◌≡◌, filter};
ghost use Rattle.cat_model.specs.Queries.{has_tag, has_all_tags, all_pass};
ghost use Rattle.cat_model.specs.Same.{same_status};
ghost use Rattle.cat_model.specs.Executions.{meets_tag, meets_all_tags, none_critical};

use cat_model::{Instance, List, Status, Text, Texts};
use node_rows::is_same;

fn is_same_status(a: Status, b: Status) -> bool
    ensures { result ≡ same_status a b }
{
    matches!(
        (a, b),
        (Status::Passing, Status::Passing)
            | (Status::Warning, Status::Warning)
            | (Status::Critical, Status::Critical)
    )
}

fn does_pass(x: &Instance) -> bool
    ensures { result ≡ all_pass x.now }
{
    x.checks
        .as_slice()
        .iter()
        .all(|c| is_same_status(c.row.status, Status::Passing))
}

fn has_no_critical(x: &Instance) -> bool
    ensures { result ≡ none_critical x.now }
{
    x.checks
        .as_slice()
        .iter()
        .all(|c| !is_same_status(c.row.status, Status::Critical))
}

fn is_tagged(tags: &Texts, tag: &Text) -> bool
    ensures { result ≡ has_tag tags.now tag.now }
{
    tags.as_slice().iter().any(|t| is_same(tag, t))
}

fn has_all(wanted: &Texts, x: &Instance) -> bool
    ensures { result ≡ has_all_tags wanted.now x.now }
{
    wanted
        .as_slice()
        .iter()
        .all(|tag| is_tagged(&x.service.tags, tag))
}

fn has_bytes(tags: &Texts, tag: &[u8]) -> bool
    ensures { result ≡ has_tag tags.now tag.now }
{
    tags.as_slice().iter().any(|t| tag == t.as_str().as_bytes())
}

/// Whether the tags meet the wanted one: `!t` wants that `t` is absent.
fn is_met(tags: &Texts, wanted: &Text) -> bool
    ensures { result ≡ meets_tag tags.now wanted.now }
{
    let bytes = wanted.as_str().as_bytes();
    let Some((first, rest)) = bytes.split_first() else {
        return has_bytes(tags, bytes);
    };
    if *first == b'!' {
        return !has_bytes(tags, rest);
    }
    has_bytes(tags, bytes)
}

fn are_met(wanted: &Texts, x: &Instance) -> bool
    ensures { result ≡ meets_all_tags wanted.now x.now }
{
    wanted
        .as_slice()
        .iter()
        .all(|tag| is_met(&x.service.tags, tag))
}

/// The instances all of whose checks pass. Takes no memory.
pub fn only_passing(list: List<Instance>) -> List<Instance>
    ensures { result ≡ filter all_pass list }
{
    let mut found = list.into_vec();
    found.retain(|x| does_pass(x));
    List::from(found)
}

/// The instances that have no critical check. Takes no memory.
pub fn not_critical(list: List<Instance>) -> List<Instance>
    ensures { result ≡ filter none_critical list }
{
    let mut found = list.into_vec();
    found.retain(|x| has_no_critical(x));
    List::from(found)
}

/// The instances whose service has all these tags. Takes no memory.
pub fn with_tags(list: List<Instance>, tags: &Texts) -> List<Instance>
    ensures { result ≡ filter (has_all_tags tags.now) list }
{
    let mut found = list.into_vec();
    found.retain(|x| has_all(tags, x));
    List::from(found)
}

/// The instances whose service meets each of these tags, where `!t` wants that `t` is absent. Takes no memory.
///
/// Consul, Prepared Queries HTTP endpoint: "Create Prepared Query" (Tags).
pub fn meeting_tags(list: List<Instance>, wanted: &Texts) -> List<Instance>
    ensures { result ≡ filter (meets_all_tags wanted.now) list }
{
    let mut found = list.into_vec();
    found.retain(|x| are_met(wanted, x));
    List::from(found)
}
