//! Checks by their keys, and what becomes of them.

ghost use Rattle.std.specs.Prelude.{◌≡◌, ◌+◌, ◌<◌, ◌≤◌, IfOk, OnErr, OnOk, codes, false, is_some, map, nat_le, vec_len};
ghost use Rattle.std.specs.List.{list_any};
ghost use Rattle.std.specs.Option.{option_copied};
ghost use Rattle.std.specs.Vec.{vec_capacity};
ghost use Rattle.cat_model.specs.Keys.{pair_cmp, same_text};
ghost use Rattle.cat_model.specs.Tables.{row_at, without};
ghost use Rattle.cat_model.specs.Syncs.{serf_id};
ghost use Rattle.cluster_rules.specs.Agents.{agent_node, expired, noted_check, watched, watched_key};
ghost use Rattle.agent_state.specs.Expiring.{says_expired, turns};
ghost use Rattle.agent_state.specs.Order.{ChecksAscend, all_put};
ghost use Rattle.agent_state.specs.Replacing.{other_or};

use crate::names::compare_own;
use crate::replacements::{replace_all, replacements};
use crate::watched::{Watched, watched_row};
use cat_model::lists::{copy_of, made};
use cat_model::{Memory, Status, Text, TtlDef};
use node_rows::{is_same, place_in_room};
use std::alloc::Global;

/// The ID of the check that each agent has of its own node.
pub(crate) const SERF_HEALTH: &str = "serfHealth";

const TTL_EXPIRED: &str = "TTL expired";

/// Whether the ID is that of the agent's own check.
pub(crate) fn is_own(id: &Text) -> bool
    ensures { result ≡ same_text id.now serf_id }
{
    id.as_str() == SERF_HEALTH
}

/// Whether one of these checks has the ID of the agent's own.
pub(crate) fn has_own(checks: &[TtlDef]) -> bool
    ensures { result ≡ list_any (λ t. same_text t.id serf_id) checks.now }
{
    checks.iter().any(|t| is_own(&t.id))
}

// An agent's check of this ID.
fn own_check<'a>(number: u32, id: &Text, checks: &'a [Watched]) -> Option<&'a Watched>
    requires { number < 100 }
    ensures { option_copied result ≡ row_at pair_cmp watched_key (agent_node number, id.now) checks.now }
{
    checks.iter().find(|w| compare_own(number, id, &w.row.node, &w.row.id).is_eq())
}

/// Whether an agent has a check of this ID, besides its own.
pub(crate) fn has_check(number: u32, id: &Text, checks: &[Watched]) -> bool
    requires { number < 100 }
    ensures { result ≡ is_some (row_at pair_cmp watched_key (agent_node number, id.now) checks.now) }
{
    own_check(number, id, checks).is_some()
}

/// The checks as they were asked for.
pub(crate) fn watched_rows(
    alloc: Global,
    number: u32,
    now: u64,
    checks: &[TtlDef],
) -> Result<Vec<Watched>, Memory>
    requires { number < 100 }
    ensures { IfOk result (λ v. v.items ≡ map (watched number now) checks.now) }
{
    let rows = made(alloc, checks, |t| watched_row(alloc, number, now, t))?;
    Ok(rows.into_vec())
}

/// Puts each of these checks in the place of the one of its key. There is room for them, so that this takes no memory.
pub(crate) fn place_checks(checks: &mut Vec<Watched>, new: Vec<Watched>)
    requires order { ChecksAscend checks.old.items }
    requires room { vec_len checks.old + vec_len new ≤ vec_capacity checks.old }
    ensures rows { checks.new.items ≡ all_put new.items checks.old.items }
    ensures order { ChecksAscend checks.new.items }
{
    for one in new {
        place_in_room(checks, one);
    }
}

/// Drops the checks of this ID.
pub(crate) fn drop_checks(id: &Text, checks: &mut Vec<Watched>)
    requires { ChecksAscend checks.old.items }
    ensures rows { checks.new.items ≡ without (λ w. same_text w.row.id id.now) checks.old.items }
    ensures order { ChecksAscend checks.new.items }
{
    checks.retain(|w| !is_same(&w.row.id, id));
}

/// Drops the checks of this service.
pub(crate) fn drop_checks_of(service: &Text, checks: &mut Vec<Watched>)
    requires { ChecksAscend checks.old.items }
    ensures rows { checks.new.items ≡ without (λ w. same_text w.row.service service.now) checks.old.items }
    ensures order { ChecksAscend checks.new.items }
{
    checks.retain(|w| !is_same(&w.row.service, service));
}

// The check with this status and output.
fn noted(w: &Watched, status: Status, output: Text, since: u64) -> Result<Watched, Memory>
    ensures { IfOk result (λ n. n ≡ record w.now { row = record w.now.row { status = status; output = output }; since = since }) }
{
    let mut copy = copy_of(w)?;
    copy.row.status = status;
    copy.row.output = output;
    copy.since = since;
    Ok(copy)
}

/// The check with this status and output, and counting anew, if it has this ID.
pub(crate) fn marked(
    id: &Text,
    status: Status,
    output: &Text,
    now: u64,
    w: &Watched,
) -> Result<Option<Watched>, Memory>
    ensures { IfOk result (λ o. other_or w.now o ≡ noted_check id.now status output.now now w.now) }
{
    if is_same(&w.row.id, id) {
        Ok(Some(noted(w, status, output.clone()?, now)?))
    } else {
        Ok(None)
    }
}

// The check's TTL is over.
fn is_over(now: u64, w: &Watched) -> bool
    ensures { result ≡ nat_le (w.now.since + w.now.ttl) now }
{
    match w.since.checked_add(w.ttl) {
        None => false,
        Some(end) => end <= now,
    }
}

fn says_expired(w: &Watched) -> bool
    ensures { result ≡ says_expired w.now }
{
    matches!(w.row.status, Status::Critical) && w.row.output.as_str() == TTL_EXPIRED
}

// The check turned critical, if its TTL is over and it does not say so yet.
#[tactic(auto, using(crate::proofs::Turning::turned, crate::proofs::Turning::unturned))]
fn turned(alloc: Global, now: u64, w: &Watched) -> Result<Option<Watched>, Memory>
    ensures { IfOk result (λ o. other_or w.now o ≡ expired now w.now) }
{
    if is_over(now, w) && !says_expired(w) {
        let output = Text::new(alloc, TTL_EXPIRED)?;
        Ok(Some(noted(w, Status::Critical, output, w.since)?))
    } else {
        Ok(None)
    }
}

/// Turns the checks critical whose TTL is over at this time by the agent's clock.
pub(crate) fn expire_checks(
    alloc: Global,
    now: u64,
    checks: &mut Vec<Watched>,
) -> Result<(), Memory>
    requires { ChecksAscend checks.old.items }
    ensures ok { OnOk result (checks.new.items ≡ map (expired now) checks.old.items) }
    ensures err { OnErr result (checks.new.items ≡ checks.old.items) }
    ensures order { ChecksAscend checks.new.items }
{
    let new = replacements(alloc, checks.as_slice(), |w| turned(alloc, now, w))?;
    replace_all(checks, new);
    Ok(())
}
