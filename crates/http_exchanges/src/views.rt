//! Stale reads that wait for no index: they are answered by what viewers are shown, and take no turn.

ghost use Rattle.std.specs.Prelude.{◌≡◌, ◌<◌, IfErr, IfOk, length, true};
ghost use mathlib.Core.List.{IsPrefix};
ghost use Rattle.cat_model.specs.Indexes.{index_of};
ghost use Rattle.cat_model.specs.Machine.{catalog_at};
ghost use Rattle.cat_model.specs.Queries.{answer};
ghost use Rattle.http_exchanges.specs.declared.turns.NoReply.TheVariants as no_reply;
ghost use Rattle.http_exchanges.specs.Replies as spec;

use crate::turns::NoReply;
use cat_model::{Kind, Memory, Mode, Query, Request, Shared, Steps};
use cluster_requests::{Content, Reply};
use stale_view::{PairName, Unseen, Viewed, Viewer};
use std::alloc::Global;
use std::marker::Brand;
use std::sync::ledger::{Blank, Ledger};
use std::thread::yield_now;

/// How often a read looks for a reader that is free.
const MOST_LOOKS: u32 = 1 << 20;

/// Whether it is a stale read that waits for no index.
pub(crate) fn is_viewed(request: &Request) -> bool
    ensures { result ≡ spec.is_viewed request.now }
{
    match request {
        Request::Read {
            mode: Mode::Stale,
            min: 0,
            ..
        } => true,
        _ => false,
    }
}

// The viewer's answer to a query, where nobody reads what it costs.
fn glance_counted<J: PairName, L: Ledger>(
    alloc: Global,
    viewer: &mut Viewer<J>,
    query: &Query,
    blank: Blank,
) -> Result<Viewed, Unseen>
    requires name { blank.name ≡ L.name }
    requires parts { blank.parts ≡ L.parts }
    requires some { 0 < L.parts }
    ensures grown { IsPrefix viewer.old viewer.new }
    ensures seen { IfOk result (λ v. (v.answer ≡ answer query.now (catalog_at viewer.new)) × (v.index ≡ index_of query.now viewer.new) × (v.prefix ≡ length viewer.new)) }
{
    let mut steps: Steps<L> = Steps::new(blank);
    viewer.read(alloc, query, &mut steps)
}

// The same.
fn glance<J: PairName>(
    alloc: Global,
    viewer: &mut Viewer<J>,
    query: &Query,
) -> Result<Viewed, Unseen>
    ensures grown { IsPrefix viewer.old viewer.new }
    ensures seen { IfOk result (λ v. (v.answer ≡ answer query.now (catalog_at viewer.new)) × (v.index ≡ index_of query.now viewer.new) × (v.prefix ≡ length viewer.new)) }
{
    glance_counted::<J, Brand>(alloc, viewer, query, Blank::new(1))
}

// The same. It looks again while others read by all that viewers read by, which they do for no longer than an answer takes.
// Where they do so through all looks, which nobody has seen, the read fails as for lack of memory.
fn look<J: PairName>(alloc: Global, viewer: &mut Viewer<J>, query: &Query) -> Result<Viewed, Memory>
    ensures grown { IsPrefix viewer.old viewer.new }
    ensures seen { IfOk result (λ v. (v.answer ≡ answer query.now (catalog_at viewer.new)) × (v.index ≡ index_of query.now viewer.new) × (v.prefix ≡ length viewer.new)) }
{
    for _ in 0..MOST_LOOKS {
        match glance(alloc, viewer, query) {
            Ok(seen) => return Ok(seen),
            Err(Unseen::Memory) => return Err(Memory),
            Err(Unseen::Busy) => yield_now(),
        }
    }
    Err(Memory)
}

// The reply that shows what was seen.
fn reply_showing(seen: Viewed, query: &Shared<Query>, raw: bool) -> Result<Reply, NoReply>
    ensures reply { IfOk result (λ reply. reply ≡ spec.view_of query.now raw seen.answer seen.index seen.prefix) }
    ensures left { IfErr result (λ why. why ≡ no_reply.Memory) }
{
    let Viewed {
        answer,
        index,
        prefix,
    } = seen;
    let Ok(query) = query.share() else {
        drop(answer);
        return Err(NoReply::Memory);
    };
    let kind = Kind::At {
        mode: Mode::Stale,
        prefix,
        index,
        clock: 0,
        deadline: 0,
    };
    Ok(Reply::new(0, kind, true, 0, Content::Shows { query, raw, answer }))
}

/// The reply to a stale read that waits for no index.
pub(crate) fn view<J: PairName>(
    alloc: Global,
    viewer: &mut Viewer<J>,
    request: &Request,
) -> Result<Reply, NoReply>
    requires viewed { spec.is_viewed request.now ≡ true }
    ensures grown { IsPrefix viewer.old viewer.new }
    ensures reply { IfOk result (spec.IsViewed request.now viewer.new) }
    ensures left { IfErr result (λ why. why ≡ no_reply.Memory) }
{
    let Request::Read { query, raw, .. } = request else {
        unreachable!()
    };
    match look(alloc, viewer, query) {
        Ok(seen) => reply_showing(seen, query, *raw),
        Err(Memory) => Err(NoReply::Memory),
    }
}
