//! What questions of names are answered by.

ghost use Rattle.std.specs.Prelude.{◌≡◌, ◌+◌, ◌<◌, ◌≤◌, IfOk, OnOk, length};
ghost use mathlib.Core.List.{IsPrefix};
ghost use Rattle.dns_service.specs.Reading.{answers_at};

use cat_model::{Answer, Memory, Query, Steps};
use dns_server::CountedReader;
use dns_service::CatalogReader;
use stale_view::{PairName, Unseen, Viewed, Viewer};
use std::alloc::Global;
use std::marker::Brand;
use std::sync::Wait;
use std::sync::ledger::{Blank, Ledger};
use std::thread::yield_now;

/// Reads the catalog that a viewer is shown.
#[derive(Drop)]
pub struct ViewReader<R, J: PairName> {
    pub rt: R,
    pub viewer: Viewer<J>,
}

// What the viewer sees. It looks again while others read by all that viewers read by, which they do for no longer than an
// answer takes.
fn look<R: Wait, J: PairName, L: Ledger>(
    rt: &R,
    alloc: Global,
    viewer: &mut Viewer<J>,
    query: &Query,
    steps: &mut Steps<L>,
) -> Result<Viewed, Memory>
    ensures grown { IsPrefix viewer.old viewer.new }
    ensures answer { IfOk result (λ v. v.answer ≡ answers_at viewer.new query.now) }
    ensures prefix { IfOk result (λ v. v.prefix ≡ length viewer.new) }
    ensures cost { steps.new ≤ steps.old + 1 }
    ensures one { OnOk result (steps.new ≡ steps.old + 1) }
{
    for _ in rt.forever() {
        match viewer.read(alloc, query, steps) {
            Ok(seen) => return Ok(seen),
            Err(Unseen::Memory) => return Err(Memory),
            Err(Unseen::Busy) => yield_now(),
        }
    }
    unreachable!()
}

// How many commands made what the viewer is shown. It asks for one prepared query, which is looked up at once.
fn count_counted<R: Wait, J: PairName, L: Ledger>(
    rt: &R,
    alloc: Global,
    viewer: &mut Viewer<J>,
    blank: Blank,
) -> Result<u64, Memory>
    requires name { blank.name ≡ L.name }
    requires parts { blank.parts ≡ L.parts }
    requires some { 0 < L.parts }
    ensures grown { IsPrefix viewer.old viewer.new }
    ensures count { IfOk result (λ n. n ≡ length viewer.new) }
{
    let mut steps: Steps<L> = Steps::new(blank);
    let seen = look(rt, alloc, viewer, &Query::QueryInfo { id: 0 }, &mut steps)?;
    Ok(seen.prefix)
}

// The same, where nobody reads how many queries were evaluated.
fn count<R: Wait, J: PairName>(rt: &R, alloc: Global, viewer: &mut Viewer<J>) -> Result<u64, Memory>
    ensures grown { IsPrefix viewer.old viewer.new }
    ensures count { IfOk result (λ n. n ≡ length viewer.new) }
{
    count_counted::<R, J, Brand>(rt, alloc, viewer, Blank::new(1))
}

impl<R: Wait, J: PairName> CatalogReader for ViewReader<R, J> {
    ghost commands = { λ r. r.viewer };

    fn read<L: Ledger>(
        &mut self,
        alloc: Global,
        query: &Query,
        steps: &mut Steps<L>,
    ) -> Result<Answer, Memory>
        ensures grown { IsPrefix self.old.viewer self.new.viewer }
        ensures answer { IfOk result (λ a. a ≡ answers_at self.new.viewer query.now) }
        ensures cost { steps.new ≤ steps.old + 1 }
        ensures one { OnOk result (steps.new ≡ steps.old + 1) }
    {
        let seen = look(&self.rt, alloc, &mut self.viewer, query, steps)?;
        Ok(seen.answer)
    }
}

impl<R: Wait, J: PairName> CountedReader for ViewReader<R, J> {
    fn count(&mut self, alloc: Global) -> Result<u64, Memory>
        ensures grown { IsPrefix self.old.viewer self.new.viewer }
        ensures count { IfOk result (λ n. n ≡ length self.new.viewer) }
    {
        count(&self.rt, alloc, &mut self.viewer)
    }
}
