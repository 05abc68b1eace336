//! A viewer.

ghost use Rattle.std.specs.Prelude.{◌≡◌, ◌+◌, ◌≤◌, [], length, IfErr, IfOk, OnOk};
ghost use mathlib.Core.List.{IsPrefix};
ghost use Rattle.std.specs.Arc.{arc_value};
ghost use Rattle.cat_model.specs.Machine.{catalog_at};
ghost use Rattle.cat_model.specs.Queries.{answer};
ghost use Rattle.cat_model.specs.Indexes.{index_of};
ghost use Rattle.catalog_query.specs.Standing.{Stands as StandsFor};
ghost use Rattle.stale_view.specs.Sides.{Stands};
ghost use Rattle.stale_view.specs.declared.viewer.Unseen.TheVariants as unseen;

use crate::history::Front;
use crate::names::PairName;
use crate::publisher::Publisher;
use crate::readers::Readers;
use crate::rule::{Reads, SideReader};
use crate::side::Side;
use cat_model::{Answer, Memory, Query, Steps};
use catalog_query::{View, evaluate};
use catalog_store::Store;
use std::alloc::Global;
use std::marker::Model;
use std::sync::ledger::Ledger;
use std::sync::{Arc, Wait};
use thiserror::Error;

/// Why a viewer saw nothing.
#[derive(Clone, Copy, Debug, PartialEq, Eq, Error)]
pub enum Unseen {
    /// Others read by all readers of the pair. Whoever asks again may find one.
    #[error("no reader of the catalog is free")]
    Busy,
    #[error("out of memory")]
    Memory,
}

/// What answers queries from what the publisher shows, for one client. Contracts see it as the list that it has read.
#[derive(Drop)]
pub struct Viewer<J: PairName> {
    pub(crate) readers: Arc<Readers<J>, Global>,
    pub(crate) read: Front,
}

impl<J: PairName> Model for Viewer<J> {
    ghost use Rattle.std.specs.Prelude.{◌≡◌, List, []};
    ghost use Rattle.std.specs.Arc.{arc_value};
    ghost use Rattle.cat_model.specs.declared.command.Command.{Command};

    ghost Value = { List Command };

    ghost view = { λ v. v.read.list };

    ghost invariant = { λ v. (v.read.book ≡ J.book) × ((arc_value v.readers).empty.book ≡ J.book) × ((arc_value v.readers).empty.list ≡ []) };
}

/// The answer to a query with its index, at so many commands of the log.
#[derive(Debug, Drop)]
pub struct Viewed {
    pub answer: Answer,
    pub index: u64,
    pub prefix: u64,
}

// The tables of a store, read together.
fn tables_of(store: &Store) -> View<'_>
    ensures { StandsFor result store.now }
{
    View {
        kv: store.kv(),
        catalog: store.catalog(),
        sessions: store.sessions(),
        queries: store.queries(),
        indexes: store.indexes(),
    }
}

// The answer by the tables that are shown. It is one step, also where memory fails.
fn answered<L: Ledger>(
    alloc: Global,
    side: &Side,
    query: &Query,
    steps: &mut Steps<L>,
) -> Result<Viewed, Memory>
    ensures told { IfOk result (λ v. (v.answer ≡ answer query.now (catalog_at side.now.store)) × (v.index ≡ index_of query.now side.now.store) × (v.prefix ≡ length side.now.store)) }
    ensures cost { steps.new ≡ steps.old + 1 }
{
    let (answer, index) = evaluate(alloc, &tables_of(&side.store), query, steps)?;
    Ok(Viewed {
        answer,
        index,
        prefix: side.store.length(),
    })
}

// The answer by the tables that are shown, where they go on from all that was read before.
fn followed<L: Ledger>(
    alloc: Global,
    side: &Side,
    read: &mut Front,
    query: &Query,
    steps: &mut Steps<L>,
) -> Result<Viewed, Memory>
    requires { Stands read.old.book side.now }
    ensures book { read.new.book ≡ read.old.book }
    ensures grown { IsPrefix read.old.list read.new.list }
    ensures told { IfOk result (λ v. (v.answer ≡ answer query.now (catalog_at read.new.list)) × (v.index ≡ index_of query.now read.new.list) × (v.prefix ≡ length read.new.list)) }
    ensures cost { steps.new ≤ steps.old + 1 }
    ensures one { OnOk result (steps.new ≡ steps.old + 1) }
{
    if !read.follow(&side.stamp) {
        return Err(Memory);
    }
    answered(alloc, side, query, steps)
}

// Reads the tables that are shown.
fn look<J: PairName, L: Ledger>(
    reader: SideReader<J>,
    alloc: Global,
    read: &mut Front,
    query: &Query,
    steps: &mut Steps<L>,
) -> (SideReader<J>, Result<Viewed, Memory>)
    requires { read.old.book ≡ J.book }
    ensures book { read.new.book ≡ read.old.book }
    ensures grown { IsPrefix read.old.list read.new.list }
    ensures told { IfOk result.1 (λ v. (v.answer ≡ answer query.now (catalog_at read.new.list)) × (v.index ≡ index_of query.now read.new.list) × (v.prefix ≡ length read.new.list)) }
    ensures cost { steps.new ≤ steps.old + 1 }
    ensures one { OnOk result.1 (steps.new ≡ steps.old + 1) }
{
    match reader.enter_as::<Reads<J>>() {
        Ok(reading) => {
            let told = followed(alloc, reading.get(), read, query, steps);
            (reading.leave(), told)
        }
        Err(reader) => (reader, Err(Memory)),
    }
}

impl<J: PairName> Viewer<J> {
    /// Answers the query at what is shown, which goes on from all that this viewer has read. It waits for nobody, and is
    /// one step at most. Where others read by all readers of the pair, nothing happens.
    pub fn read<L: Ledger>(
        &mut self,
        alloc: Global,
        query: &Query,
        steps: &mut Steps<L>,
    ) -> Result<Viewed, Unseen>
        ensures grown { IsPrefix self.old self.new }
        ensures answer { IfOk result (λ v. v.answer ≡ answer query.now (catalog_at self.new)) }
        ensures index { IfOk result (λ v. v.index ≡ index_of query.now self.new) }
        ensures prefix { IfOk result (λ v. v.prefix ≡ length self.new) }
        ensures busy { IfErr result (λ why. why ≡ unseen.Busy → (self.new ≡ self.old) × (steps.new ≡ steps.old)) }
        ensures cost { steps.new ≤ steps.old + 1 }
        ensures one { OnOk result (steps.new ≡ steps.old + 1) }
    {
        let Some((slot, reader)) = self.readers.take() else {
            return Err(Unseen::Busy);
        };
        let (reader, told) = look(reader, alloc, &mut self.read, query, steps);
        slot.put(reader);
        match told {
            Ok(viewed) => Ok(viewed),
            Err(Memory) => Err(Unseen::Memory),
        }
    }

    /// Has read what the publisher shows. That is never less than it had read before, and lack of memory never comes; but
    /// no viewer can know that.
    pub fn learn<R: Wait + Drop>(&mut self, publisher: &Publisher<J, R>) -> Result<(), Memory>
        ensures grown { IsPrefix self.old self.new }
        ensures ok { OnOk result (self.new ≡ publisher.now.list) }
    {
        if self.read.follow(publisher.shown()) {
            Ok(())
        } else {
            Err(Memory)
        }
    }

    /// One more viewer of the pair, which has read nothing.
    pub fn split(&self) -> Result<Viewer<J>, Memory>
        ensures { IfOk result (λ v. v ≡ []) }
    {
        let readers = Arc::try_clone(&self.readers)?;
        let read = readers.empty.again();
        Ok(Viewer { readers, read })
    }
}
