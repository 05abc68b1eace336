//! A reader of a store.

use cat_model::{Answer, Memory, Query, Steps};
use catalog_query::{View, evaluate};
use catalog_store::Store;
use dns_service::CatalogReader;
use std::alloc::Global;
use std::sync::ledger::Ledger;

/// Reads a store, which does not change meanwhile.
#[derive(Drop)]
pub struct StoreReader<'a> {
    pub store: &'a Store,
}

impl<'a> CatalogReader for StoreReader<'a> {
    ghost commands = { λ r. r.store.now };

    fn read<L: Ledger>(
        &mut self,
        alloc: Global,
        query: &Query,
        steps: &mut Steps<L>,
    ) -> Result<Answer, Memory> {
        let view = View {
            kv: self.store.kv(),
            catalog: self.store.catalog(),
            sessions: self.store.sessions(),
            queries: self.store.queries(),
            indexes: self.store.indexes(),
        };
        let (answer, _) = evaluate(alloc, &view, query, steps)?;
        Ok(answer)
    }
}
