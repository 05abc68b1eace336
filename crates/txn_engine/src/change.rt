ghost use Rattle.std.specs.Prelude.{◌≡◌};
ghost use Rattle.std.proofs.lemmas.Cmp.{nat_list_cmp_total};
ghost use Rattle.std.proofs.lemmas.Map.Lookups.{exact_bytes};
ghost use Rattle.cat_model.specs.Keys.{text_cmp};
ghost use Rattle.txn_engine.specs.Changes.{change_key};

use cat_model::{KvRow, List, Memory, Text, TxnResult, Verb};
use row_table::{ByKey, Probe, Row};
use std::cmp::Ordering;

/// What becomes of a key: its row is now this one, or it has none any more.
#[derive(Clone, Debug, Drop)]
pub enum Change {
    Put(KvRow),
    Removed(Text),
}

/// How a transaction ends.
#[derive(Debug, Drop)]
pub enum TxnEnd {
    /// Every operation went through. The changes stand in the byte order of their keys, one for each key.
    Done {
        results: List<TxnResult>,
        changes: List<Change>,
    },
    /// The operation with this place, counted from 0, failed first.
    RolledBack {
        op: u32,
        verb: Verb,
    },
}

impl Change {
    /// The key of which it is.
    pub fn key(&self) -> &str
        ensures { result.now ≡ change_key self.now }
    {
        match self {
            Change::Put(row) => row.key.as_str(),
            Change::Removed(key) => key.as_str(),
        }
    }
}

impl Row for Change {
    type Key = Text;

    ghost key = { change_key };

    ghost cmp = { text_cmp };

    ghost total = { nat_list_cmp_total };

    ghost exact = { exact_bytes };

    fn order(&self, other: &Change) -> Ordering {
        self.key().cmp(other.key())
    }

    fn copy(&self) -> Result<Change, Memory> {
        Ok(self.clone()?)
    }
}

impl<'a> Probe<Change> for ByKey<'a> {
    ghost sought = { λ p. p.0.now };

    fn place(&self, change: &Change) -> Ordering {
        change.key().cmp(self.0)
    }
}
