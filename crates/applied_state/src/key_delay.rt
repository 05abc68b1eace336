ghost use Rattle.std.proofs.lemmas.Cmp.{nat_list_cmp_total};
ghost use Rattle.std.proofs.lemmas.Map.Lookups.{exact_bytes};
ghost use Rattle.cat_model.specs.Keys.{text_cmp};
ghost use Rattle.applied_state.specs.Ends.{delay_key};

use cat_model::{Memory, Text};
use row_table::{ByKey, Probe, Row};
use std::cmp::Ordering;
use std::marker::Model;

/// A key and the clock at which its delay is over.
#[derive(Drop)]
pub(crate) struct Delay {
    pub(crate) key: Text,
    pub(crate) until: u128,
}

impl Model for Delay {
    ghost use Rattle.std.specs.Prelude.{ℕ, List};

    ghost Value = { List ℕ × ℕ };

    ghost view = { λ d. (d.key, d.until) };
}

impl Row for Delay {
    type Key = Text;

    ghost key = { delay_key };

    ghost cmp = { text_cmp };

    ghost total = { nat_list_cmp_total };

    ghost exact = { exact_bytes };

    fn order(&self, other: &Delay) -> Ordering {
        self.key.as_str().cmp(other.key.as_str())
    }

    fn copy(&self) -> Result<Delay, Memory> {
        Ok(Delay {
            key: self.key.clone()?,
            until: self.until,
        })
    }
}

/// Looks for the delay of this key.
#[derive(Clone, Copy)]
pub(crate) struct Of<'a>(pub(crate) &'a str);

impl<'a> Probe<Delay> for Of<'a> {
    ghost sought = { λ p. p.0.now };

    fn place(&self, row: &Delay) -> Ordering {
        row.key.as_str().cmp(self.0)
    }
}
