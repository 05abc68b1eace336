//! Rows that are looked at where they stand.

ghost use Rattle.std.specs.Prelude.{◌≡◌};

use crate::Row;
use cat_model::Memory;
use std::cmp::Ordering;
use std::marker::Model;

/// A row that is looked at where it stands.
#[derive(Drop)]
pub struct Seen<'a, R> {
    row: &'a R,
}

impl<'a, R> Model for Seen<'a, R> {
    ghost Value = { R };

    ghost view = { λ s. s.row.now };
}

impl<'a, R> Seen<'a, R> {
    pub fn new(row: &'a R) -> Seen<'a, R>
        ensures { result ≡ row.now }
    {
        Seen { row }
    }

    /// The row itself.
    pub fn row(&self) -> &'a R
        ensures { result.now ≡ self.now }
    {
        self.row
    }

    /// The same row once more.
    pub fn again(&self) -> Seen<'a, R>
        ensures { result ≡ self.now }
    {
        Seen { row: self.row }
    }
}

impl<'a, R: Row> Row for Seen<'a, R> {
    type Key = R::Key;

    ghost key = { R.key };

    ghost cmp = { R.cmp };

    ghost total = { R.total };

    ghost exact = { R.exact };

    fn order(&self, other: &Seen<'a, R>) -> Ordering {
        self.row.order(other.row)
    }

    fn copy(&self) -> Result<Seen<'a, R>, Memory> {
        Ok(self.again())
    }
}
