//! Which services have each name, by the name and then by the service's node and its ID there.

ghost use Rattle.std.specs.Prelude.{◌≡◌, Some, IfOk, OnErr, OnOk};
ghost use Rattle.std.proofs.lemmas.Cmp.{nat_list_cmp_total};
ghost use Rattle.std.proofs.lemmas.Map.Lookups.{exact_bytes, exact_pairs};
ghost use Rattle.cat_model.proofs.Pairs.{both_total, exact_pair, pair_cmp_total};
ghost use Rattle.cat_model.specs.Catalog.{service_key};
ghost use Rattle.cat_model.specs.Keys.{pair_cmp, text_cmp};
ghost use Rattle.row_table.specs.Filing.{filed, filed_cmp, filed_key, unfiled};

use crate::copies::copy_of;
use cat_model::{Memory, ServiceRow, Text};
use row_table::{Probe, Row, RowTable};
use std::cmp::Ordering;
use std::marker::Model;

/// A service with this name.
#[derive(Drop)]
pub(crate) struct Named {
    pub(crate) name: Text,
    pub(crate) node: Text,
    pub(crate) id: Text,
}

impl Model for Named {
    ghost use Rattle.std.specs.Prelude.{ℕ, List};

    ghost Value = { List ℕ × (List ℕ × List ℕ) };

    ghost view = { λ s. (s.name, (s.node, s.id)) };
}

impl Row for Named {
    type Key = (Text, (Text, Text));

    ghost key = { filed_key };

    ghost cmp = { filed_cmp text_cmp pair_cmp };

    ghost total = { both_total text_cmp pair_cmp nat_list_cmp_total pair_cmp_total };

    ghost exact = { exact_pairs text_cmp pair_cmp exact_bytes exact_pair };

    fn order(&self, other: &Named) -> Ordering {
        let pair = self
            .node
            .as_str()
            .cmp(other.node.as_str())
            .then(self.id.as_str().cmp(other.id.as_str()));
        self.name.as_str().cmp(other.name.as_str()).then(pair)
    }

    fn copy(&self) -> Result<Named, Memory> {
        Ok(Named {
            name: copy_of(&self.name)?,
            node: copy_of(&self.node)?,
            id: copy_of(&self.id)?,
        })
    }
}

/// Looks for the service of this ID on this node among those with this name.
#[derive(Clone, Copy)]
pub(crate) struct ByName<'a> {
    pub(crate) name: &'a str,
    pub(crate) node: &'a str,
    pub(crate) id: &'a str,
}

impl<'a> Probe<Named> for ByName<'a> {
    ghost sought = { λ p. (p.name.now, (p.node.now, p.id.now)) };

    fn place(&self, row: &Named) -> Ordering {
        let pair = row
            .node
            .as_str()
            .cmp(self.node)
            .then(row.id.as_str().cmp(self.id));
        row.name.as_str().cmp(self.name).then(pair)
    }
}

fn entry_of(row: &ServiceRow) -> Result<Named, Memory>
    ensures { IfOk result (λ e. e ≡ (row.now.name, service_key row.now)) }
{
    Ok(Named {
        name: copy_of(&row.name)?,
        node: copy_of(&row.node)?,
        id: copy_of(&row.id)?,
    })
}

/// Files the service under its name.
pub(crate) fn file(names: &mut RowTable<Named>, row: &ServiceRow) -> Result<(), Memory>
    ensures ok { OnOk result (names.new.now ≡ filed text_cmp pair_cmp (Some row.now.name) (service_key row.now) names.old.now) }
    ensures before { names.new.before ≡ names.old.before }
    ensures err { OnErr result (names.new.now ≡ names.old.now) }
{
    let entry = entry_of(row)?;
    if let Err((_, memory)) = names.set(entry) {
        return Err(memory);
    }
    Ok(())
}

/// Takes the service from under the name.
pub(crate) fn unfile(names: &mut RowTable<Named>, name: &str, node: &str, id: &str)
    ensures now { names.new.now ≡ unfiled text_cmp pair_cmp (Some name.now) (node.now, id.now) names.old.now }
    ensures before { names.new.before ≡ names.old.before }
{
    names.remove(&ByName { name, node, id });
}
