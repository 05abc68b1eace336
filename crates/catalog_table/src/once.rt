//! Names in byte order, each once.

ghost use Rattle.std.specs.Prelude.{◌≡◌, ℕ, List as Items, IfOk, OnOk, map};
ghost use Rattle.std.specs.List.{IsDistinct};
ghost use Rattle.std.proofs.lemmas.Cmp.{nat_list_cmp_total};
ghost use Rattle.std.proofs.lemmas.Map.Lookups.{exact_bytes};
ghost use Rattle.cat_model.specs.Keys.{same_text, text_cmp};
ghost use Rattle.cat_model.specs.Tables.{put};
ghost use Rattle.catalog_table.specs.Names.{is_among, text_of, AreNoted};

use crate::copies::copy_of;
use cat_model::{List, Memory, Text, Texts};
use row_table::{Probe, Row, RowTable};
use std::alloc::Global;
use std::cmp::Ordering;

/// A name or an ID, as a row of a table of them.
#[derive(Drop)]
pub(crate) struct Name {
    text: Text,
}

impl Row for Name {
    type Key = Text;

    ghost key = { text_of };

    ghost cmp = { text_cmp };

    ghost total = { nat_list_cmp_total };

    ghost exact = { exact_bytes };

    fn order(&self, other: &Name) -> Ordering {
        self.text.as_str().cmp(other.text.as_str())
    }

    fn copy(&self) -> Result<Name, Memory> {
        Ok(Name {
            text: copy_of(&self.text)?,
        })
    }
}

// Looks for this name.
#[derive(Clone, Copy)]
struct ByText<'a>(&'a str);

impl<'a> Probe<Name> for ByText<'a> {
    ghost sought = { λ p. p.0.now };

    fn place(&self, row: &Name) -> Ordering {
        row.text.as_str().cmp(self.0)
    }
}

/// Whether the name is noted.
pub(crate) fn is_noted(found: &RowTable<Name>, text: &Text) -> bool
    ensures { result ≡ is_among (map text_of found.now.now) text.now }
{
    found.get(&ByText(text.as_str())).is_some()
}

/// Notes the name, unless it is there.
pub(crate) fn note(found: &mut RowTable<Name>, text: Text) -> Result<(), Memory>
    ensures { OnOk result (found.new.now ≡ put text_cmp text_of (record { text = text }) found.old.now) }
{
    match found.set(Name { text }) {
        Ok(()) => Ok(()),
        Err((_, memory)) => Err(memory),
    }
}

// Notes these names.
fn note_each(found: &mut RowTable<Name>, names: Vec<Text>) -> Result<(), Memory>
    ensures { OnOk result (AreNoted names.items found.old.now found.new.now) }
{
    for text in names {
        note(found, text)?;
    }
    Ok(())
}

// Copies of the names that are noted.
fn noted(alloc: Global, found: &RowTable<Name>) -> Result<Texts, Memory>
    ensures { IfOk result (λ l. l ≡ map text_of found.now.now) }
{
    let mut names = List::new(alloc);
    for name in found.rows() {
        names.push(copy_of(&name.text)?)?;
    }
    Ok(names)
}

/// These names, each once.
pub(crate) fn each_once(alloc: Global, names: Texts) -> Result<Texts, Memory>
    ensures among { IfOk result (λ l. (name : Items ℕ) → is_among l name ≡ is_among names name) }
    ensures once { IfOk result (IsDistinct same_text) }
{
    let mut found = RowTable::new(alloc);
    note_each(&mut found, names.into_vec())?;
    found.in_order();
    noted(alloc, &found)
}
