ghost use Rattle.std.specs.Prelude.{◌≡◌, ◌∷◌, ◌++◌, [], length, OnErr, OnOk};

use crate::{Memory, Text};
use std::alloc::Global;
use std::marker::Model;

/// A list, which contracts see as the list of its items.
#[derive(Clone, Debug, Drop)]
pub struct List<T> {
    vec: Vec<T>,
}

/// A list of texts.
pub type Texts = List<Text>;

impl<T> Model for List<T> {
    ghost use Rattle.std.specs.Prelude.{List as Items};

    ghost Value = { Items T };

    ghost view = { λ l. l.vec.items };
}

impl<T> List<T> {
    /// The empty list, which takes no memory.
    pub fn new(alloc: Global) -> List<T>
        ensures { result ≡ [] }
    {
        List {
            vec: Vec::new(alloc),
        }
    }

    pub fn len(&self) -> usize
        ensures { result ≡ length self.now }
    {
        self.vec.len()
    }

    pub fn as_slice(&self) -> &[T]
        ensures { result.now ≡ self.now }
    {
        self.vec.as_slice()
    }

    /// The vector of these items, which takes no memory.
    pub fn into_vec(self) -> Vec<T>
        ensures { result.items ≡ self }
    {
        self.vec
    }
}

impl<T: Drop> List<T> {
    /// Puts the item last. After running out of memory the list is as before.
    pub fn push(&mut self, item: T) -> Result<(), Memory>
        ensures ok { OnOk result (self.new ≡ self.old ++ item ∷ []) }
        ensures err { OnErr result (self.new ≡ self.old) }
    {
        self.vec.push(item)?;
        Ok(())
    }
}

impl<T> From<Vec<T>> for List<T> {
    ghost from_gives = { λ v l. l ≡ v.items };

    fn from(vec: Vec<T>) -> List<T> {
        List { vec }
    }
}
