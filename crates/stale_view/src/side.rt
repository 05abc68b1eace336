//! One of the two copies of the tables.

ghost use Rattle.std.specs.Prelude.{◌≡◌, [], IfOk};

use crate::history::Front;
use cat_model::{Command, Memory, Shared};
use catalog_store::{Store, is_taken};
use left_right::Absorb;
use std::alloc::{AllocError, Global};

/// The most commands that a store takes.
const MOST: u64 = 262_144;

/// A store, stamped with a beginning of the pair's history. It stands for it while it is shown.
#[derive(Drop)]
pub struct Side {
    alloc: Global,
    pub(crate) store: Store,
    pub(crate) stamp: Front,
}

/// What is done to each copy.
#[derive(Drop)]
pub enum Op {
    Apply(Shared<Command>),
    Stamp(Front),
}

impl Side {
    /// The tables before the first command.
    pub(crate) fn new(alloc: Global, front: &Front) -> Result<Side, Memory>
        ensures { IfOk result (λ s. (s.store ≡ []) × (s.stamp ≡ front.now)) }
    {
        Ok(Side {
            alloc,
            store: Store::new(alloc)?,
            stamp: front.again(),
        })
    }
}

impl Absorb<Op> for Side {
    ghost use Rattle.stale_view.specs.Sides.{after_op};

    type State = Side;

    ghost state = { λ s. s };

    ghost applied = { after_op };

    // What a store does not take is answered as lack of memory, as servers answer it: no log is so long, and no request
    // enters such a command.
    fn absorb_first(&mut self, operation: &Op, _other: &Side) -> Result<(), AllocError> {
        match operation {
            Op::Stamp(front) => {
                self.stamp = front.again();
                Ok(())
            }
            Op::Apply(command) => {
                let length = self.store.length();
                if length >= MOST || !is_taken(command) {
                    return Err(AllocError);
                }
                match self.store.apply(self.alloc, length + 1, command) {
                    Ok(_) => Ok(()),
                    Err(Memory) => Err(AllocError),
                }
            }
        }
    }
}
