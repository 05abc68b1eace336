//! Bells, by which whoever waits for a turn of another is woken.

ghost use Rattle.std.specs.Prelude.{◌≡◌, vec_len};

use crate::Gate;
use std::alloc::{AllocError, Global};
use std::sync::Wait;
use std::sync::atomic::{AtomicU64, Ordering};
use std::time::Duration;

// How many bells there are. Numbers that follow one another have different ones.
const BELLS: usize = 4096;

// A sleep looks at the low 32 bits of a bell's count.
const WORD: u64 = 1 << 32;

/// Bells, each of which counts how often it was rung. A number's bell is told by the rest that it leaves, so that a wake
/// may end the wait of another number too.
#[derive(Drop)]
pub struct Bells<R> {
    rt: R,
    bells: Vec<AtomicU64>,
    ghost many: { vec_len bells ≡ 4096 },
}

impl<R: Drop> Bells<R> {
    /// Bells that nobody has rung: 32 KiB.
    pub fn new(rt: R, alloc: Global) -> Result<Bells<R>, AllocError> {
        let mut bells = Vec::with_capacity(alloc, BELLS)?;
        for _ in 0..BELLS {
            bells.push(AtomicU64::new(0))?;
        }
        Ok(Bells { rt, bells })
    }

    fn bell_of(&self, number: u64) -> &AtomicU64 {
        &self.bells[(number % BELLS as u64) as usize]
    }
}

impl<R: Wait + Drop> Gate for Bells<R> {
    fn rings(&self, number: u64) -> u64 {
        self.bell_of(number).load(Ordering::SeqCst)
    }

    // It sleeps only while the count is that which was told, so that no ring behind it is slept through.
    fn idle(&self, number: u64, rings: u64, most_ms: u64) {
        let most = Duration::from_millis(most_ms);
        self.bell_of(number)
            .park_timeout(&self.rt, (rings % WORD) as u32, most);
    }

    fn wake(&self, number: u64) {
        let bell = self.bell_of(number);
        bell.fetch_add(1, Ordering::SeqCst);
        bell.wake_all();
    }
}
