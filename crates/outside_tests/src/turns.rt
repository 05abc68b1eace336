//! A lock whose turns many threads take.

ghost use Rattle.std.specs.Prelude.{◌≡◌, ◌++◌, IfOk, List, ℕ};
ghost use Rattle.turn_lock.specs.Passes.{IsFree, IsSame};

use std::alloc::{AllocError, Global};
use std::sync::Wait;
use std::test::Fail;
use std::thread;
use std::thread::Threads;
use turn_lock::{History, HistoryLock, Pass};

// More than there are rooms to wait in, so that some wait in one room.
const PLAYERS: u32 = 80;

// How often each player writes.
const TURNS: u32 = 50;

// The players that wrote, each as often as it did.
#[derive(Drop)]
struct Page {
    written: Vec<u32>,
}

impl History for Page {
    ghost use Rattle.std.specs.Prelude.{None};

    type Item = u32;

    ghost items = { λ page. page.written.items };

    ghost opens = { λ _. None };

    ghost takes = { λ _. None };
}

impl Page {
    // Writes behind what is there, and says whether that begins with what was seen. All is then seen.
    fn write(&mut self, seen: &mut Vec<u32>, player: u32) -> Result<bool, AllocError>
        ensures { (more : List ℕ) × (self.new.written.items ≡ self.old.written.items ++ more) }
    {
        let found = self.written.as_slice().starts_with(seen.as_slice());
        self.written.push(player)?;
        let new = self.written.len();
        seen.extend_from_slice(&self.written.as_slice()[seen.len().min(new)..])?;
        Ok(found)
    }
}

// A player, who takes turns at a lock.
#[derive(Drop)]
struct Player<'a> {
    lock: &'a HistoryLock<Page>,
    pass: Pass<Page>,
    number: u32,
    ghost own: { pass.seat.table_id ≡ lock.now.table.shared.table_id },
    ghost free: { IsFree pass.seat },
}

impl Player<'_> {
    // Writes once.
    fn take_turn<R: Wait>(&mut self, rt: &R, seen: &mut Vec<u32>) -> Result<bool, AllocError> {
        let mut turn = self.lock.take(rt, &mut self.pass);
        let found = turn.state().write(seen, self.number);
        self.lock.give(turn, &mut self.pass);
        found
    }

    // Writes again and again, and says whether all that had been seen was there each time.
    fn play<R: Wait>(mut self, rt: &R, alloc: Global) -> Result<bool, AllocError> {
        let mut seen = Vec::new(alloc);
        let mut found = true;
        for _ in 0..TURNS {
            found = self.take_turn(rt, &mut seen)? && found;
        }
        Ok(found)
    }
}

// A lock over a page on which nobody wrote, and the pass that all others are split from.
fn lock_of_page(alloc: Global) -> Result<(HistoryLock<Page>, Pass<Page>), AllocError>
    ensures { IfOk result (λ r. (r.1.seat.table_id ≡ r.0.table.shared.table_id) × IsFree r.1.seat) }
{
    let page = Page {
        written: Vec::new(alloc),
    };
    match HistoryLock::new(alloc, page) {
        Ok(made) => Ok(made),
        Err((page, error)) => {
            drop(page);
            Err(error)
        }
    }
}

// The players, each with a pass of his own.
fn players<'a>(
    alloc: Global,
    lock: &'a HistoryLock<Page>,
    pass: &mut Pass<Page>,
) -> Result<Vec<Player<'a>>, AllocError>
    requires own { pass.old.seat.table_id ≡ lock.now.table.shared.table_id }
    requires free { IsFree pass.old.seat }
    ensures own { IsSame pass.old.seat pass.new.seat }
    ensures free { IsFree pass.new.seat }
{
    let mut all = Vec::new(alloc);
    for number in 0..PLAYERS {
        let Ok(theirs) = lock.split(pass) else {
            return Ok(all);
        };
        let player = Player {
            lock,
            pass: theirs,
            number,
        };
        all.push(player)?;
    }
    Ok(all)
}

// Has all players play at once, and says how many found all that they had seen, each time.
fn play_all<R: Threads + Wait + Sync>(
    rt: &R,
    alloc: Global,
    all: Vec<Player<'_>>,
) -> Result<usize, AllocError> {
    let found = thread::map_vec(rt, all, &|player: Player<'_>| player.play(rt, alloc))?;
    Ok(
        found
            .iter()
            .filter(|found| matches!(found, Ok(true)))
            .count(),
    )
}

// Has the players play, and says how many there were, and how many found all that they had seen, each time.
fn played<R: Threads + Wait + Sync>(
    rt: &R,
    alloc: Global,
    lock: &HistoryLock<Page>,
    pass: &mut Pass<Page>,
) -> Result<(usize, usize), AllocError>
    requires own { pass.old.seat.table_id ≡ lock.now.table.shared.table_id }
    requires free { IsFree pass.old.seat }
    ensures own { IsSame pass.old.seat pass.new.seat }
    ensures free { IsFree pass.new.seat }
{
    let all = players(alloc, lock, pass)?;
    let count = all.len();
    let found = play_all(rt, alloc, all)?;
    Ok((count, found))
}

// How often the player wrote.
fn times(page: &Page, number: u32) -> usize {
    page.written
        .iter()
        .filter(|player| **player == number)
        .count()
}

// Whether each player wrote in each of his turns, and nobody else.
fn is_full(page: &Page) -> bool {
    for number in 0..PLAYERS {
        if times(page, number) != 50 {
            return false;
        }
    }
    page.written.len() == 4000
}

// Whether eighty players play, find all that they had seen, and fill the page.
fn all_write<R: Threads + Wait + Sync>(
    rt: &R,
    alloc: Global,
    lock: &HistoryLock<Page>,
    pass: &mut Pass<Page>,
) -> Result<bool, AllocError>
    requires own { pass.old.seat.table_id ≡ lock.now.table.shared.table_id }
    requires free { IsFree pass.old.seat }
{
    let counts = played(rt, alloc, lock, pass)?;
    let page = lock.take(rt, pass).into_state();
    let is_full = is_full(&page);
    drop(page);
    Ok(counts == (80, 80) && is_full)
}

#[test]
fn turns_of_many_players(rt: HostRuntime) -> Result<(), Fail> {
    let alloc = rt.alloc();
    let (lock, mut pass) = lock_of_page(alloc)?;
    let written = all_write(&rt, alloc, &lock, &mut pass);
    drop(pass);
    drop(lock);
    assert!(rt; written?);
    Ok(())
}
