//! The history of a pair: all commands that its publisher has taken, in order. It exists in contracts alone; of it there is
//! one word, its length. Who has seen a beginning of it can compare it with what others have seen.

ghost use Rattle.std.specs.Prelude.{◌≡◌, ◌+◌, ◌-◌, ◌<◌, ◌^◌, ◌∷◌, ◌++◌, [], length, true, false, IsTrue, OnOk};
ghost use mathlib.Core.List.{IsPrefix};
ghost use Rattle.stale_view.specs.History.{head_of};

use cat_model::Command;
use logbook::{Gain, Offer, Plain, Play, Rule, Seen, Start, Word};
use std::marker::Model;

/// The rule of the book: its word is the length of the history.
pub struct Law;

impl Rule<Command, u64> for Law {
    ghost use Rattle.std.specs.Prelude.{[]};
    ghost use base.Fml.{ftrue};
    ghost use Rattle.stale_view.specs.History.{IsKept};

    ghost holds = { λ cells log. IsKept cells log };

    ghost first = { [] };

    ghost hinted = { λ n log. Unit {0} };

    ghost shows = { λ log. [] };

    ghost keeps = { λ names log. ftrue };

    ghost moves = { λ ask before after answer. Unit {0} };
}

/// Nobody trades anything.
pub struct Nothing;

impl Gain<Command, u64> for Nothing {
    ghost use base.Fml.{ftrue};

    ghost after = { λ names about answer. ftrue };
}

/// A step that adds a command.
pub struct Add;

impl Play<Command, u64> for Add {
    ghost use Rattle.stale_view.specs.History.{Adds};

    ghost then = { Adds };
}

impl Plain<Command, Command, u64> for Add {
    ghost use Rattle.std.specs.Prelude.{None};

    ghost ask = { λ command. command };

    ghost state = { λ command. None };
}

/// The length of the history, as a word.
#[derive(Drop)]
pub struct Head {
    word: Word<Command, u64, Law>,
    pub ghost is: { word ≡ head_of word.book },
}

/// A beginning of the history, whose commands stand in contracts alone.
#[derive(Drop)]
pub struct Front {
    count: u64,
    seen: Seen<Command, u64, Law>,
}

impl Model for Front {
    ghost use Rattle.std.specs.Prelude.{◌≡◌, length};
    ghost use Rattle.stale_view.specs.History.{Beginning};

    ghost Value = { Beginning };

    ghost view = { λ f. record { book = f.seen.book; list = f.seen.log } };

    ghost invariant = { λ f. f.count ≡ length f.seen.log };
}

/// A new history, with nothing in it.
pub(crate) fn open() -> (Head, Front)
    ensures empty { result.1.list ≡ [] }
    ensures one { result.0.word.book ≡ result.1.book }
{
    let (seen, mut first, _second) = Seen::open(Start::alone(), 0, 0);
    let head = Head {
        word: Word::tracked(0, &mut first),
    };
    (head, Front { count: 0, seen })
}

impl Front {
    /// How many commands it has.
    pub(crate) fn count(&self) -> u64
        ensures { result ≡ length self.now.list }
    {
        self.count
    }

    /// A copy.
    pub(crate) fn again(&self) -> Front
        ensures { result ≡ self.now }
    {
        Front {
            count: self.count,
            seen: self.seen.again(),
        }
    }

    /// Goes on to another beginning of the same history, unless that is shorter, and says whether it did.
    pub(crate) fn follow(&mut self, other: &Front) -> bool
        requires { other.now.book ≡ self.old.book }
        ensures book { self.new.book ≡ self.old.book }
        ensures grown { IsPrefix self.old.list self.new.list }
        ensures followed { IsTrue result → self.new.list ≡ other.now.list }
        ensures shorter { result ≡ false → (self.new ≡ self.old) × (length other.now.list < length self.old.list) }
    {
        if other.count < self.count {
            return false;
        }
        let mut both = self.seen.again();
        both.learn(&other.seen);
        *self = other.again();
        true
    }

    /// Adds a command to the history, if this is all of it, and says whether it did.
    pub(crate) fn add(&mut self, head: &Head, command: &Command) -> bool
        requires room { length self.old.list < 2 ^ 64 - 1 }
        requires one { head.now.word.book ≡ self.old.book }
        ensures book { self.new.book ≡ self.old.book }
        ensures added { IsTrue result → self.new.list ≡ self.old.list ++ command.now ∷ [] }
        ensures behind { result ≡ false → self.new.list ≡ self.old.list }
    {
        let mut seen = self.seen.again();
        let mut offer: Offer<Command, u64, Law, Nothing> = seen.plain::<Nothing, Command, Add>(
            command,
        );
        let mut pen = seen.no_pen();
        let count = self.count;
        let found = head
            .word
            .compare_exchange::<Add, Nothing>(count, count + 1, &mut seen, &mut offer, &mut pen);
        if found != count {
            return false;
        }
        self.seen = seen;
        self.count = count + 1;
        true
    }
}

/// A history with nothing in it, which has no name yet. A pair is made of it.
#[derive(Drop)]
pub struct Opened {
    pub(crate) head: Head,
    pub front: Front,
    pub ghost empty: { front.list ≡ [] },
    pub ghost one: { head.word.book ≡ front.book },
}

impl Opened {
    pub fn new() -> Opened {
        let (head, front) = open();
        Opened { head, front }
    }
}
