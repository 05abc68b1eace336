//! Adapters over the machine's clock.

ghost use Rattle.std.specs.Prelude.{◌≡◌, [], ◌∷◌, ◌++◌, map, Some};
ghost use Rattle.serve_outside.specs.Drawing.{next_draw};

use crate::{Clock, Words};
use cat_model::Draw;
use http_server::Log;
use rand_core::Rng;
use rand_pcg::Pcg64;
use std::time;
use std::time::Duration;

/// The milliseconds that the machine's clock has gone on since this one was made.
#[derive(Clone, Copy, Drop)]
pub struct MachineClock<R> {
    rt: R,
    start: Duration,
}

// The machine's clock, or no time at all where the system does not tell it.
fn monotonic<R: time::Clock>(rt: &R) -> Duration {
    rt.monotonic().unwrap_or(Duration::ZERO)
}

impl<R: time::Clock> MachineClock<R> {
    pub fn new(rt: R) -> MachineClock<R> {
        let start = monotonic(&rt);
        MachineClock { rt, start }
    }
}

impl<R: time::Clock> Clock for MachineClock<R> {
    fn now_ms(&self) -> u64 {
        let passed = monotonic(&self.rt).saturating_sub(self.start);
        u64::try_from(passed.as_millis()).unwrap_or(u64::MAX)
    }
}

/// Words of a generator that is seeded from the time of day. They are no secret: they name sessions and nodes, and open
/// nothing.
#[derive(Drop)]
pub struct SeededWords {
    generator: Pcg64,
    given: Log<Draw, ()>,
}

impl SeededWords {
    pub fn new(rt: &impl time::Clock) -> SeededWords
        ensures { ⟦<SeededWords as Words>⟧.draws result ≡ Some [] }
    {
        let time_of_day = rt.since_1970().unwrap_or(Duration::ZERO).as_nanos();
        let time_of_run = monotonic(rt).as_nanos();
        SeededWords {
            generator: Pcg64::new(time_of_day, time_of_run),
            given: Log::new(),
        }
    }
}

impl Words for SeededWords {
    ghost use Rattle.std.specs.Prelude.{Some, map};

    ghost draws = { λ w. Some (map (λ p. p.0) w.given.items) };

    fn draw(&mut self) -> Draw
        ensures told { Some (map (λ p. p.0) self.new.given.items) ≡ Some (map (λ p. p.0) self.old.given.items ++ result ∷ []) }
        ensures next { (result, ⟦<Pcg64 as Rng>⟧.stream self.new.generator) ≡ next_draw (⟦<Pcg64 as Rng>⟧.stream self.old.generator) }
    {
        let hi = self.generator.next_u64();
        let lo = self.generator.next_u64();
        let draw = Draw { hi, lo };
        self.given = self.given.and(&draw, &());
        draw
    }
}
