ghost use Rattle.std.specs.Prelude.{◌≡◌};

/// A clock. No clause says what it shows: whoever reads it takes a time that has fallen for no time at all.
pub trait Clock {
    /// The milliseconds since some start, which never fall.
    fn now_ms(&self) -> u64;
}

/// A clock in memory, which stands still.
#[derive(Clone, Copy, Debug, PartialEq, Eq)]
pub struct SetClock {
    pub ms: u64,
}

impl Clock for SetClock {
    fn now_ms(&self) -> u64
        ensures { result ≡ self.now.ms }
    {
        self.ms
    }
}

/// What lets a request wait until its answer may have come. No clause speaks of waking: whoever waits looks for himself.
pub trait Gate {
    /// How often the request of that number was woken. Whoever is to wait reads it before others may wake it, and tells it
    /// to `idle`, so that no wake is lost.
    fn rings(&self, number: u64) -> u64;

    /// Waits until the request of that number was woken more often than that, or so many milliseconds have passed. It may
    /// return before.
    fn idle(&self, number: u64, rings: u64, most_ms: u64);

    /// Wakes the request of that number. It takes no memory.
    fn wake(&self, number: u64);
}
