ghost use Rattle.std.specs.Prelude.{◌≡◌};
ghost use Rattle.cluster_order.specs.Turns.{event_of};

use cat_model::Event;

/// An event of one act that goes to one server and is no request.
#[derive(Clone, Copy, Debug)]
pub enum Impulse {
    Timeout(u32),
    Beat(u32),
    /// The message with this number.
    Deliver(u64),
    Restart(u32),
    /// The n-th call from now on of the server's durable store is to fail.
    FailKeep(u32, u32),
}

impl Impulse {
    pub fn event(self) -> Event
        ensures { result ≡ event_of self }
    {
        match self {
            Impulse::Timeout(server) => Event::Timeout(server),
            Impulse::Beat(server) => Event::Beat(server),
            Impulse::Deliver(number) => Event::Deliver(number),
            Impulse::Restart(server) => Event::Restart(server),
            Impulse::FailKeep(server, nth) => Event::FailKeep(server, nth),
        }
    }
}
