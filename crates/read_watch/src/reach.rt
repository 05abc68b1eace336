//! Which channels a fired one reaches.

ghost use Rattle.std.specs.Prelude.{◌≡◌};
ghost use Rattle.std.specs.List.{list_any};
ghost use Rattle.cat_model.specs.Reach.{reaches, is_on, is_service, is_key};
ghost use Rattle.cat_model.specs.declared.query.Chan.TheVariants as chans;

use cat_model::{Chan, Text};

fn same(a: &Text, b: &Text) -> bool
    ensures { result ≡ is_service a.now (chans.Service b.now) }
{
    a.as_str() == b.as_str()
}

fn begins(text: &Text, prefix: &Text) -> bool
    ensures { result ≡ is_key text.now (chans.Prefix prefix.now) }
{
    text.as_str()
        .as_bytes()
        .starts_with(prefix.as_str().as_bytes())
}

/// Whether a fired channel reaches a channel: itself, and a key also the prefixes that it begins with.
#[tactic(auto, unfolding(cat_model::specs::Reach::reaches))]
fn reaching(fired: &Chan, chan: &Chan) -> bool
    ensures { result ≡ reaches fired.now chan.now }
{
    match fired {
        Chan::Nodes => matches!(chan, Chan::Nodes),
        Chan::Services => matches!(chan, Chan::Services),
        Chan::Checks => matches!(chan, Chan::Checks),
        Chan::Sessions => matches!(chan, Chan::Sessions),
        Chan::Queries => matches!(chan, Chan::Queries),
        Chan::Vanished => matches!(chan, Chan::Vanished),
        Chan::Reaped => matches!(chan, Chan::Reaped),
        Chan::NodeGone => matches!(chan, Chan::NodeGone),
        Chan::Service(name) => match chan {
            Chan::Service(other) => same(name, other),
            _ => false,
        },
        Chan::Node(node) => match chan {
            Chan::Node(other) => same(node, other),
            _ => false,
        },
        Chan::NodeChecks(node) => match chan {
            Chan::NodeChecks(other) => same(node, other),
            _ => false,
        },
        Chan::Prefix(prefix) => match chan {
            Chan::Prefix(other) => same(prefix, other),
            _ => false,
        },
        Chan::Key(key) => match chan {
            Chan::Key(other) => same(key, other),
            Chan::Prefix(prefix) => begins(key, prefix),
            _ => false,
        },
    }
}

fn reached(fired: &[Chan], chan: &Chan) -> bool
    ensures { result ≡ list_any (λ f. reaches f chan.now) fired.now }
{
    fired.iter().any(|f| reaching(f, chan))
}

/// Whether some fired channel reaches one of these.
#[tactic(auto, unfolding(cat_model::specs::Reach::is_on))]
pub fn on(fired: &[Chan], chans: &[Chan]) -> bool
    ensures { result ≡ is_on fired.now chans.now }
{
    chans.iter().any(|chan| reached(fired, chan))
}
