//! How a server begins: it listens, binds its port of names, and says where it listens.

ghost use Rattle.std.specs.Prelude.{◌≡◌, [], Some, IfErr, IfOk, MatchResult, OnErr, OnOk};
ghost use Rattle.std.specs.Io.KnownBytes.{Appends};
ghost use Rattle.script_player.specs.Run.{WritesPart};
ghost use Rattle.http_front.specs.Names.{GivesPortBack, IsBound};
ghost use Rattle.http_front.specs.Served as spec;
ghost use Rattle.http_front.specs.Text.{listening_text as listening_text_of};

use crate::names::{Names, bind_names, close_port, port_of};
use crate::options::Options;
use crate::stop::Stop;
use datagram_outside::Datagrams;
use outside::{Failed, Sink};
use script_player::write_all;
use serve_outside::Listener;
use std::alloc::{AllocError, Global};

// The line that says where the server listens.
fn listening_text(alloc: Global, port: u16) -> Result<Vec<u8>, AllocError>
    ensures { IfOk result (λ text. text.items ≡ listening_text_of port) }
{
    Ok(format!(in alloc; "listening {port}\n")?.into_bytes())
}

// Says where the server listens.
fn say_listening<Si: Sink>(alloc: Global, sink: &mut Si, port: u16) -> Result<(), Stop>
    ensures text { OnOk result (Appends (Si.held sink.old) (Si.held sink.new) (listening_text_of port)) }
    ensures part { OnErr result (WritesPart (Si.held sink.old) (Si.held sink.new) (listening_text_of port)) }
    ensures other { IfErr result (λ why. why ≡ Stop.Listener → ⊥) }
    ensures cause { MatchResult result (λ _. Si.faults sink.new ≡ Si.faults sink.old) (λ why. spec.CountsSink why (Si.faults sink.old) (Si.faults sink.new)) }
{
    let Ok(text) = listening_text(alloc, port) else {
        return Err(Stop::Memory);
    };
    match write_all(sink, &text) {
        Ok(()) => Ok(()),
        Err(fail) => Err(Stop::from(fail)),
    }
}

// Says where the server listens, whose port of names is bound. Where that fails the port is handed back.
fn say_bound<Si: Sink, D: Datagrams>(
    alloc: Global,
    sink: &mut Si,
    datagrams: &mut D,
    options: &Options<'_>,
    names: Option<Names<D::Port>>,
) -> Result<Option<Names<D::Port>>, Stop>
    requires bound { IsBound (λ p. D.Port.state p) options.now.dns names }
    ensures text { OnOk result (Appends (Si.held sink.old) (Si.held sink.new) (listening_text_of options.now.port)) }
    ensures part { OnErr result (WritesPart (Si.held sink.old) (Si.held sink.new) (listening_text_of options.now.port)) }
    ensures other { IfErr result (λ why. why ≡ Stop.Listener → ⊥) }
    ensures cause { MatchResult result (λ _. Si.faults sink.new ≡ Si.faults sink.old) (λ why. spec.CountsSink why (Si.faults sink.old) (Si.faults sink.new)) }
    ensures bound { IfOk result (IsBound (λ p. D.Port.state p) options.now.dns) }
    ensures kept { OnOk result (D.closed datagrams.new ≡ D.closed datagrams.old) }
    ensures back { OnErr result (GivesPortBack options.now.dns (D.closed datagrams.old) (D.closed datagrams.new)) }
    ensures binds { D.faults datagrams.new ≡ D.faults datagrams.old }
{
    match say_listening(alloc, sink, options.port) {
        Ok(()) => Ok(names),
        Err(why) => {
            close_port(datagrams, port_of(names));
            Err(why)
        }
    }
}

/// Listens, binds the port of names where one is asked for, and says where it listens.
pub fn listen<Si: Sink, L: Listener, D: Datagrams>(
    alloc: Global,
    sink: &mut Si,
    listener: &mut L,
    datagrams: &mut D,
    options: &Options<'_>,
) -> Result<Option<Names<D::Port>>, Stop>
    ensures text { OnOk result (Appends (Si.held sink.old) (Si.held sink.new) (listening_text_of options.now.port)) }
    ensures part { OnErr result (WritesPart (Si.held sink.old) (Si.held sink.new) (listening_text_of options.now.port)) }
    ensures unsaid { IfErr result (λ why. why ≡ Stop.Listener → Appends (Si.held sink.old) (Si.held sink.new) []) }
    ensures cause { MatchResult result (λ _. Si.faults sink.new ≡ Si.faults sink.old)
        (λ why. spec.CountsServing why (L.faults listener.old) (L.faults listener.new) (Si.faults sink.old) (Si.faults sink.new)) }
    ensures given { L.given listener.new ≡ L.given listener.old }
    ensures closed { L.closed listener.new ≡ L.closed listener.old }
    ensures faults { OnOk result (L.faults listener.new ≡ L.faults listener.old) }
    ensures port { OnOk result (L.listens_on listener.new ≡ Some options.now.port) }
    ensures bound { IfOk result (IsBound (λ p. D.Port.state p) options.now.dns) }
    ensures kept { OnOk result (D.closed datagrams.new ≡ D.closed datagrams.old) }
    ensures back { OnErr result (GivesPortBack options.now.dns (D.closed datagrams.old) (D.closed datagrams.new)) }
    ensures binds { MatchResult result (λ _. D.faults datagrams.new ≡ D.faults datagrams.old) (λ why. spec.CountsBinds why (D.faults datagrams.old) (D.faults datagrams.new)) }
    ensures unbound { IfErr result (λ why. why ≡ Stop.Datagrams → (sink.new ≡ sink.old) × (D.closed datagrams.new ≡ D.closed datagrams.old)) }
{
    let Ok(()) = listener.listen(options.port) else {
        return Err(Stop::Listener);
    };
    match bind_names(datagrams, options.dns) {
        Ok(names) => say_bound(alloc, sink, datagrams, options, names),
        Err(Failed) => Err(Stop::Datagrams),
    }
}
