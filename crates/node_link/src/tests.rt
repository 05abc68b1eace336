//! A host by itself, and one that is asked for its vote.

use crate::Host;
use cat_model::{Command, Role, Shared};
use outside::{Failed, SureKeeper};
use raft_model::{Message, Place};
use std::alloc::Global;
use std::test::Fail;

fn start(alloc: Global, servers: u32) -> Result<Host<SureKeeper>, Fail> {
    match Host::start(alloc, 1, servers, SureKeeper::new(alloc)) {
        Ok(host) => Ok(host),
        Err(_) => Ok(Err(Failed)?),
    }
}

// Asks server 1 for its vote, and says whether it granted that.
fn ask(host: &mut Host<SureKeeper>, alloc: Global, from: u32, term: u64) -> Result<bool, Fail> {
    if from == 0 || from > host.servers() || from == host.id() {
        return Ok(Err(Failed)?);
    }
    let asks = Message::AskVote {
        term,
        last_index: 0,
        last_term: 0,
    };
    Ok(host.receive(alloc, from, &asks)?)
}

#[test]
fn a_single_host_commits_and_hands_out(rt: HostRuntime) -> Result<(), Fail> {
    let alloc = rt.alloc();
    let mut host = start(alloc, 1)?;
    host.timeout(alloc)?;
    assert!(rt; host.status().role == Role::Leader);
    let noop = Shared::new(alloc, Command::Noop)?;
    let place = host.propose(alloc, noop);
    assert!(rt; matches!(place, Ok(Place { index: 2, term: 1 })));
    for _ in 0..2 {
        let next = host.next_committed()?;
        assert!(rt; next.is_some());
    }
    let next = host.next_committed()?;
    assert!(rt; next.is_none());
    host.restart(alloc)?;
    let status = host.status();
    assert_eq!(rt; (status.last, status.commit, status.applied), (2, 0, 0));
    Ok(())
}

#[test]
fn a_term_has_one_vote(rt: HostRuntime) -> Result<(), Fail> {
    let mut host = start(rt.alloc(), 3)?;
    let asked = [(2, 1, true), (3, 1, false), (2, 1, true), (3, 2, true)];
    for (from, term, granted) in asked {
        assert_eq!(rt; ask(&mut host, rt.alloc(), from, term)?, granted);
    }
    assert_eq!(rt; host.take_outbox(rt.alloc())?.len(), 4);
    assert_eq!(rt; host.take_outbox(rt.alloc())?.len(), 0);
    Ok(())
}

#[test]
fn an_outbox_has_room_for_256_messages(rt: HostRuntime) -> Result<(), Fail> {
    let mut host = start(rt.alloc(), 3)?;
    for _ in 0..257 {
        ask(&mut host, rt.alloc(), 2, 1)?;
    }
    assert_eq!(rt; host.status().lost, 1);
    assert_eq!(rt; host.take_outbox(rt.alloc())?.len(), 256);
    Ok(())
}
