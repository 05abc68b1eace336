//! Three processes that send one another frames.

use crate::{MemDialer, NodeProcess, Piece};
use cat_model::{List, Role};
use node_link::Status;
use outside::{Failed, SureKeeper};
use peer_frames::{Frame, GotFrame, Why};
use std::alloc::Global;
use std::test::Fail;

const PORTS: [u16; 3] = [7001, 7002, 7003];

type Process = NodeProcess<SureKeeper>;

// The processes of servers 1 to 3, which began at 1000 ms.
fn cluster(alloc: Global) -> Result<Vec<Process>, Fail> {
    let mut processes = Vec::new(alloc);
    for id in 1..4u32 {
        match NodeProcess::start(alloc, id, 3, SureKeeper::new(alloc), 1000) {
            Ok(process) => processes.push(process)?,
            Err(_) => return Ok(Err(Failed)?),
        }
    }
    Ok(processes)
}

// The process of a server.
fn process(processes: &mut [Process], server: u16) -> Result<&mut Process, Failed> {
    processes
        .get_mut(server.saturating_sub(1) as usize)
        .ok_or(Failed)
}

fn status(processes: &mut [Process], server: u16) -> Result<Status, Failed> {
    Ok(process(processes, server)?.host().status())
}

// Hands a process the frame of these bytes.
fn hand(
    process: &mut Process,
    alloc: Global,
    bytes: &[u8],
    now_ms: u64,
) -> Result<Option<Frame>, Fail> {
    let mut reader = process.reader(alloc)?;
    match reader.feed(bytes).got {
        GotFrame::Frame(frame) => Ok(process.take_frame(alloc, &frame, now_ms, 7)?),
        _ => Ok(Err(Failed)?),
    }
}

// Hands what one process has to send to the others, and says how many frames those were.
fn carry_from(
    alloc: Global,
    processes: &mut [Process],
    from: u16,
    failing: List<u64>,
    now_ms: u64,
) -> Result<usize, Fail> {
    let mut dialer = MemDialer::new(alloc, failing);
    process(processes, from)?.send_all(alloc, &mut dialer, &PORTS)?;
    for Piece { port, bytes } in dialer.took() {
        let to = process(processes, port.saturating_sub(7000))?;
        hand(to, alloc, bytes.as_slice(), now_ms)?;
    }
    Ok(dialer.took().len())
}

// Carries frames until none is left.
fn settle(alloc: Global, processes: &mut [Process], now_ms: u64) -> Result<(), Fail> {
    for _ in 0..100 {
        let mut carried = 0usize;
        for from in 1..4u16 {
            let more = carry_from(alloc, processes, from, List::new(alloc), now_ms)?;
            carried = carried.saturating_add(more);
        }
        if carried == 0 {
            return Ok(());
        }
    }
    Ok(Err(Failed)?)
}

// Server 1's election timeout ends at 1300 ms, and the others vote for it.
fn elected(alloc: Global) -> Result<Vec<Process>, Fail> {
    let mut processes = cluster(alloc)?;
    process(&mut processes, 1)?.tick(alloc, 1300, 7)?;
    settle(alloc, &mut processes, 1300)?;
    Ok(processes)
}

fn propose(alloc: Global, processes: &mut [Process], server: u16) -> Result<Option<Frame>, Fail> {
    // It deletes the key `a`.
    hand(
        process(processes, server)?,
        alloc,
        &[0, 0, 0, 5, 6, 1, 7, 1, 97],
        1300,
    )
}

#[test]
fn a_proposal_is_committed_by_all(rt: HostRuntime) -> Result<(), Fail> {
    let alloc = rt.alloc();
    let mut processes = elected(alloc)?;
    assert!(rt; status(&mut processes, 1)?.role == Role::Leader);
    let placed = propose(alloc, &mut processes, 1)?;
    assert!(rt; matches!(&placed, Some(Frame::Placed { index: 2, term: 1 })));
    let refused = propose(alloc, &mut processes, 2)?;
    assert!(rt;
        matches!(
            &refused,
            Some(Frame::Refused {
                why: Why::NotLeader
            })
        )
    );
    settle(alloc, &mut processes, 1300)?;
    process(&mut processes, 1)?.tick(alloc, 1400, 7)?;
    settle(alloc, &mut processes, 1400)?;
    for server in 1..4u16 {
        let to = process(&mut processes, server)?;
        let state = hand(to, alloc, &[0, 0, 0, 1, 7], 1400)?;
        assert!(rt;
            matches!(
                &state,
                Some(Frame::State {
                    term: 1,
                    role: _,
                    commit: 2,
                    last: 2
                })
            )
        );
    }
    Ok(())
}

#[test]
fn a_frame_that_fails_is_lost_alone(rt: HostRuntime) -> Result<(), Fail> {
    let alloc = rt.alloc();
    let mut processes = cluster(alloc)?;
    process(&mut processes, 1)?.tick(alloc, 1300, 7)?;
    let mut failing = List::new(alloc);
    failing.push(1u64)?;
    assert_eq!(rt; carry_from(alloc, &mut processes, 1, failing, 1300)?, 1);
    assert!(rt; status(&mut processes, 2)?.term == 0 && status(&mut processes, 3)?.term == 1);
    settle(alloc, &mut processes, 1300)?;
    assert!(rt; status(&mut processes, 1)?.role == Role::Leader);
    assert!(rt; status(&mut processes, 2)?.leader == Some(1));
    Ok(())
}

#[test]
fn a_vote_puts_the_election_off(rt: HostRuntime) -> Result<(), Fail> {
    let alloc = rt.alloc();
    let mut processes = cluster(alloc)?;
    process(&mut processes, 1)?.tick(alloc, 1300, 7)?;
    carry_from(alloc, &mut processes, 1, List::new(alloc), 1310)?;
    for (now_ms, role) in [
        (1310, Role::Follower),
        (1616, Role::Follower),
        (1617, Role::Candidate),
    ] {
        process(&mut processes, 2)?.tick(alloc, now_ms, 7)?;
        assert!(rt; status(&mut processes, 2)?.role == role);
    }
    Ok(())
}
