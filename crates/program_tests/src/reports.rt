//! The numbers of reports.

use crate::plays::{NONE_FAILS, Played, play};
use cat_model::Bytes;
use catalog_top::Report;
use std::alloc::Global;
use std::process::Abort;
use std::sync::Wait;
use std::test::Fail;
use std::thread::Threads;
use std::time;

/// A script, and the numbers of its report: of its events, of its requests, of the entries of the agreed log and of
/// those that each server has applied, and the requests without a reply.
#[derive(Clone, Copy)]
struct Reported {
    script: &'static str,
    events: u64,
    requests: u64,
    agreed: u64,
    applied: &'static [u64],
    unanswered: &'static [u64],
}

// A store that fails, a write that is lost, one that is held at the end, and messages that are repeated.
static REPORTED: [Reported; 4] = [
    Reported {
        script: "cluster 1 1 7
timeout 1
failkeep 1 1
http 1 PUT /v1/kv/a =x
http 1 GET /v1/kv/a
restart 1
timeout 1
http 1 GET /v1/kv/a
",
        events: 7,
        requests: 3,
        agreed: 2,
        applied: &[2],
        unanswered: &[],
    },
    Reported {
        script: "cluster 3 1 7
timeout 1
settle 100
http 1 PUT /v1/kv/a =x
drop 13
drop 14
timeout 2
settle 100
http 1 GET /v1/kv/a
",
        events: 54,
        requests: 2,
        agreed: 2,
        applied: &[2, 2, 2],
        unanswered: &[],
    },
    Reported {
        script: "cluster 3 1 7
timeout 1
settle 100
http 1 PUT /v1/kv/a =x
",
        events: 26,
        requests: 1,
        agreed: 1,
        applied: &[1, 1, 1],
        unanswered: &[1],
    },
    Reported {
        script: "cluster 3 1 7
timeout 1
settle 100
http 1 PUT /v1/kv/a =x
deliver 13
deliver 13
deliver 13
deliver 16
deliver 15
deliver 17
",
        events: 32,
        requests: 1,
        agreed: 2,
        applied: &[2, 1, 1],
        unanswered: &[],
    },
];

fn expect_numbers(rt: &impl Abort, report: &Report, wanted: &Reported) {
    assert_eq!(rt; report.events, wanted.events, "of {:?}", wanted.script);
    assert_eq!(rt; report.requests, wanted.requests, "of {:?}", wanted.script);
    assert_eq!(rt; report.agreed.len() as u64, wanted.agreed);
    assert_eq!(rt; report.applied.as_slice(), wanted.applied);
    assert_eq!(rt; report.unanswered.as_slice(), wanted.unanswered);
}

fn expect_report<R: Abort + Threads + Wait + time::Clock + Copy + Send + Sync + Drop + 'static>(
    rt: R,
    alloc: Global,
    wanted: &Reported,
) -> Result<(), Fail> {
    let script = Bytes::new(alloc, wanted.script.as_bytes())?;
    let played = play(rt, alloc, "script", script, NONE_FAILS)?;
    expect_done(&rt, &played, wanted);
    drop(played);
    Ok(())
}

fn expect_done(rt: &impl Abort, played: &Played, wanted: &Reported) {
    match &played.ran.outcome {
        Ok(report) => expect_numbers(rt, report, wanted),
        Err(_) => assert!(rt; false, "of {:?}", wanted.script),
    }
}

#[test]
fn reports_have_their_numbers(rt: HostRuntime) -> Result<(), Fail> {
    for wanted in &REPORTED {
        expect_report(rt, rt.alloc(), wanted)?;
    }
    Ok(())
}
