//! How runs end, and what they write.

use crate::plays::{Failing, NONE_FAILS, Played, play, play_with};
use cat_model::{Bytes, List, Memory};
use catalog_top::status_of;
use serve_outside::{MadeStore, Script};
use std::alloc::Global;
use std::process::Abort;
use std::sync::Wait;
use std::test::Fail;
use std::thread::Threads;
use std::time;

/// The words of a run, the calls that fail, and the status and the text that are wanted.
#[derive(Clone, Copy)]
struct Ending {
    words: &'static str,
    failing: Failing,
    status: u8,
    text: &'static str,
}

const PUT_AND_GET: &str =
    "cluster 1 1 7\ntimeout 1\nhttp 1 PUT /v1/kv/a =hello\nhttp 1 GET /v1/kv/a\n";

const USAGE: &str =
    "usage: catalogd script / load SEED SIZE / serve --servers S --agents A --port P --connections N [--keep DIR] [--dns Q --packets M]\n";

const SERVE: &str = "serve --servers 1 --agents 1 --port 8500 --connections 1";

// Words that are no form, loads, a source and a sink that fail at a call, and servers to which no connection comes, so that
// the listener fails. The numbers of a load were worked out from the generator's definition.
static ENDINGS: [Ending; 15] = [
    Ending {
        words: "script now",
        failing: NONE_FAILS,
        status: 2,
        text: USAGE,
    },
    Ending {
        words: "load 7 0",
        failing: NONE_FAILS,
        status: 2,
        text: USAGE,
    },
    Ending {
        words: "load 7 100001",
        failing: NONE_FAILS,
        status: 2,
        text: USAGE,
    },
    Ending {
        words: "load 7",
        failing: NONE_FAILS,
        status: 2,
        text: USAGE,
    },
    Ending {
        words: "load x 5",
        failing: NONE_FAILS,
        status: 2,
        text: USAGE,
    },
    Ending {
        words: "load 7 1",
        failing: NONE_FAILS,
        status: 0,
        text: "requests 1 puts 0 gets 0 found 0 deletes 1 log 2\n",
    },
    Ending {
        words: "load 7 1000",
        failing: NONE_FAILS,
        status: 0,
        text: "requests 1000 puts 491 gets 262 found 51 deletes 247 log 739\n",
    },
    Ending {
        words: "load 7 1000",
        failing: NONE_FAILS,
        status: 0,
        text: "requests 1000 puts 491 gets 262 found 51 deletes 247 log 739\n",
    },
    Ending {
        words: "load 7 1",
        failing: Failing {
            read: None,
            write: Some(1),
            make: None,
        },
        status: 5,
        text: "",
    },
    Ending {
        words: "script",
        failing: Failing {
            read: Some(1),
            write: None,
            make: None,
        },
        status: 4,
        text: "",
    },
    Ending {
        words: "script",
        failing: Failing {
            read: None,
            write: Some(1),
            make: None,
        },
        status: 5,
        text: "",
    },
    Ending {
        words: "script",
        failing: Failing {
            read: None,
            write: Some(2),
            make: None,
        },
        status: 5,
        text: "#1 200 - true\n",
    },
    Ending {
        words: SERVE,
        failing: NONE_FAILS,
        status: 6,
        text: "listening 8500\nend log 1 open 0\n",
    },
    Ending {
        words: SERVE,
        failing: Failing {
            read: None,
            write: Some(1),
            make: None,
        },
        status: 5,
        text: "",
    },
    Ending {
        words: SERVE,
        failing: Failing {
            read: None,
            write: Some(2),
            make: None,
        },
        status: 5,
        text: "listening 8500\n",
    },
];

/// The stores of three servers: the call that fails, the status and the text that are wanted, the servers whose stores
/// are to be made, and the port that is to be listened on.
#[derive(Clone, Copy)]
struct Stores {
    make: Option<u64>,
    status: u8,
    text: &'static str,
    made: &'static [u32],
    port: Option<u16>,
}

const THREE: &str = "serve --servers 3 --agents 1 --port 8500 --connections 1";

// A connection comes that sends nothing.
static STORES: [Stores; 3] = [
    Stores {
        make: None,
        status: 0,
        text: "listening 8500\nend log 1 open 0\n",
        made: &[1, 2, 3],
        port: Some(8500),
    },
    Stores {
        make: Some(2),
        status: 9,
        text: "",
        made: &[1],
        port: None,
    },
    Stores {
        make: Some(4),
        status: 0,
        text: "listening 8500\nend log 1 open 0\n",
        made: &[1, 2, 3],
        port: Some(8500),
    },
];

static PAST_A_LIMIT: Ending = Ending {
    words: "script",
    failing: NONE_FAILS,
    status: 7,
    text: "limit: script\n",
};

// Runs over this script, and expects this ending, which has a report only at status 0.
fn expect_ending<R: Abort + Threads + Wait + time::Clock + Copy + Send + Sync + Drop + 'static>(
    rt: R,
    alloc: Global,
    script: Bytes,
    ending: &Ending,
) -> Result<(), Fail> {
    let played = play(rt, alloc, ending.words, script, ending.failing)?;
    expect_told(&rt, &played, ending);
    drop(played);
    Ok(())
}

fn expect_told(rt: &impl Abort, played: &Played, ending: &Ending) {
    assert_eq!(rt;
        status_of(&played.ran.outcome),
        ending.status,
        "of {:?}",
        ending.text
    );
    assert_eq!(rt; played.bytes(), ending.text.as_bytes());
}

#[test]
fn wrong_words_and_faults(rt: HostRuntime) -> Result<(), Fail> {
    for ending in &ENDINGS {
        let script = Bytes::new(rt.alloc(), PUT_AND_GET.as_bytes())?;
        expect_ending(rt, rt.alloc(), script, ending)?;
    }
    Ok(())
}

// Runs a server of three for a connection that sends nothing, and expects that its stores are made so.
fn expect_stores<R: Abort + Threads + Wait + time::Clock + Copy + Send + Sync + Drop + 'static>(
    rt: R,
    alloc: Global,
    wanted: &Stores,
) -> Result<(), Fail> {
    let failing = Failing {
        make: wanted.make,
        ..NONE_FAILS
    };
    let connections = vec![in alloc; silent(alloc)?]?;
    let played = play_with(rt, alloc, THREE, connections, failing)?;
    expect_made(&rt, &played, wanted);
    drop(played);
    Ok(())
}

// A connection that sends nothing.
fn silent(alloc: Global) -> Result<Script, Memory> {
    Ok(Script {
        bytes: Bytes::new(alloc, b"")?,
        most: 1,
        failing: List::new(alloc),
    })
}

// Whether the stores of these servers were made, in no folder.
fn are_made(made: &[MadeStore], wanted: &[u32]) -> bool {
    if made.len() != wanted.len() {
        return false;
    }
    for (store, server) in made.iter().zip(wanted) {
        if store.server != *server || store.folder.is_some() {
            return false;
        }
    }
    true
}

fn expect_made(rt: &impl Abort, played: &Played, wanted: &Stores) {
    assert_eq!(rt;
        status_of(&played.ran.outcome),
        wanted.status,
        "of {:?}",
        wanted.make
    );
    assert_eq!(rt; played.bytes(), wanted.text.as_bytes());
    assert!(rt; are_made(played.outside.keepers.made(), wanted.made));
    assert_eq!(rt; played.ran.listener.port(), wanted.port);
}

#[test]
fn stores_are_made_first(rt: HostRuntime) -> Result<(), Fail> {
    for wanted in &STORES {
        expect_stores(rt, rt.alloc(), wanted)?;
    }
    Ok(())
}

// A byte and a line more than a script may have.
#[test]
fn scripts_past_a_limit(rt: HostRuntime) -> Result<(), Fail> {
    for (byte, count) in [(b';', 16_777_217), (b'\n', 1_048_577)] {
        let script = Bytes::from(vec![in rt.alloc(); byte; count]?);
        expect_ending(rt, rt.alloc(), script, &PAST_A_LIMIT)?;
    }
    Ok(())
}
