//! The lines of a case. `server I of N` begins server I of N, and the lines behind it are its own (`servers.rt`);
//! `cluster N` begins a cluster of N servers, 2 or 3 (`worlds.rt`); before these a line asks a function of logs
//! (`functions.rt`).

use crate::shown::unread;
use crate::words::{Words, server};
use crate::{functions, servers, worlds};
use cat_model::Memory;
use outside::SureKeeper;
use raft_world::World;
use std::alloc::Global;

/// Whom the lines of a case are about.
#[derive(Drop)]
pub enum Stage {
    Empty,
    Server(servers::Played),
    Cluster(World<SureKeeper>),
}

/// What a line gives, where that is not what is wanted.
pub fn differing(
    alloc: Global,
    stage: &mut Stage,
    said: &str,
    wanted: &str,
) -> Result<Option<String>, Memory> {
    let is = given(alloc, stage, said)?;
    if is.as_str() == wanted {
        return Ok(None);
    }
    Ok(Some(is))
}

fn given(alloc: Global, stage: &mut Stage, said: &str) -> Result<String, Memory> {
    let mut words = said.split_whitespace();
    match words.next().unwrap_or("") {
        "server" => begin_server(alloc, stage, &mut words),
        "cluster" => begin_cluster(alloc, stage, &mut words),
        what => go_on(alloc, stage, what, &mut words),
    }
}

fn go_on(
    alloc: Global,
    stage: &mut Stage,
    what: &str,
    words: &mut Words,
) -> Result<String, Memory> {
    match stage {
        Stage::Empty => functions::given(alloc, what, words),
        Stage::Server(played) => servers::given(alloc, played, what, words),
        Stage::Cluster(world) => worlds::given(alloc, world, what, words),
    }
}

fn begin_server(alloc: Global, stage: &mut Stage, words: &mut Words) -> Result<String, Memory> {
    match servers::begin(alloc, words) {
        None => unread(alloc),
        Some(played) => {
            let is = servers::state(alloc, &played);
            set(stage, Stage::Server(played));
            is
        }
    }
}

fn begin_cluster(alloc: Global, stage: &mut Stage, words: &mut Words) -> Result<String, Memory> {
    let count = server(words).unwrap_or(0);
    match worlds::begin(alloc, count) {
        None => unread(alloc),
        Some(world) => {
            set(stage, Stage::Cluster(world));
            Ok(format!(in alloc; "{count} servers")?)
        }
    }
}

// The next lines are about these.
fn set(stage: &mut Stage, next: Stage) {
    *stage = next;
}
