//! The queries of a case:
//!
//! `nodes`, `services`, `sessions`, `queries`; `service NAME TAGS`, `node NODE`, `health NAME TAGS passing|any`,
//! `health-checks NAME`, `health-node NODE`, `health-state STATUS|any`; `key KEY`, `prefix PREFIX`,
//! `keys PREFIX SEPARATOR`; `session ID`, `sessions-of NODE`, `query ID`.

use crate::words::Words;
use cat_model::{Query, Status, Text};

/// The query that the words say. Where they say none, that is noted with them.
pub fn read(words: &mut Words) -> Query {
    match words.word() {
        "nodes" => Query::Nodes,
        "services" => Query::Services,
        "sessions" => Query::Sessions,
        "queries" => Query::Queries,
        name => of_one_row(words, name),
    }
}

fn of_one_row(words: &mut Words, kind: &str) -> Query {
    match kind {
        "session" => Query::SessionInfo { id: words.id() },
        "query" => Query::QueryInfo { id: words.id() },
        "health-state" => Query::HealthState {
            state: state(words),
        },
        kind => of_name(words, kind),
    }
}

// A status, or `any`.
fn state(words: &mut Words) -> Option<Status> {
    let word = words.word();
    if word == "any" {
        None
    } else {
        Some(words.status_of(word))
    }
}

// A query of one name.
fn of_name(words: &mut Words, kind: &str) -> Query {
    let name = words.text();
    match kind {
        "key" => Query::Key { key: name },
        "prefix" => Query::Prefix { prefix: name },
        "node" => Query::NodeServices { node: name },
        "sessions-of" => Query::SessionsOf { node: name },
        kind => of_health(words, kind, name),
    }
}

fn of_health(words: &mut Words, kind: &str, name: Text) -> Query {
    match kind {
        "health-checks" => Query::HealthChecks { name },
        "health-node" => Query::HealthNode { node: name },
        kind => of_name_and_more(words, kind, name),
    }
}

fn of_name_and_more(words: &mut Words, kind: &str, name: Text) -> Query {
    match kind {
        "keys" => Query::Keys {
            prefix: name,
            separator: words.text(),
        },
        "service" => Query::Service {
            name,
            tags: words.texts(),
        },
        "health" => Query::HealthService {
            name,
            tags: words.texts(),
            passing: words.is_next("passing"),
        },
        _ => {
            words.refuse();
            Query::Key { key: name }
        }
    }
}
