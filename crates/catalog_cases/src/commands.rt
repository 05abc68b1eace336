//! The commands of a case:
//!
//! `noop`, `reap`, `upgrade`; `register NODE ADDRESS` and then any of `service ID NAME TAGS ADDRESS` and
//! `check ID STATUS SERVICE`; `deregister NODE SERVICE CHECK`; `set KEY VALUE`, `cas KEY VALUE INDEX`,
//! `lock KEY VALUE SESSION`, `unlock KEY VALUE SESSION`, `delete KEY`, `delete-cas KEY INDEX`, `delete-tree PREFIX`;
//! `txn` and then any of `VERB KEY VALUE INDEX SESSION`; `session ID NODE CHECKS BEHAVIOR DELAY`, `destroy ID`;
//! `query create|update ID NAME SESSION SERVICE passing|any TAGS`, `query-delete ID`.
//!
//! An empty text, list or session is `-`; the items of a list are parted by commas.

use crate::words::Words;
use cat_model::{Behavior, Command, List, NewCheck, NewService, Text, TxnOp, Verb};

/// The command that the words say. Where they say none, that is noted with them.
pub fn read(words: &mut Words) -> Command {
    match words.word() {
        "register" => register(words),
        "deregister" => deregister(words),
        "session" => session(words),
        "query" => query(words),
        "txn" => transaction(words),
        name => of_one_word(words, name),
    }
}

// A command that names no more than an identifier, or one on a key.
fn of_one_word(words: &mut Words, name: &str) -> Command {
    match name {
        "noop" => Command::Noop,
        "reap" => Command::Reap,
        "upgrade" => Command::Upgrade,
        "destroy" => Command::SessionDestroy { id: words.id() },
        "query-delete" => Command::QueryDelete { id: words.id() },
        name => on_key(words, name),
    }
}

static VERBS: [(&str, Verb); 13] = [
    ("set", Verb::Set),
    ("cas", Verb::Cas),
    ("lock", Verb::Lock),
    ("unlock", Verb::Unlock),
    ("get", Verb::Get),
    ("get-or-empty", Verb::GetOrEmpty),
    ("get-tree", Verb::GetTree),
    ("check-index", Verb::CheckIndex),
    ("check-session", Verb::CheckSession),
    ("check-not-exists", Verb::CheckNotExists),
    ("delete", Verb::Delete),
    ("delete-tree", Verb::DeleteTree),
    ("delete-cas", Verb::DeleteCas),
];

fn verb(words: &mut Words, name: &str) -> Verb {
    for (said, verb) in &VERBS {
        if *said == name {
            return *verb;
        }
    }
    words.refuse();
    Verb::Get
}

// A command on a key.
fn on_key(words: &mut Words, name: &str) -> Command {
    let verb = verb(words, name);
    let key = words.text();
    match verb {
        Verb::Delete => Command::KvDelete { key },
        Verb::DeleteTree => Command::KvDeleteTree { prefix: key },
        Verb::DeleteCas => Command::KvDeleteCas {
            key,
            index: words.number(),
        },
        _ => with_value(words, verb, key),
    }
}

// A command on a key that has a value.
fn with_value(words: &mut Words, verb: Verb, key: Text) -> Command {
    let value = words.bytes();
    let flags = 0;
    match verb {
        Verb::Cas => Command::KvCas {
            key,
            value,
            flags,
            index: words.number(),
        },
        Verb::Lock => Command::KvLock {
            key,
            value,
            flags,
            session: words.id(),
        },
        Verb::Unlock => Command::KvUnlock {
            key,
            value,
            flags,
            session: words.id(),
        },
        _ => {
            words.note(verb == Verb::Set);
            Command::KvSet { key, value, flags }
        }
    }
}

fn service(words: &mut Words) -> NewService {
    NewService {
        id: words.text(),
        name: words.text(),
        tags: words.texts(),
        address: words.text(),
        port: 80,
        tag_override: false,
    }
}

fn check(words: &mut Words) -> NewCheck {
    let id = words.word();
    NewCheck {
        id: words.text_of(id),
        name: words.text_of(id),
        status: words.status(),
        notes: words.empty_text(),
        output: words.empty_text(),
        service: words.text(),
    }
}

fn register(words: &mut Words) -> Command {
    let node = words.text();
    let address = words.text();
    let mut service = None;
    let mut checks = words.empty_list();
    read_parts(words, &mut service, &mut checks);
    Command::Register {
        node,
        address,
        service,
        checks,
    }
}

// The service and the checks of a registration.
fn read_parts(words: &mut Words, service: &mut Option<NewService>, checks: &mut List<NewCheck>) {
    for _ in 0..u64::MAX {
        let Some(kind) = words.next_word() else {
            break;
        };
        read_part(words, kind, service, checks);
    }
}

fn read_part(
    words: &mut Words,
    kind: &str,
    service: &mut Option<NewService>,
    checks: &mut List<NewCheck>,
) {
    match kind {
        "service" => put_service(words, service),
        "check" => put_check(words, checks),
        _ => words.refuse(),
    }
}

fn put_service(words: &mut Words, given: &mut Option<NewService>) {
    let service = service(words);
    let former = given.replace(service);
    drop(former);
}

fn put_check(words: &mut Words, checks: &mut List<NewCheck>) {
    let check = check(words);
    words.put(checks, check);
}

fn deregister(words: &mut Words) -> Command {
    Command::Deregister {
        node: words.text(),
        service: words.text(),
        check: words.text(),
    }
}

fn behavior(words: &mut Words) -> Behavior {
    match words.word() {
        "release" => Behavior::Release,
        "delete" => Behavior::Delete,
        _ => {
            words.refuse();
            Behavior::Release
        }
    }
}

fn session(words: &mut Words) -> Command {
    Command::SessionCreate {
        id: words.id(),
        name: words.empty_text(),
        node: words.text(),
        checks: words.texts(),
        behavior: behavior(words),
        delay_ms: words.number(),
        ttl_ms: 0,
    }
}

fn query(words: &mut Words) -> Command {
    Command::QuerySet {
        create: words.is_next("create"),
        id: words.id(),
        name: words.text(),
        session: words.option(),
        service: words.text(),
        only_passing: words.is_next("passing"),
        tags: words.texts(),
        dns_ttl_ms: 0,
    }
}

fn transaction(words: &mut Words) -> Command {
    let mut ops = words.empty_list();
    for _ in 0..u64::MAX {
        let Some(name) = words.next_word() else {
            break;
        };
        put_op(words, name, &mut ops);
    }
    Command::Txn { ops }
}

fn put_op(words: &mut Words, name: &str, ops: &mut List<TxnOp>) {
    let op = op(words, name);
    words.put(ops, op);
}

fn op(words: &mut Words, name: &str) -> TxnOp {
    TxnOp {
        verb: verb(words, name),
        key: words.text(),
        value: words.bytes(),
        flags: 0,
        index: words.number(),
        session: words.option(),
    }
}
