//! A registration: `register NODE ADDRESS`, and then any of `service ID NAME TAGS ADDRESS PORT` and
//! `check ID STATUS SERVICE`. An empty text or list is `-`; the items of a list are parted by commas.

use crate::words::Words;
use cat_model::{Command, List, NewCheck, NewService};

/// The registration that the words say. Where they say none, that is noted with them.
pub fn read(words: &mut Words) -> Command {
    let is_register = words.word() == "register";
    words.note(is_register);
    register(words)
}

fn service(words: &mut Words) -> NewService {
    NewService {
        id: words.text(),
        name: words.text(),
        tags: words.texts(),
        address: words.text(),
        port: words.port(),
        tag_override: false,
    }
}

fn check(words: &mut Words) -> NewCheck {
    let id = words.word();
    NewCheck {
        id: words.text_of(id),
        name: words.text_of(id),
        status: words.status(),
        notes: words.empty_text(),
        output: words.empty_text(),
        service: words.text(),
    }
}

fn register(words: &mut Words) -> Command {
    let node = words.text();
    let address = words.text();
    let mut service = None;
    let mut checks = words.empty_list();
    read_parts(words, &mut service, &mut checks);
    Command::Register {
        node,
        address,
        service,
        checks,
    }
}

// The service and the checks of a registration.
fn read_parts(words: &mut Words, service: &mut Option<NewService>, checks: &mut List<NewCheck>) {
    for _ in 0..u64::MAX {
        let Some(kind) = words.next_word() else {
            break;
        };
        read_part(words, kind, service, checks);
    }
}

fn read_part(
    words: &mut Words,
    kind: &str,
    service: &mut Option<NewService>,
    checks: &mut List<NewCheck>,
) {
    match kind {
        "service" => put_service(words, service),
        "check" => put_check(words, checks),
        _ => words.refuse(),
    }
}

fn put_service(words: &mut Words, given: &mut Option<NewService>) {
    let service = service(words);
    let former = given.replace(service);
    drop(former);
}

fn put_check(words: &mut Words, checks: &mut List<NewCheck>) {
    let check = check(words);
    words.put(checks, check);
}
