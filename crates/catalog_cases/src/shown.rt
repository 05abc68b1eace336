//! What commands and queries give, in the words of a case.
//!
//! A command gives its answer (`done`, `yes`, `no`, `refused WHY`, `rolled back N`, `results` and rows), then `fires` and the
//! channels in the order of their texts, then `frees` and each freed key as `KEY:DELAY`. A query gives its index and its
//! answer. The row of a key is `KEY=VALUE@CREATE-MODIFY`, then `/LOCK` where its lock index is not 0, and `!SESSION` where
//! it is held; other rows are alike.

use crate::line::Line;
use cat_model::{
    Answer, Applied, Chan, CheckView, Fired, Freed, Instance, KvRow, Memory, NameTags, NodeRow,
    QueryRow, Refuse, ServiceRow, SessionRow, Status, Text, TxnResult,
};
use std::alloc::{AllocError, Global};
use std::collections::BTreeSet;

// What stands in a list of its kind, with a space before it.
trait Item {
    fn put(&self, line: &mut Line);
}

fn put_all<T: Item>(line: &mut Line, items: &[T]) {
    for item in items {
        item.put(line);
    }
}

/// What a command gives.
pub fn applied(alloc: Global, answer: &Applied, fired: &Fired) -> Result<String, Memory> {
    let mut line = Line::new(alloc);
    put_applied(&mut line, answer);
    put_fired(alloc, &mut line, fired);
    line.written()
}

fn put_fired(alloc: Global, line: &mut Line, fired: &Fired) {
    if !fired.chans.as_slice().is_empty() {
        line.put(" fires");
    }
    put_channels(alloc, line, fired.chans.as_slice());
    put_freed(line, fired.freed.as_slice());
}

fn put_applied(line: &mut Line, answer: &Applied) {
    match answer {
        Applied::Done => line.put("done"),
        Applied::Yes => line.put("yes"),
        Applied::No => line.put("no"),
        Applied::RolledBack { op, .. } => line.put_number("rolled back ", *op as u64),
        Applied::Refused(why) => line.put(refusal(*why)),
        Applied::Results(results) => {
            line.put("results");
            put_all(line, results.as_slice());
        }
    }
}

fn refusal(why: Refuse) -> &'static str {
    match why {
        Refuse::MissingNode => "refused missing-node",
        Refuse::MissingService => "refused missing-service",
        Refuse::MissingCheck => "refused missing-check",
        Refuse::CriticalCheck => "refused critical-check",
        Refuse::UnknownSession => "refused unknown-session",
        Refuse::NameTaken => "refused name-taken",
        Refuse::IdTaken => "refused id-taken",
        Refuse::UnknownQuery => "refused unknown-query",
    }
}

impl Item for TxnResult {
    fn put(&self, line: &mut Line) {
        put_kv(line, &self.row, self.with_value)
    }
}

/// The channels on which a query hangs, in the order of their texts.
pub fn hangs(alloc: Global, chans: &[Chan]) -> Result<String, Memory> {
    let mut line = Line::new(alloc);
    line.put("on");
    put_channels(alloc, &mut line, chans);
    line.written()
}

// The channels in the order of their texts.
fn put_channels(alloc: Global, line: &mut Line, chans: &[Chan]) {
    let mut texts = BTreeSet::new(alloc);
    let collected = collect_texts(alloc, &mut texts, chans);
    line.note(collected.is_ok());
    put_in_order(line, &texts);
}

fn put_in_order(line: &mut Line, texts: &BTreeSet<String>) {
    for text in texts {
        line.put(text.as_str());
    }
}

fn collect_texts(
    alloc: Global,
    texts: &mut BTreeSet<String>,
    chans: &[Chan],
) -> Result<(), AllocError> {
    for chan in chans {
        texts.insert(text_of(alloc, chan)?)?;
    }
    Ok(())
}

fn text_of(alloc: Global, chan: &Chan) -> Result<String, AllocError> {
    let kind = kind_of(chan);
    let name = name_of(chan);
    format!(in alloc; " {kind}{name}")
}

fn kind_of(chan: &Chan) -> &'static str {
    match chan {
        Chan::Nodes => "nodes",
        Chan::Services => "services",
        Chan::Checks => "checks",
        Chan::Sessions => "sessions",
        Chan::Queries => "queries",
        Chan::Vanished => "vanished",
        Chan::NodeGone => "node-gone",
        Chan::Reaped => "reaped",
        Chan::Service(_) => "service:",
        Chan::Node(_) => "node:",
        Chan::NodeChecks(_) => "node-checks:",
        Chan::Key(_) => "key:",
        Chan::Prefix(_) => "prefix:",
    }
}

// The name that the channel is of, which is empty where it is of none.
fn name_of(chan: &Chan) -> &str {
    match chan {
        Chan::Service(name)
        | Chan::Node(name)
        | Chan::NodeChecks(name)
        | Chan::Key(name)
        | Chan::Prefix(name) => name.as_str(),
        _ => "",
    }
}

fn put_freed(line: &mut Line, freed: &[Freed]) {
    if !freed.is_empty() {
        line.put(" frees");
    }
    put_all(line, freed)
}

impl Item for Freed {
    fn put(&self, line: &mut Line) {
        line.put_name(&self.key);
        line.put_number(":", self.delay_ms);
    }
}

// A row of a key, which a transaction may show without its value.
fn put_kv(line: &mut Line, row: &KvRow, with_value: bool) {
    line.put_name(&row.key);
    line.put("=");
    if with_value {
        line.put(value_of(row));
    }
    put_span(line, row.create, row.modify);
    put_hold(line, row);
}

// How often the key was locked, and which session holds it.
fn put_hold(line: &mut Line, row: &KvRow) {
    if row.lock_index > 0 {
        line.put_number("/", row.lock_index);
    }
    if let Some(session) = row.session {
        line.put_id("!", session);
    }
}

// At which positions a row was made and last written.
fn put_span(line: &mut Line, create: u64, modify: u64) {
    line.put_number("@", create);
    line.put_number("-", modify);
}

fn value_of(row: &KvRow) -> &str {
    str::from_utf8(row.value.as_slice()).unwrap_or("?")
}

/// What a query gives.
pub fn found(alloc: Global, index: u64, answer: &Answer) -> Result<String, Memory> {
    let mut line = Line::new(alloc);
    line.put_number("", index);
    put_found(&mut line, answer);
    line.written()
}

fn put_found(line: &mut Line, answer: &Answer) {
    match answer {
        Answer::Absent => line.put(" absent"),
        Answer::Rows(rows) => put_all(line, rows.as_slice()),
        Answer::Names(names) => put_all(line, names.as_slice()),
        Answer::Sessions(rows) => put_all(line, rows.as_slice()),
        Answer::Queries(rows) => put_all(line, rows.as_slice()),
        Answer::Nodes(rows) => put_all(line, rows.as_slice()),
        Answer::NodeView(node, services) => put_view(line, node, services.as_slice()),
        Answer::Services(names) => put_all(line, names.as_slice()),
        Answer::Instances(instances) => put_all(line, instances.as_slice()),
        Answer::Checks(checks) => put_all(line, checks.as_slice()),
    }
}

impl Item for KvRow {
    fn put(&self, line: &mut Line) {
        put_kv(line, self, true)
    }
}

impl Item for Text {
    fn put(&self, line: &mut Line) {
        line.put_name(self);
    }
}

impl Item for SessionRow {
    fn put(&self, line: &mut Line) {
        put_by_id(line, self.id, &self.node);
        put_span(line, self.create, self.modify);
    }
}

impl Item for QueryRow {
    fn put(&self, line: &mut Line) {
        put_by_id(line, self.id, &self.name);
        put_span(line, self.create, self.modify);
    }
}

impl Item for NodeRow {
    fn put(&self, line: &mut Line) {
        line.put_name(&self.node);
        line.put("(");
        line.put(self.address.as_str());
        line.put(")");
        put_span(line, self.create, self.modify);
    }
}

impl Item for ServiceRow {
    fn put(&self, line: &mut Line) {
        line.put_name(&self.id);
        put_span(line, self.create, self.modify);
    }
}

impl Item for NameTags {
    fn put(&self, line: &mut Line) {
        line.put_name(&self.name);
        put_all(line, self.tags.as_slice());
        line.put(";");
    }
}

impl Item for CheckView {
    fn put(&self, line: &mut Line) {
        put_on_node(line, &self.row.node, &self.row.id);
        line.put(":");
        line.put(status(self.row.status));
        line.put(":");
        line.put(self.service_name.as_str());
    }
}

// An instance with its checks.
impl Item for Instance {
    fn put(&self, line: &mut Line) {
        put_on_node(line, &self.node.node, &self.service.id);
        line.put("[");
        put_all(line, self.checks.as_slice());
        line.put("]");
    }
}

fn put_by_id(line: &mut Line, id: u128, name: &Text) {
    line.put_id(" ", id);
    line.put(":");
    line.put(name.as_str());
}

fn put_on_node(line: &mut Line, node: &Text, id: &Text) {
    line.put_name(node);
    line.put("/");
    line.put(id.as_str());
}

fn put_view(line: &mut Line, node: &Option<NodeRow>, services: &[ServiceRow]) {
    match node {
        None => line.put(" no-node"),
        Some(node) => put_present(line, node, services),
    }
}

fn put_present(line: &mut Line, node: &NodeRow, services: &[ServiceRow]) {
    node.put(line);
    put_all(line, services);
}

fn status(status: Status) -> &'static str {
    match status {
        Status::Passing => "passing",
        Status::Warning => "warning",
        Status::Critical => "critical",
    }
}
