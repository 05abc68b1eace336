//! What the answers to reads show.

ghost use Rattle.std.specs.Prelude.{◌≡◌, IfOk, option_map};
ghost use Rattle.std.specs.Option.{option_copied};
ghost use Rattle.filter_expr.specs.Expressions.{expression_of};
ghost use Rattle.reply_body.specs.Filtered.{kept, kept_answer, kept_instances, kept_other};
ghost use Rattle.reply_body.specs.Bodies as spec;
ghost use Rattle.row_objects.specs.Objects.{node_data, check_data, instance_data, health_data};
ghost use Rattle.reply_body.specs.Rows.{session_data, query_data, services_data, node_view_data};
ghost use Rattle.reply_body.specs.Reads.{listed, shown_key, shown_tree, shown_listing, shown_instances, shown_other, shown_read};

use crate::catalog::{checks_json, healths_json, instances_json, nodes_json};
use crate::json::{plain, written};
use crate::named::{node_view_json, services_json};
use crate::rows::{names_shown, rows_shown, value_shown};
use crate::sessions::{queries_json, sessions_json};
use crate::shown::Shown;
use cat_model::{
    Answer, CheckView, Memory, NameTags, NodeRow, Query, QueryRow, ServiceRow, SessionRow, Text,
};
use filter_expr::Filter;
use std::alloc::Global;

fn key_shown(alloc: Global, raw: bool, answer: &Answer) -> Result<Shown, Memory>
    ensures { IfOk result (λ shown. shown ≡ shown_key raw answer.now) }
{
    match answer {
        Answer::Rows(rows) => {
            if raw {
                value_shown(alloc, rows.as_slice())
            } else {
                rows_shown(alloc, rows.as_slice())
            }
        }
        _ => plain(alloc, 404, ""),
    }
}

fn tree_shown(alloc: Global, answer: &Answer) -> Result<Shown, Memory>
    ensures { IfOk result (λ shown. shown ≡ shown_tree answer.now) }
{
    match answer {
        Answer::Rows(rows) => rows_shown(alloc, rows.as_slice()),
        _ => plain(alloc, 404, ""),
    }
}

fn listing_shown(alloc: Global, prefix: &Text, answer: &Answer) -> Result<Shown, Memory>
    ensures { IfOk result (λ shown. shown ≡ shown_listing prefix.now answer.now) }
{
    match answer {
        Answer::Names(names) => names_shown(alloc, prefix, names.as_slice()),
        _ => plain(alloc, 404, ""),
    }
}

#[tactic(auto, using(crate::proofs::Plain::nodes_plain))]
fn nodes_shown(alloc: Global, rows: &[NodeRow], filter: Option<&Filter>) -> Result<Shown, Memory>
    ensures { IfOk result (λ shown. shown ≡ listed node_data (kept node_data (option_map expression_of (option_copied filter.entry)) rows.now)) }
{
    let json = nodes_json(alloc, rows, filter)?;
    written(alloc, 200, &json)
}

#[tactic(auto, using(crate::proofs::Plain::checks_plain))]
fn checks_shown(alloc: Global, rows: &[CheckView], filter: Option<&Filter>) -> Result<Shown, Memory>
    ensures { IfOk result (λ shown. shown ≡ listed check_data (kept check_data (option_map expression_of (option_copied filter.entry)) rows.now)) }
{
    let json = checks_json(alloc, rows, filter)?;
    written(alloc, 200, &json)
}

#[tactic(auto, using(crate::proofs::Plain::sessions_plain))]
fn sessions_shown(alloc: Global, rows: &[SessionRow]) -> Result<Shown, Memory>
    ensures { IfOk result (λ shown. shown ≡ listed session_data rows.now) }
{
    let json = sessions_json(alloc, rows)?;
    written(alloc, 200, &json)
}

#[tactic(auto, using(crate::proofs::Plain::queries_plain))]
fn queries_shown(alloc: Global, rows: &[QueryRow]) -> Result<Shown, Memory>
    ensures { IfOk result (λ shown. shown ≡ listed query_data rows.now) }
{
    let json = queries_json(alloc, rows)?;
    written(alloc, 200, &json)
}

#[tactic(auto, using(crate::proofs::Plain::instances_plain))]
fn instances_shown(alloc: Global, answer: &Answer, filter: Option<&Filter>) -> Result<Shown, Memory>
    ensures { IfOk result (λ shown. shown ≡ shown_instances instance_data (kept_instances instance_data (option_map expression_of (option_copied filter.entry)) answer.now)) }
{
    match answer {
        Answer::Instances(rows) => {
            let json = instances_json(alloc, rows.as_slice(), filter)?;
            written(alloc, 200, &json)
        }
        _ => plain(alloc, 404, ""),
    }
}

#[tactic(auto, using(crate::proofs::Plain::healths_plain))]
fn health_shown(alloc: Global, answer: &Answer, filter: Option<&Filter>) -> Result<Shown, Memory>
    ensures { IfOk result (λ shown. shown ≡ shown_instances health_data (kept_instances health_data (option_map expression_of (option_copied filter.entry)) answer.now)) }
{
    match answer {
        Answer::Instances(rows) => {
            let json = healths_json(alloc, rows.as_slice(), filter)?;
            written(alloc, 200, &json)
        }
        _ => plain(alloc, 404, ""),
    }
}

#[tactic(auto, using(crate::proofs::Plain::services_plain))]
fn services_shown(alloc: Global, rows: &[NameTags]) -> Result<Shown, Memory>
    ensures { IfOk result (λ shown. shown ≡ spec.json 200 (services_data rows.now)) }
{
    let json = services_json(alloc, rows)?;
    written(alloc, 200, &json)
}

#[tactic(auto, using(crate::proofs::Plain::node_view_plain))]
fn node_view_shown(
    alloc: Global,
    row: &Option<NodeRow>,
    services: &[ServiceRow],
) -> Result<Shown, Memory>
    ensures { IfOk result (λ shown. shown ≡ spec.json 200 (node_view_data row.now services.now)) }
{
    let json = node_view_json(alloc, row, services)?;
    written(alloc, 200, &json)
}

fn other_shown(alloc: Global, answer: &Answer, filter: Option<&Filter>) -> Result<Shown, Memory>
    ensures { IfOk result (λ shown. shown ≡ shown_other (kept_other (option_map expression_of (option_copied filter.entry)) answer.now)) }
{
    match answer {
        Answer::Nodes(rows) => nodes_shown(alloc, rows.as_slice(), filter),
        Answer::Services(rows) => services_shown(alloc, rows.as_slice()),
        Answer::NodeView(row, services) => node_view_shown(alloc, row, services.as_slice()),
        Answer::Checks(rows) => checks_shown(alloc, rows.as_slice(), filter),
        Answer::Sessions(rows) => sessions_shown(alloc, rows.as_slice()),
        Answer::Queries(rows) => queries_shown(alloc, rows.as_slice()),
        Answer::Absent => plain(alloc, 404, "Query not found"),
        Answer::Instances(_) | Answer::Rows(_) | Answer::Names(_) => plain(alloc, 404, ""),
    }
}

/// What the answer to a read shows through a filter. `raw` asks for the bytes of a key's value in place of its row.
pub(crate) fn read_body(
    alloc: Global,
    query: &Query,
    raw: bool,
    answer: &Answer,
    filter: Option<&Filter>,
) -> Result<Shown, Memory>
    ensures { IfOk result (λ shown. shown ≡ shown_read query.now raw (kept_answer (option_map expression_of (option_copied filter.entry)) query.now answer.now)) }
{
    match query {
        Query::Key { .. } => key_shown(alloc, raw, answer),
        Query::Prefix { .. } => tree_shown(alloc, answer),
        Query::Keys { prefix, .. } => listing_shown(alloc, prefix, answer),
        Query::Service { .. } => instances_shown(alloc, answer, filter),
        Query::HealthService { .. } => health_shown(alloc, answer, filter),
        _ => other_shown(alloc, answer, filter),
    }
}
