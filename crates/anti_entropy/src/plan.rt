//! The plan of a sync over rows that are looked at where they stand.

ghost use Rattle.std.specs.Prelude.{◌≡◌, ◌++◌, IfOk};
ghost use Rattle.std.specs.Option.{option_copied};
ghost use Rattle.cat_model.specs.Syncs.{merged, plan};
ghost use Rattle.node_rows.specs.Tags.{all_tagged};
ghost use Rattle.anti_entropy.specs.Ordered.{IsOrdered};
ghost use Rattle.anti_entropy.specs.Parts.{all_plan, row_plan};

use crate::checks::{check_parts, own_plan};
use crate::ordered::{Ordered, ordered_rows};
use crate::services::service_parts;
use crate::tags::retags;
use cat_model::lists::joined;
use cat_model::{Command, List, Memory, NodeRow};
use node_rows::{CatalogRows, OwnRows, Retag};
use std::alloc::Global;

/// What an agent takes over in a sync, and what it proposes.
#[derive(Debug, Drop)]
pub struct RowPlan {
    /// The tags that its services take over.
    pub tags: Vec<Retag>,
    /// The commands that make the catalog's rows of its node equal to its own.
    pub commands: List<Command>,
}

// These lists one behind the other.
fn all_joined(
    first: List<Command>,
    second: List<Command>,
    third: List<Command>,
    fourth: List<Command>,
    fifth: List<Command>,
) -> Result<List<Command>, Memory>
    ensures { IfOk result (λ l. l ≡ first ++ second ++ third ++ fourth ++ fifth) }
{
    let two = joined(first, second)?;
    let three = joined(two, third)?;
    let four = joined(three, fourth)?;
    joined(four, fifth)
}

// The commands of an agent with this node row.
fn commands<'b, 'a>(
    alloc: Global,
    node: &NodeRow,
    node_there: Option<&NodeRow>,
    own: &'b Ordered<'a>,
    there: &'b Ordered<'a>,
) -> Result<List<Command>, Memory>
    requires own { IsOrdered own.now }
    requires there { IsOrdered there.now }
    ensures { IfOk result (λ l. l ≡ row_plan node.now (option_copied node_there.entry) own.now.services.items own.now.checks.items there.now.services.items there.now.checks.items) }
{
    let first = own_plan(alloc, node, node_there, own, there)?;
    let (second, fourth) = service_parts(alloc, node, own, there)?;
    let (third, fifth) = check_parts(alloc, node, own, there)?;
    all_joined(first, second, third, fourth, fifth)
}

// The commands of an agent. One without a node row plans nothing.
fn all_commands<'b, 'a>(
    alloc: Global,
    node: Option<&NodeRow>,
    node_there: Option<&NodeRow>,
    own: &'b Ordered<'a>,
    there: &'b Ordered<'a>,
) -> Result<List<Command>, Memory>
    requires own { IsOrdered own.now }
    requires there { IsOrdered there.now }
    ensures { IfOk result (λ l. l ≡ all_plan (option_copied node.entry) (option_copied node_there.entry) own.now.services.items own.now.checks.items there.now.services.items there.now.checks.items) }
{
    match node {
        None => Ok(List::new(alloc)),
        Some(node) => commands(alloc, node, node_there, own, there),
    }
}

/// The sync of an agent with these rows, where those are the catalog's of its node: it takes the catalog's tags over, and
/// plans over what it has then, by IDs within each part. An agent without a node row plans nothing.
#[tactic(auto, unfolding(cat_model::specs::Syncs::merged))]
pub fn plan_rows<'b, 'a>(
    alloc: Global,
    own: &'b OwnRows<'a>,
    there: &'b CatalogRows<'a>,
) -> Result<RowPlan, Memory>
    ensures tags { IfOk result (λ made. all_tagged made.tags.items own.now.services ≡ (merged own.now there.now).services) }
    ensures commands { IfOk result (λ made. made.commands ≡ plan (merged own.now there.now) there.now) }
{
    let mine = ordered_rows(alloc, own.services.as_slice(), own.checks.as_slice())?;
    let others = ordered_rows(alloc, there.services.as_slice(), there.checks.as_slice())?;
    let tags = retags(alloc, own.services.as_slice(), others.services.as_slice())?;
    let commands = all_commands(alloc, own.node, there.node, &mine, &others)?;
    Ok(RowPlan { tags, commands })
}
