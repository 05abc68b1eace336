//! The name of an agent's node, and how it is ordered among others.

ghost use Rattle.std.specs.Prelude.{◌≡◌, ◌<◌, IfOk};
ghost use Rattle.cat_model.specs.Keys.{pair_cmp, text_cmp};
ghost use Rattle.cluster_rules.specs.Agents.{agent_node};

use cat_model::{Memory, Text};
use node_rows::compare;
use std::alloc::Global;
use std::cmp::Ordering;

/// The name of an agent's node.
#[tactic(auto, using(crate::proofs::NodeNames::two_digits))]
pub fn agent_node(alloc: Global, number: u32) -> Result<Text, Memory>
    requires { number < 100 }
    ensures { IfOk result (λ name. name ≡ agent_node number) }
{
    Ok(Text::from(format!(in alloc; "agent-{number}")?))
}

// How the name of an agent's node compares to another's.
fn compare_to_node(number: u32, node: &Text) -> Ordering
    requires { number < 100 }
    ensures { result ≡ text_cmp (agent_node number) node.now }
{
    let other = node.as_str().as_bytes();
    if number < 10 {
        let last = 48 + number as u8;
        [b'a', b'g', b'e', b'n', b't', b'-', last]
            .as_slice()
            .cmp(other)
    } else {
        let tens = 48 + (number / 10) as u8;
        let ones = 48 + (number % 10) as u8;
        [b'a', b'g', b'e', b'n', b't', b'-', tens, ones]
            .as_slice()
            .cmp(other)
    }
}

/// How a row of this ID on an agent's node compares to another row.
pub(crate) fn compare_own(number: u32, id: &Text, other_node: &Text, other_id: &Text) -> Ordering
    requires { number < 100 }
    ensures { result ≡ pair_cmp (agent_node number, id.now) (other_node.now, other_id.now) }
{
    compare_to_node(number, other_node).then(compare(id, other_id))
}
