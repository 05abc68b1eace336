//! Names, and how keys are ordered.

ghost use Rattle.std.specs.Prelude.{◌≡◌};
ghost use Rattle.cat_model.specs.Keys.{is_empty, pair_cmp, same_text, text_cmp};

use cat_model::Text;
use std::cmp::Ordering;

/// In byte order.
pub fn compare(a: &Text, b: &Text) -> Ordering
    ensures { result ≡ text_cmp a.now b.now }
{
    a.as_str().cmp(b.as_str())
}

/// By the node and then by the ID.
pub fn compare_pairs(node: &Text, id: &Text, other_node: &Text, other_id: &Text) -> Ordering
    ensures { result ≡ pair_cmp (node.now, id.now) (other_node.now, other_id.now) }
{
    compare(node, other_node).then(compare(id, other_id))
}

/// The texts have the same bytes.
pub fn is_same(a: &Text, b: &Text) -> bool
    ensures { result ≡ same_text a.now b.now }
{
    a.as_str() == b.as_str()
}

/// The text is empty.
pub fn is_blank(text: &Text) -> bool
    ensures { result ≡ is_empty text.now }
{
    text.len() == 0
}
