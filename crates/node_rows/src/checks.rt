//! Checks by their keys.

ghost use Rattle.std.specs.Prelude.{◌≡◌};
ghost use Rattle.std.specs.Option.{option_copied};
ghost use Rattle.cat_model.specs.Catalog.{check_at};

use crate::keys::compare_pairs;
use cat_model::{CheckRow, Text};

/// The check of this node and ID.
pub fn find_check<'a>(node: &Text, id: &Text, rows: &'a [CheckRow]) -> Option<&'a CheckRow>
    ensures { option_copied result ≡ check_at (node.now, id.now) rows.now }
{
    rows.iter()
        .find(|r| compare_pairs(node, id, &r.node, &r.id).is_eq())
}
