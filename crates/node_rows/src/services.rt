//! Services by their keys.

ghost use Rattle.std.specs.Prelude.{◌≡◌};
ghost use Rattle.std.specs.Option.{option_copied};
ghost use Rattle.cat_model.specs.Catalog.{service_at};

use crate::keys::compare_pairs;
use cat_model::{ServiceRow, Text};

/// The service of this node and ID.
pub fn find_service<'a>(node: &Text, id: &Text, rows: &'a [ServiceRow]) -> Option<&'a ServiceRow>
    ensures { option_copied result ≡ service_at (node.now, id.now) rows.now }
{
    rows.iter()
        .find(|r| compare_pairs(node, id, &r.node, &r.id).is_eq())
}
