//! Identifiers in texts.

ghost use Rattle.std.specs.Prelude.{◌≡◌};
ghost use Rattle.cluster_rules.specs.Replies.{id_in};

use uuid::Uuid;

/// The identifier that a text spells.
pub fn id_in(text: &str) -> Option<u128>
    ensures { result ≡ id_in text.now }
{
    match Uuid::parse_str(text) {
        Ok(uuid) => Some(uuid.as_u128()),
        Err(_) => None,
    }
}
