ghost use Rattle.std.specs.Prelude.{◌≡◌};
ghost use Rattle.cat_model.specs.Keys.{has_prefix};

/// Whether the text begins with the prefix.
pub(crate) fn begins(text: &str, prefix: &str) -> bool
    ensures { result ≡ has_prefix prefix.now text.now }
{
    text.as_bytes().starts_with(prefix.as_bytes())
}
