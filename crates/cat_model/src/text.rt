ghost use Rattle.std.specs.Prelude.{◌≡◌, IfOk, length, string_bytes};

use crate::Memory;
use std::alloc::Global;
use std::marker::Model;

/// A text in UTF-8, which contracts see as the list of its bytes.
#[derive(Clone, Debug, Drop)]
pub struct Text {
    string: String,
}

impl Model for Text {
    ghost use Rattle.std.specs.Prelude.{ℕ, List, string_bytes};

    ghost Value = { List ℕ };

    ghost view = { λ t. string_bytes t.string };
}

impl Text {
    /// A copy of this text.
    pub fn new(alloc: Global, text: &str) -> Result<Text, Memory>
        ensures { IfOk result (λ t. t ≡ text.now) }
    {
        let string = String::from_str(alloc, text)?;
        Ok(Text { string })
    }

    /// The length in bytes.
    pub fn len(&self) -> usize
        ensures { result ≡ length self.now }
    {
        self.string.len()
    }

    pub fn as_str(&self) -> &str
        ensures { result.now ≡ self.now }
    {
        self.string.as_str()
    }
}

impl From<String> for Text {
    ghost from_gives = { λ s t. t ≡ string_bytes s };

    fn from(string: String) -> Text {
        Text { string }
    }
}
