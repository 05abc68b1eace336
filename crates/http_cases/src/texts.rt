//! Texts in the words of a case. An empty text or list is `-`, and a list is its items parted by commas.

use anyhow::Result;
use cat_model::{Status, Text};

/// A text, or `-`.
pub fn shown(text: &Text) -> &str {
    if text.len() == 0 { "-" } else { text.as_str() }
}

/// The texts, parted by commas, or `-`.
pub fn put_texts(out: &mut String, texts: &[Text]) -> Result<()> {
    if texts.is_empty() {
        out.push_str("-")?;
    }
    let mut is_first = true;
    for text in texts {
        if !is_first {
            out.push_str(",")?;
        }
        out.push_str(text.as_str())?;
        is_first = false;
    }
    Ok(())
}

/// The status in lower case.
pub fn status(status: Status) -> &'static str {
    match status {
        Status::Passing => "passing",
        Status::Warning => "warning",
        Status::Critical => "critical",
    }
}
