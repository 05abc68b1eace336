//! A line that is written.

use cat_model::{Memory, Text};
use std::alloc::Global;
use std::fmt::Write;

/// A line that is written. Where memory fails, that is noted, and the line is not given.
#[derive(Drop)]
pub struct Line {
    text: String,
    is_whole: bool,
}

impl Line {
    /// The empty line.
    pub fn new(alloc: Global) -> Line {
        Line {
            text: String::new(alloc),
            is_whole: true,
        }
    }

    /// Notes whether memory sufficed.
    pub fn note(&mut self, is_put: bool) {
        self.is_whole = self.is_whole && is_put;
    }

    /// Puts a text last.
    pub fn put(&mut self, text: &str) {
        let put = self.text.push_str(text);
        self.note(put.is_ok());
    }

    /// Puts a space and a name last.
    pub fn put_name(&mut self, name: &Text) {
        self.put(" ");
        self.put(name.as_str());
    }

    /// Puts a mark and a number last.
    pub fn put_number(&mut self, mark: &str, number: u64) {
        self.put(mark);
        let put = write!(self.text, "{number}");
        self.note(put.is_ok());
    }

    /// Puts a mark and an identifier last.
    pub fn put_id(&mut self, mark: &str, id: u128) {
        self.put(mark);
        let put = write!(self.text, "{id}");
        self.note(put.is_ok());
    }

    /// What was written.
    pub fn written(self) -> Result<String, Memory> {
        let Line { text, is_whole } = self;
        if is_whole { Ok(text) } else { Err(Memory) }
    }
}
