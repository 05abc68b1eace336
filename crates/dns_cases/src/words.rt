//! The words of a line, and the small values that they say.

use cat_model::{List, Status, Text, Texts};
use std::alloc::Global;
use std::str::SplitWhitespace;

/// The words of a line that are left. It is noted where a word is missing or says none, and where memory fails, and an
/// empty value then stands for what was to be read.
#[derive(Drop)]
pub struct Words<'a> {
    alloc: Global,
    left: SplitWhitespace<'a>,
    are_read: bool,
}

impl<'a> Words<'a> {
    /// The words of this line.
    pub fn new(alloc: Global, line: &'a str) -> Words<'a> {
        Words {
            alloc,
            left: line.split_whitespace(),
            are_read: true,
        }
    }

    /// Whether all that was to be read so far could be read.
    pub fn are_read(&self) -> bool {
        self.are_read
    }

    /// Notes that a word says none.
    pub fn refuse(&mut self) {
        self.are_read = false;
    }

    /// Notes whether a word says what it has to.
    pub fn note(&mut self, is_read: bool) {
        self.are_read = self.are_read && is_read;
    }

    /// The next word, if one is left.
    pub fn next_word(&mut self) -> Option<&'a str> {
        self.left.next()
    }

    /// The next word, which has to be there.
    pub fn word(&mut self) -> &'a str {
        let word = self.left.next();
        self.note(word.is_some());
        word.unwrap_or("")
    }

    /// The empty text.
    pub fn empty_text(&self) -> Text {
        Text::from(String::new(self.alloc))
    }

    /// This word as a text, of which `-` is the empty one.
    pub fn text_of(&mut self, word: &str) -> Text {
        let mut string = String::new(self.alloc);
        let put = string.push_str(said(word));
        self.note(put.is_ok());
        Text::from(string)
    }

    /// The next word as a text.
    pub fn text(&mut self) -> Text {
        let word = self.word();
        self.text_of(word)
    }

    /// The next word as the number of a port.
    pub fn port(&mut self) -> u16 {
        let number = self.word().parse::<u16>();
        self.note(number.is_ok());
        number.unwrap_or(0)
    }

    /// The next word as the status of a check.
    pub fn status(&mut self) -> Status {
        let word = self.word();
        self.status_of(word)
    }

    /// This word as the status of a check.
    pub fn status_of(&mut self, word: &str) -> Status {
        match word {
            "passing" => Status::Passing,
            "warning" => Status::Warning,
            "critical" => Status::Critical,
            _ => {
                self.refuse();
                Status::Critical
            }
        }
    }

    /// The next word as the texts that commas part, of which `-` is none at all.
    pub fn texts(&mut self) -> Texts {
        let mut texts = List::new(self.alloc);
        let word = self.word();
        if word != "-" {
            self.put_parts(&mut texts, word);
        }
        texts
    }

    fn put_parts(&mut self, texts: &mut Texts, word: &str) {
        for part in word.split(',') {
            let text = self.text_of(part);
            self.put(texts, text);
        }
    }

    /// The list without items.
    pub fn empty_list<T>(&self) -> List<T> {
        List::new(self.alloc)
    }

    /// Puts an item that was read last.
    pub fn put<T: Drop>(&mut self, items: &mut List<T>, item: T) {
        let put = items.push(item);
        self.note(put.is_ok());
    }
}

// What the word says, of which `-` is the empty text.
fn said(word: &str) -> &str {
    if word == "-" { "" } else { word }
}
