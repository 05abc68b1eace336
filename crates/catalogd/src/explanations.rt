//! Which word of the command line is wrong, for whoever wrote it.

ghost use Rattle.std.specs.Prelude.{◌≡◌, ◌-◌, IfErr, IfSome};
ghost use Rattle.std.specs.List.{slice_get};

use script_lang::{Bounds, number_in};
use std::fmt;

/// What is wanted at a place of the words.
#[derive(Clone, Copy, Debug, PartialEq, Eq)]
pub enum Wanted {
    /// The word that a form begins with.
    Form,
    /// This very word.
    Name(&'static str),
    /// A number within these bounds, both of them counted.
    Number { least: u64, most: u64 },
    /// The name of a folder.
    Folder,
    /// What may follow the numbers of a server.
    Added,
    /// No further word.
    Nothing,
}

impl fmt::Display for Wanted {
    fn fmt<W: fmt::Write>(&self, f: &mut fmt::Formatter<W>) -> fmt::Result {
        match self {
            Wanted::Form => write!(f, "script, load or serve, or --help or --version alone,"),
            Wanted::Name(name) => write!(f, "{name}"),
            Wanted::Number { least, most } => write!(f, "a number from {least} to {most}"),
            Wanted::Folder => write!(f, "the name of a folder"),
            Wanted::Added => write!(
                f,
                "--connections N, --keep DIR, --dns Q or --packets M, in this order and the last only behind --dns Q,"
            ),
            Wanted::Nothing => write!(f, "no further word"),
        }
    }
}

/// The first word that no form takes where it stands, or the place of a word that is lacking.
#[derive(Clone, Copy, Debug)]
pub struct Wrong<'a> {
    /// Counted from 1.
    pub place: usize,
    /// The word at this place, if there is one.
    pub word: Option<&'a str>,
    pub wanted: Wanted,
}

impl<'a> fmt::Display for Wrong<'a> {
    fn fmt<W: fmt::Write>(&self, f: &mut fmt::Formatter<W>) -> fmt::Result {
        let place = self.place;
        let wanted = self.wanted;
        match self.word {
            Some(word) => write!(f, "word {place} is {word:?}, where {wanted} is wanted"),
            // Words that are no text are taken for none.
            None if place == 1 => {
                write!(
                    f,
                    "there is no word, or one that is no text, where {wanted} is wanted"
                )
            }
            None => write!(f, "word {place} is lacking, where {wanted} is wanted"),
        }
    }
}

// Whether this is a word as it is wanted.
fn is_such(word: &str, wanted: Wanted) -> bool {
    match wanted {
        Wanted::Name(name) => word == name,
        Wanted::Number { least, most } => number_in(
            Bounds { least, most },
            word.as_bytes(),
        ).is_ok(),
        Wanted::Folder => !word.is_empty(),
        _ => false,
    }
}

fn up_to(most: u64) -> Wanted {
    Wanted::Number { least: 1, most }
}

// The words of which the first so many are as they are wanted.
#[derive(Drop)]
struct Taken<'b, 'a> {
    words: &'b [&'a str],
    count: usize,
}

impl<'b, 'a> Taken<'b, 'a> {
    // The next word, which is not as it is wanted.
    fn wrong(&self, wanted: Wanted) -> Wrong<'a>
        ensures { result.word ≡ slice_get self.now.words.now (result.place - 1) }
    {
        Wrong {
            place: self.count.saturating_add(1),
            word: self.words.get(self.count).copied(),
            wanted,
        }
    }

    // Whether the next word is as it is wanted.
    fn is_next(&self, wanted: Wanted) -> bool {
        match self.words.get(self.count) {
            Some(word) => is_such(word, wanted),
            None => false,
        }
    }

    // Takes the next word.
    fn take(&mut self, wanted: Wanted) -> Result<(), Wrong<'a>>
        ensures words { self.new.words ≡ self.old.words }
        ensures wrong { IfErr result (λ wrong. wrong.word ≡ slice_get self.old.words.now (wrong.place - 1)) }
    {
        if !self.is_next(wanted) {
            return Err(self.wrong(wanted));
        }
        self.count = self.count.saturating_add(1);
        Ok(())
    }

    // Takes the word that this name tells, if that comes next, and says whether it does.
    fn take_told(&mut self, name: &'static str, wanted: Wanted) -> Result<bool, Wrong<'a>>
        ensures words { self.new.words ≡ self.old.words }
        ensures wrong { IfErr result (λ wrong. wrong.word ≡ slice_get self.old.words.now (wrong.place - 1)) }
    {
        if !self.is_next(Wanted::Name(name)) {
            return Ok(false);
        }
        self.count = self.count.saturating_add(1);
        self.take(wanted)?;
        Ok(true)
    }

    // Takes no further word.
    fn end(&self, wanted: Wanted) -> Result<(), Wrong<'a>>
        ensures wrong { IfErr result (λ wrong. wrong.word ≡ slice_get self.now.words.now (wrong.place - 1)) }
    {
        if self.count < self.words.len() {
            return Err(self.wrong(wanted));
        }
        Ok(())
    }
}

// Takes the seed and the size of a load.
fn take_load<'b, 'a>(words: &mut Taken<'b, 'a>) -> Result<(), Wrong<'a>>
    ensures wrong { IfErr result (λ wrong. wrong.word ≡ slice_get words.old.words.now (wrong.place - 1)) }
{
    words.take(Wanted::Number {
        least: 0,
        most: u64::MAX,
    })?;
    words.take(up_to(100_000))?;
    words.end(Wanted::Nothing)
}

// Takes what may follow the numbers of a server.
fn take_added<'b, 'a>(words: &mut Taken<'b, 'a>) -> Result<(), Wrong<'a>>
    ensures wrong { IfErr result (λ wrong. wrong.word ≡ slice_get words.old.words.now (wrong.place - 1)) }
{
    let ends = words.take_told("--connections", up_to(10_000))?;
    words.take_told("--keep", Wanted::Folder)?;
    if words.take_told("--dns", up_to(65_535))? {
        let told = words.take_told("--packets", up_to(1_000_000))?;
        // A server that ends answers so many packets, and no more.
        if ends && !told {
            return Err(words.wrong(Wanted::Name("--packets")));
        }
    }
    words.end(Wanted::Added)
}

// Takes the numbers of a server, and what follows them.
fn take_server<'b, 'a>(words: &mut Taken<'b, 'a>) -> Result<(), Wrong<'a>>
    ensures wrong { IfErr result (λ wrong. wrong.word ≡ slice_get words.old.words.now (wrong.place - 1)) }
{
    words.take(Wanted::Name("--servers"))?;
    words.take(up_to(7))?;
    words.take(Wanted::Name("--agents"))?;
    words.take(up_to(64))?;
    words.take(Wanted::Name("--port"))?;
    words.take(up_to(65_535))?;
    take_added(words)
}

// Takes all words.
fn take_all<'b, 'a>(words: &mut Taken<'b, 'a>) -> Result<(), Wrong<'a>>
    ensures wrong { IfErr result (λ wrong. wrong.word ≡ slice_get words.old.words.now (wrong.place - 1)) }
{
    if words.take(Wanted::Name("script")).is_ok() {
        return words.end(Wanted::Nothing);
    }
    if words.take(Wanted::Name("load")).is_ok() {
        return take_load(words);
    }
    if words.take(Wanted::Name("serve")).is_ok() {
        return take_server(words);
    }
    Err(words.wrong(Wanted::Form))
}

/// The first word that no form of words takes where it stands, or the first place where a word is lacking. Words that ask
/// for something have none.
pub fn wrong_word<'a>(words: &[&'a str]) -> Option<Wrong<'a>>
    ensures { IfSome result (λ wrong. wrong.word ≡ slice_get words.now (wrong.place - 1)) }
{
    let mut taken = Taken { words, count: 0 };
    take_all(&mut taken).err()
}
