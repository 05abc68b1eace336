ghost use Rattle.std.specs.Prelude.{◌≡◌, ◌∷◌, [], IfOk, IfErr, ℕ, List};
ghost use Rattle.std.specs.Option.{option_copied};
ghost use Rattle.script_lang.specs.Words as spec;
ghost use Rattle.script_lang.specs.declared.bad_line.BadLine.TheVariants.{UnknownLine};

use crate::bad_line::BadLine;
use memchr::memchr;

/// Whether the line says nothing: it is empty, or begins with `;`.
pub fn is_nothing(line: &[u8]) -> bool
    ensures { result ≡ spec.is_nothing line.now }
{
    match line {
        [] => true,
        [first, ..] => *first == b';',
    }
}

/// The first word, and what follows it, where there is a space.
pub fn cut(bytes: &[u8]) -> (&[u8], Option<&[u8]>)
    ensures { spec.words_of bytes.now ≡ result.0.now ∷ spec.words_in (option_copied result.1) }
{
    match memchr(b' ', bytes) {
        Some(end) => (&bytes[..end], Some(&bytes[end + 1..])),
        None => (bytes, None),
    }
}

/// The next word, and what follows it.
pub fn next_word(words: Option<&[u8]>) -> Result<(&[u8], Option<&[u8]>), BadLine>
    ensures found { IfOk result (λ r. spec.words_in (option_copied words.entry) ≡ r.0.now ∷ spec.words_in (option_copied r.1)) }
    ensures none { IfErr result (λ why. (why ≡ UnknownLine) × (spec.words_in (option_copied words.entry) ≡ [])) }
{
    match words {
        Some(bytes) => Ok(cut(bytes)),
        None => Err(BadLine::UnknownLine),
    }
}

/// The word that is the last.
pub fn last_word(words: Option<&[u8]>) -> Result<&[u8], BadLine>
    ensures found { IfOk result (λ word. spec.words_in (option_copied words.entry) ≡ word.now ∷ []) }
    ensures none { IfErr result (λ why. (why ≡ UnknownLine) × ((word : List ℕ) → spec.words_in (option_copied words.entry) ≡ word ∷ [] → ⊥)) }
{
    match next_word(words)? {
        (word, None) => Ok(word),
        (_, Some(_)) => Err(BadLine::UnknownLine),
    }
}
