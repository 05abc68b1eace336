ghost use Rattle.std.specs.Prelude.{◌≡◌, ◌≤◌, Ok, IfSome, MatchOption, ℕ, map};
ghost use Rattle.script_lang.specs.Numbers.{number_in as number_in_of};
ghost use Rattle.load_player.specs.declared.load.Load.{Load as SpecLoad};
ghost use Rattle.load_player.specs.Load.{AreWritten, AsksForLoad};

use script_lang::{Bounds, number_in};

/// A load: the seed that it is drawn from, and how many requests it has.
#[derive(Clone, Copy, Debug, PartialEq, Eq)]
pub struct Load {
    pub seed: u64,
    /// 1 to 100,000.
    pub size: u32,
}

// The number that a word writes, of those within the bounds.
fn number_within(bounds: Bounds, word: &str) -> Option<u64>
    ensures written { MatchOption result ((n : ℕ) → number_in_of bounds word.now ≡ Ok n → ⊥) (λ n. number_in_of bounds word.now ≡ Ok n) }
    ensures most { IfSome result (λ n. n ≤ bounds.most) }
{
    number_in(bounds, word.as_bytes()).ok()
}

// The load whose numbers these words write.
fn numbered(seed: &str, size: &str) -> Option<Load>
    ensures written { MatchOption result ((load : SpecLoad) → AreWritten seed.now size.now load → ⊥) (AreWritten seed.now size.now) }
    ensures most { IfSome result (λ load. load.size ≤ 100000) }
{
    let seed = number_within(
        Bounds {
            least: 0,
            most: u64::MAX,
        },
        seed,
    )?;
    let size = number_within(
        Bounds {
            least: 1,
            most: 100_000,
        },
        size,
    )?;
    Some(Load {
        seed,
        size: size as u32,
    })
}

/// The load, if the words of the command line ask for one.
pub fn load_of(words: &[&str]) -> Option<Load>
    ensures asked { MatchOption result ((load : SpecLoad) → AsksForLoad (map (λ w. w.now) words.now) load → ⊥) (AsksForLoad (map (λ w. w.now) words.now)) }
    ensures most { IfSome result (λ load. load.size ≤ 100000) }
{
    match words {
        ["load", seed, size] => numbered(seed, size),
        _ => None,
    }
}
