ghost use Rattle.std.specs.Prelude.{◌≡◌, ◌+◌, min, length};
ghost use Rattle.script_player.specs.Line.{lines_of};
ghost use Rattle.catalog_top.specs.Limits.{is_too_long as is_too_long_of};

use script_player::split_at_byte;

/// The most bytes of a script.
pub const MAX_BYTES: usize = 16_777_216;

/// The most lines of a script.
pub const MAX_LINES: u64 = 1_048_576;

// How many lines the script has, counted up to one past the most.
fn line_count(script: &[u8]) -> u64
    ensures { result ≡ min (length (lines_of script.now)) (MAX_LINES + 1) }
{
    let mut rest = script;
    let mut count = 0;
    while !rest.is_empty() && count <= MAX_LINES {
        rest = split_at_byte(rest, b'\n').1;
        count += 1;
    }
    count
}

/// Whether the script passes a limit.
#[tactic(auto, using(crate::proofs::Lines::past_most), unfolding(crate::specs::Limits::is_too_long))]
pub fn is_too_long(script: &[u8]) -> bool
    ensures { result ≡ is_too_long_of script.now }
{
    script.len() > MAX_BYTES || line_count(script) > MAX_LINES
}
