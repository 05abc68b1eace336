ghost use Rattle.std.specs.Prelude.{◌≡◌, ◌≤◌, ◌==◌, length};
ghost use Rattle.std.specs.List.{before_first, after_first, position_or_len};
ghost use Rattle.script_player.specs.Line as spec;

// The index of the first such byte, or the length where there is none.
fn end_of(bytes: &[u8], byte: u8) -> usize
    ensures first { result ≡ position_or_len (λ b. b == byte) bytes.now }
    ensures within { result ≤ length bytes.now }
{
    for (i, b) in bytes.iter().enumerate() {
        if *b == byte {
            return i;
        }
    }
    bytes.len()
}

/// The bytes before the first such byte, and those after it.
pub fn split_at_byte(bytes: &[u8], byte: u8) -> (&[u8], &[u8])
    ensures before { result.0.now ≡ before_first (λ b. b == byte) bytes.now }
    ensures after { result.1.now ≡ after_first (λ b. b == byte) bytes.now }
{
    let end = end_of(bytes, byte);
    if end < bytes.len() {
        (&bytes[..end], &bytes[end + 1..])
    } else {
        (bytes, &bytes[bytes.len()..])
    }
}

/// Whether the line says nothing: it is empty, or begins with `;`.
pub fn is_nothing(line: &[u8]) -> bool
    ensures { result ≡ spec.is_nothing line.now }
{
    match line {
        [] => true,
        [first, ..] => *first == b';',
    }
}
