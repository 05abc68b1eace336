//! What takes the bytes of a spelling, one after another.

ghost use Rattle.std.specs.Prelude.{◌≡◌, ℕ, ◌∷◌, ◌++◌, [], OnOk};
ghost use Rattle.std.specs.List.{fold};

use cat_model::{Bytes, Memory};

/// Takes bytes in their order.
pub trait Out {
    /// Why it may take none.
    type Fault;

    /// What contracts see of it.
    type Seen;

    ghost seen: { Self → Self.Seen };

    /// What is seen after one more byte.
    ghost after: { Self.Seen → ℕ → Self.Seen };

    /// Takes these bytes.
    fn put(&mut self, bytes: &[u8]) -> Result<(), Self::Fault>
        ensures { OnOk result (seen self.new ≡ fold after (seen self.old) bytes.now) };

    /// Takes one byte.
    fn put_byte(&mut self, byte: u8) -> Result<(), Self::Fault>
        ensures { OnOk result (seen self.new ≡ after (seen self.old) byte) };
}

/// A vector keeps the bytes.
impl Out for Vec<u8> {
    type Fault = Memory;

    type Seen = Bytes;

    ghost seen = { λ v. v.items };

    ghost after = { λ bytes byte. bytes ++ byte ∷ [] };

    fn put(&mut self, bytes: &[u8]) -> Result<(), Memory> {
        self.extend_from_slice(bytes)?;
        Ok(())
    }

    fn put_byte(&mut self, byte: u8) -> Result<(), Memory> {
        self.push(byte)?;
        Ok(())
    }
}
