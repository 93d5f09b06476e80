//! Digests: values of a fixed number of bytes.
#![tactic(auto)]

ghost use Rattle.std.specs.Prelude.{◌≡◌, ℕ, ◌<◌, ◌≤◌, List, length, take, MatchOption};
ghost use Rattle.order.specs.Orders.{lex_less};
ghost use Rattle.refusals.specs.Refusals.{Writes};

mod bytes32;
mod number;

use order::TotalOrder;
use refusals::WriteError;

/// A value of so many bytes, the same number for every value of the type.
pub trait Digest: TotalOrder + Copy {
    // the bytes of a digest
    ghost image: { Self → List ℕ };

    // how many they are, as `SIZE` says
    ghost SIZE: { ℕ };

    // the values that code can hold
    ghost valid: { Self → Type 0 };

    /// How many bytes a digest of this type has.
    const SIZE: usize;

    /// The digest at the front of `bytes`, or none where they are too few.
    fn read(bytes: &[u8]) -> Option<Self>
        ensures { MatchOption result (length bytes.now < SIZE) (λ d. (SIZE ≤ length bytes.now) × (image d ≡ take SIZE bytes.now) × valid d) };

    /// How many bytes this digest has. Digests compare as their bytes do, from the first.
    fn encode_size(&self) -> usize
        ensures value { result ≡ SIZE }
        ensures holds { valid self.now }
        ensures order { (a b : Self) → valid a → valid b → Self.TotalOrder.less a b ≡ lex_less (image a) (image b) };

    /// Writes the digest at the front of `out`, and answers how many bytes that took.
    fn write(&self, out: &mut [u8]) -> Result<usize, WriteError>
        ensures { Writes (image self.now) out.old out.new result };

    ghost long: { (a : Self) → valid a → length (image a) ≡ SIZE };

    ghost one: { (a b : Self) → valid a → valid b → image a ≡ image b → a ≡ b };

    ghost small: { SIZE ≤ 255 };
}

/// Writes `bytes` at the front of `out`, and answers how many they are.
fn write_all(bytes: &[u8], out: &mut [u8]) -> Result<usize, WriteError>
    ensures { Writes bytes.now out.old out.new result }
{
    let needed = bytes.len();
    if out.len() < needed {
        return Err(WriteError::OutputTooShort { needed });
    }
    out[..needed].copy_from_slice(bytes);
    Ok(needed)
}
