//! Unsigned LEB128 in shortest form, for numbers of 64 bits.
#![tactic(auto)]

ghost use Rattle.std.specs.Prelude.{◌≡◌, ℕ, ◌^◌, ◌<◌, ◌≤◌, List, ◌++◌, length, drop, MatchResult};
ghost use Rattle.refusals.specs.Refusals.{refusal, Writes};
ghost use Rattle.leb128.specs.Unsigned.{encode, Accepted, OneEncoding};
ghost use Rattle.leb128.specs.Refusals.{refusal_of, Refuses};

use refusals::{Refusal, WriteError};

/// The bit of a byte that says that another byte follows; below it stand seven bits of the number.
const CONTINUATION: u8 = 0x80;

/// The place of the tenth byte, the last that a number of 64 bits can have: it holds the highest bit alone.
const TENTH: usize = 9;

/// The highest tenth byte.
const TENTH_MAX: u8 = 1;

/// The last byte of an encoding that could be shorter.
const PADDING: u8 = 0;

/// Why no number was read. A place counts from 0 at the number's first byte.
#[derive(Clone, Copy, Debug, PartialEq, Eq)]
pub enum NumberError {
    /// The bytes end inside the number.
    Truncated { place: usize },
    /// The tenth byte is above 1: the number has more than 64 bits.
    TooLarge { place: usize },
    /// The last of two or more bytes is 00: the encoding is not the shortest.
    Padded { place: usize },
}

/// The refusal's number, and the place of the offending or missing byte.
impl From<NumberError> for Refusal<usize> {
    ghost from_gives = { λ e r. r ≡ refusal_of e };

    fn from(e: NumberError) -> Refusal<usize> {
        let (number, values) = match e {
            NumberError::Truncated { place } => (1, place),
            NumberError::TooLarge { place } => (2, place),
            NumberError::Padded { place } => (3, place),
        };
        Refusal { number, values }
    }
}

/// The number at the front of `bytes`, and the rest of them.
pub fn read(bytes: &[u8]) -> Result<(u64, &[u8]), NumberError>
    ensures reads { MatchResult result (λ p. (p.0 < 2 ^ 64) × (bytes.now ≡ encode p.0 ++ p.1.now) × (p.1.now ≡ drop (length (encode p.0)) bytes.now)) (λ e. Refuses bytes.now (refusal_of e)) }
    ensures accepts { (n : ℕ) (code rest : List ℕ) → n < 2 ^ 64 → Accepted code n → bytes.now ≡ code ++ rest → MatchResult result (λ p. (p.0 ≡ n) × (p.1.now ≡ rest)) (λ _. ⊥) }
    ensures refuses { (m p : ℕ) → Refuses bytes.now (refusal m p) → MatchResult result (λ _. ⊥) (λ e. refusal_of e ≡ refusal m p) }
{
    let mut n = 0u64;
    for (i, &b) in bytes.iter().enumerate() {
        if i == TENTH && b > TENTH_MAX {
            return Err(NumberError::TooLarge { place: i });
        }
        if i > 0 && b == PADDING {
            return Err(NumberError::Padded { place: i });
        }
        n += u64::from(b % CONTINUATION) << (7 * i);
        if b < CONTINUATION {
            return Ok((n, &bytes[i + 1..]));
        }
    }
    let place = bytes.len();
    Err(NumberError::Truncated { place })
}

/// How many bytes `n` is written in: one for each seven bits up to its highest.
#[tactic(auto, using(crate::proofs::Numbers::size_at, crate::proofs::Numbers::one_byte, crate::proofs::Numbers::two_bytes))]
pub fn encode_size(n: u64) -> usize
    ensures value { result ≡ length (encode n) }
    ensures bound { result ≤ 10 }
{
    // Most numbers are short, and told by two comparisons.
    if n < 128 {
        1
    } else if n < 16384 {
        2
    } else {
        (n.ilog2() / 7 + 1) as usize
    }
}

/// Writes `n` into `out`, which has as many bytes as that takes.
#[tactic(auto, using(crate::proofs::Numbers::encode_single))]
fn put(n: u64, out: &mut [u8])
    requires { length out.old ≡ length (encode n) }
    ensures { out.new ≡ encode n }
{
    let mut rest = n;
    if let Some((last, front)) = out.split_last_mut() {
        for slot in front.iter_mut() {
            *slot = (rest % 128) as u8 + CONTINUATION;
            rest /= 128;
        }
        *last = rest as u8;
    }
}

/// Writes `n` at the front of `out`, and answers how many bytes that took.
#[tactic(auto, using(crate::proofs::Encodings::one_encoding))]
pub fn write(n: u64, out: &mut [u8]) -> Result<usize, WriteError>
    ensures writes { Writes (encode n) out.old out.new result }
    ensures one { OneEncoding n (encode n) }
{
    let needed = encode_size(n);
    if out.len() < needed {
        return Err(WriteError::OutputTooShort { needed });
    }
    put(n, &mut out[..needed]);
    Ok(needed)
}
