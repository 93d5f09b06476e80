//! The form of an input line: a digest type, a space, and the bytes of keys in hexadecimal digits.
ghost use Rattle.std.specs.Prelude.{◌≡◌, ℕ, ◌+◌, ◌*◌, ◌<◌, List, length, MatchOption, MatchResult, slice_index};
ghost use Rattle.keydump.specs.declared.line.LineError.TheVariants.{NotHexadecimal, NoMemory};
ghost use Rattle.keydump.specs.Hexadecimal.{HexDigit, Spells, NotSpelled};
ghost use Rattle.keydump.specs.Lines.{name_of, HasDigits, IsLine, NotLine};

use std::alloc::{AllocFailed, Global};
use std::fmt;

#[derive(Clone, Copy, Debug, PartialEq, Eq)]
pub enum DigestType {
    Bytes32,
    U64,
}

impl DigestType {
    const ALL: [DigestType; 2] = [DigestType::Bytes32, DigestType::U64];

    /// What a line of keys of this type begins with.
    pub fn name(self) -> &'static str
        ensures { result.now ≡ name_of self }
    {
        match self {
            DigestType::Bytes32 => "bytes32",
            DigestType::U64 => "u64",
        }
    }
}

/// What a line of keys holds: the bytes of keys one after another, with digests of one type.
#[derive(Drop)]
pub struct EncodedKeys {
    pub digest: DigestType,
    pub bytes: Vec<u8>,
}

/// Why a line is not of the form. A column counts from 1.
#[derive(Clone, Copy, Debug, PartialEq, Eq)]
pub enum LineError {
    UnknownType,
    NotHexadecimal { column: usize },
    HalfByte,
    NoMemory,
}

impl<T: Drop> From<AllocFailed<T>> for LineError {
    ghost from_gives = { λ _ r. r ≡ NoMemory };

    fn from(_refused: AllocFailed<T>) -> LineError {
        LineError::NoMemory
    }
}

impl fmt::Display for LineError {
    fn fmt<W: fmt::Write>(&self, f: &mut fmt::Formatter<W>) -> fmt::Result {
        match *self {
            LineError::UnknownType => write!(f, "it begins neither with bytes32 nor with u64"),
            LineError::NotHexadecimal { column } => {
                write!(f, "no hexadecimal digit in column {column}")
            }
            LineError::HalfByte => write!(f, "an odd number of hexadecimal digits"),
            LineError::NoMemory => write!(f, "no memory for its bytes"),
        }
    }
}

/// The value of the hexadecimal digit `c`, of either case, which stands in `column`.
fn digit(c: u8, column: usize) -> Result<u8, LineError>
    ensures { MatchResult result (λ d. HexDigit c d) (λ e. (e ≡ NotHexadecimal column) × ((d : ℕ) → HexDigit c d → ⊥)) }
{
    let digit = char::from(c).to_digit(16);
    digit
        .map(|digit| digit as u8)
        .ok_or(LineError::NotHexadecimal { column })
}

// The allocator stands beside the text, here and in `parse`, as in every call that allocates.
/// The bytes that `text` spells, two digits for each, the high one first. The first column of `text` is `column`.
fn decode(heap: Global, text: &[u8], column: usize) -> Result<Vec<u8>, LineError>
    requires { column < 16 }
    ensures { MatchResult result (λ v. Spells text.now v.items) (λ e. NotSpelled text.now column e) }
{
    let (pairs, half) = text.as_chunks::<2>();
    let mut bytes = Vec::new(heap);
    for (i, &[high, low]) in pairs.iter().enumerate() {
        let high = digit(high, column + 2 * i)?;
        let low = digit(low, column + 2 * i + 1)?;
        bytes.push(16 * high + low)?;
    }
    if let &[c] = half {
        digit(c, column + 2 * pairs.len())?;
        return Err(LineError::HalfByte);
    }
    Ok(bytes)
}

/// What stands behind the name of a digest type: nothing, or a space and the digits.
fn behind<'a>(text: &'a [u8], name: &[u8]) -> Option<&'a [u8]>
    ensures { MatchOption result ((digits : List ℕ) → HasDigits name.now text.now digits → ⊥) (λ digits. HasDigits name.now text.now digits.now) }
{
    let rest = text.strip_prefix(name)?;
    if rest.is_empty() {
        Some(rest)
    } else {
        rest.strip_prefix(b" ")
    }
}

/// A line without its ending: none where it is empty or begins with '#'.
pub fn parse(heap: Global, text: &[u8]) -> Result<Option<EncodedKeys>, LineError>
    ensures { MatchResult result (λ line. IsLine text.now line) (λ e. NotLine text.now e) }
{
    if let [] | [b'#', ..] = text {
        return Ok(None);
    }
    for digest in DigestType::ALL {
        let name = digest.name();
        if let Some(digits) = behind(text, name.as_bytes()) {
            let bytes = decode(heap, digits, name.len() + 2)?;
            return Ok(Some(EncodedKeys { digest, bytes }));
        }
    }
    Err(LineError::UnknownType)
}
