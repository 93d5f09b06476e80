//! Keys that borrow their digest.
ghost use Rattle.std.specs.Result.{MatchResult};
ghost use Rattle.keys.specs.Borrowed.{Borrows, Copies, TooShort};
ghost use Rattle.keys.specs.Reading.{ViewsOnly, RefusesOnly};
ghost use Rattle.keys.specs.Refusals.{refusal_of, Refuses};

use crate::cursor::Cursor;
use crate::error::{Field, Layer, ReadError};
use crate::key::Key;
use digests::Digest;
use types::{Height, Round};

/// A key whose digest is a part of the bytes that it was read from.
#[derive(Clone, Copy)]
pub enum KeyRef<'a> {
    /// The bytes of the digest.
    Block(&'a [u8]),
    Finalized { height: Height },
    Notarized { round: Round },
}

impl<'a> KeyRef<'a> {
    /// The key at the front of `bytes`, whose digest is a `D`, and the rest of `bytes`.
    pub fn read<D: Digest>(bytes: &'a [u8]) -> Result<(KeyRef<'a>, &'a [u8]), ReadError>
        ensures reads { MatchResult result (λ p. Borrows D.Digest.SIZE bytes.now p.0 p.1.now) (λ e. Refuses D.Digest.SIZE bytes.now (refusal_of e)) }
        ensures accepts { ViewsOnly D.Digest.image D.Digest.valid bytes.now (λ p. p.0) (λ p. p.1.now) result }
        ensures refuses { RefusesOnly D.Digest.SIZE bytes.now result }
    {
        let mut cursor = Cursor::new(bytes);
        let key = cursor.read::<D>()?;
        Ok((key, cursor.rest()))
    }
}

/// A copy that owns its digest. The digest is read at the front of the part, which is long enough in a key that was read for a `D`.
impl<D: Digest> TryFrom<KeyRef<'_>> for Key<D> {
    type Error = ReadError;

    ghost try_from_gives = { λ b r. MatchResult r (λ k. Copies D.Digest.SIZE D.Digest.image D.Digest.valid b k) (λ e. TooShort D.Digest.SIZE b (refusal_of e)) };

    fn try_from(borrowed: KeyRef<'_>) -> Result<Key<D>, ReadError> {
        match borrowed {
            KeyRef::Block(part) => D::read(part).map(Key::Block).ok_or(ReadError::Truncated {
                layer: Layer::Key,
                field: Field::Digest,
                place: 1 + part.len(),
            }),
            KeyRef::Finalized { height } => Ok(Key::Finalized { height }),
            KeyRef::Notarized { round } => Ok(Key::Notarized { round }),
        }
    }
}
