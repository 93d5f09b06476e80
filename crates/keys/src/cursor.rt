//! The reader's place in its bytes, and the walk over the fields of one key.
ghost use Rattle.std.specs.Prelude.{◌≡◌, ℕ, ◌+◌, ◌-◌, ◌^◌, ◌<◌, ◌≤◌, List, ◌++◌, length, take, drop, if◌then◌else◌, MatchResult, slice_index};
ghost use Rattle.refusals.specs.Refusals.{refusal};
ghost use Rattle.leb128.specs.Unsigned.{encode};
ghost use Rattle.leb128.specs.Refusals.{Refuses as NumberRefuses};
ghost use Rattle.keys.specs.declared.error.Layer.TheVariants as layer;
ghost use Rattle.keys.specs.declared.error.Field.TheVariants as field;
ghost use Rattle.keys.specs.declared.error.Location.TheVariants.{InField};
ghost use Rattle.keys.specs.Reading.{Walks, Reads, Moves, Accepts, ViewsOnly, RefusesOnly};
ghost use Rattle.keys.specs.Refusals.{refusal_of};

use crate::error::{Field, Layer, ReadError};
use crate::key::{BLOCK_REQUEST, FINALIZED_REQUEST, Key, NOTARIZED_REQUEST};
use crate::key_ref::KeyRef;
use digests::Digest;
use types::{Epoch, Height, Round, View};

/// Bytes, and how many of them have been read.
#[derive(Clone, Copy)]
pub struct Cursor<'b> {
    bytes: &'b [u8],
    pub(crate) place: usize,
    ghost within: { place ≤ length bytes.now },
}

/// Puts the cursor back to the key's first byte when it goes, unless the key is complete.
struct Rewind<'a, 'b> {
    cursor: &'a mut Cursor<'b>,
    start: Cursor<'b>,
    complete: bool,
}

impl Drop for Rewind<'_, '_> {
    fn drop(self)
        ensures { self.exit.0.now ≡ (if self.entry.complete then self.entry.cursor.now else self.entry.start) }
    {
        if !self.complete {
            *self.cursor = self.start;
        }
        let Rewind {
            cursor: _,
            start: _,
            complete: _,
        } = self;
    }
}

// That the bytes stay stands in the contract of each call that moves the place: what a call leaves is no fact about a cursor.
impl<'b> Cursor<'b> {
    /// Before the first of `bytes`.
    pub(crate) fn new(bytes: &'b [u8]) -> Cursor<'b>
        ensures { (result.bytes.now ≡ bytes.now) × (result.place ≡ 0) }
    {
        Cursor { bytes, place: 0 }
    }

    /// How many bytes have been read.
    pub(crate) fn place(&self) -> usize
        ensures { result ≡ self.now.place }
    {
        self.place
    }

    /// What is left of the bytes.
    pub(crate) fn rest(&self) -> &'b [u8]
        ensures { result.now ≡ drop self.now.place self.now.bytes.now }
    {
        &self.bytes[self.place..]
    }

    /// The byte at the cursor.
    fn take_tag(&mut self) -> Result<u8, ReadError>
        ensures bytes { self.new.bytes ≡ self.old.bytes }
        ensures tag { MatchResult result (λ tag. (self.new.place ≡ self.old.place + 1) × (self.old.place < length self.old.bytes.now) × (tag ≡ slice_index self.old.bytes.now self.old.place)) (λ e. (refusal_of e ≡ refusal 1 (InField layer.Key field.Tag 0)) × (length self.old.bytes.now ≤ self.old.place)) }
    {
        let tag = self.bytes.get(self.place).copied();
        let tag = tag.ok_or(ReadError::Truncated {
            layer: Layer::Key,
            field: Field::Tag,
            place: 0,
        })?;
        self.place += 1;
        Ok(tag)
    }

    /// The `size` bytes at the cursor, as a part of the bytes; the key began at `start`.
    fn take_digest(&mut self, size: usize, start: usize) -> Result<&'b [u8], ReadError>
        requires { start ≤ self.old.place }
        ensures bytes { self.new.bytes ≡ self.old.bytes }
        ensures digest { MatchResult result (λ part. (part.now ≡ take size (drop self.old.place self.old.bytes.now)) × (self.new.place ≡ self.old.place + size)) (λ e. (refusal_of e ≡ refusal 1 (InField layer.Key field.Digest (length self.old.bytes.now - start))) × (length self.old.bytes.now < self.old.place + size)) }
    {
        let part = self.rest().get(..size).ok_or(ReadError::Truncated {
            layer: Layer::Key,
            field: Field::Digest,
            place: self.bytes.len() - start,
        })?;
        self.place += size;
        Ok(part)
    }

    /// The number at the cursor, of the field `field`; the key began at `start`.
    fn take_number(&mut self, field: Field, start: usize) -> Result<u64, ReadError>
        requires { start ≤ self.old.place }
        ensures bytes { self.new.bytes ≡ self.old.bytes }
        ensures number { MatchResult result (λ n. (n < 2 ^ 64) × (drop self.old.place self.old.bytes.now ≡ encode n ++ drop self.new.place self.old.bytes.now) × (self.new.place ≡ self.old.place + length (encode n))) (λ e. ((m q : ℕ) × (refusal_of e ≡ refusal m (InField layer.Number field (self.old.place - start + q))) × NumberRefuses (drop self.old.place self.old.bytes.now) (refusal m q))) }
    {
        let begin = self.place - start;
        let (n, rest) = leb128::read(self.rest()).map_err(|fault| ReadError::in_number(
            field, begin, fault,
        ))?;
        self.place = self.bytes.len() - rest.len();
        Ok(n)
    }

    /// The key at the cursor, whose digest is `size` bytes. A refusal leaves the cursor where it was.
    #[tactic(auto, using(crate::proofs::Shown::refuses_end, crate::proofs::Shown::refuses_tag, crate::proofs::Shown::refuses_digest, crate::proofs::Shown::refuses_height, crate::proofs::Shown::refuses_epoch, crate::proofs::Shown::refuses_view))]
    pub(crate) fn next(&mut self, size: usize) -> Result<KeyRef<'b>, ReadError>
        ensures bytes { self.new.bytes ≡ self.old.bytes }
        ensures walks { Walks size self.old.bytes.now self.old.place self.new.place result }
    {
        let start = self.place;
        let mut guard = Rewind {
            start: *self,
            cursor: self,
            complete: false,
        };
        match guard.cursor.take_tag()? {
            BLOCK_REQUEST => {
                let part = guard.cursor.take_digest(size, start)?;
                guard.complete = true;
                Ok(KeyRef::Block(part))
            }
            FINALIZED_REQUEST => {
                let height = guard.cursor.take_number(Field::Height, start)?;
                guard.complete = true;
                let height = Height::new(height);
                Ok(KeyRef::Finalized { height })
            }
            NOTARIZED_REQUEST => {
                let epoch = guard.cursor.take_number(Field::Epoch, start)?;
                let view = guard.cursor.take_number(Field::View, start)?;
                guard.complete = true;
                let round = Round::new(Epoch::new(epoch), View::new(view));
                Ok(KeyRef::Notarized { round })
            }
            tag => Err(ReadError::UnknownTag {
                layer: Layer::Key,
                tag,
                place: 0,
            }),
        }
    }

    /// As `next`, with a digest of the type `D`; also says that no other answer would do.
    pub(crate) fn read<D: Digest>(&mut self) -> Result<KeyRef<'b>, ReadError>
        ensures bytes { self.new.bytes ≡ self.old.bytes }
        ensures reads { Walks D.Digest.SIZE self.old.bytes.now self.old.place self.new.place result }
        ensures accepts { ViewsOnly D.Digest.image D.Digest.valid (drop self.old.place self.old.bytes.now) (λ b. b) (λ _. drop self.new.place self.old.bytes.now) result }
        ensures refuses { RefusesOnly D.Digest.SIZE (drop self.old.place self.old.bytes.now) result }
    {
        self.next(D::SIZE)
    }

    /// Reads the key at the cursor into `key`. A refusal leaves `key` and the cursor as they were.
    pub(crate) fn read_key<D: Digest>(&mut self, key: &mut Key<D>) -> Result<(), ReadError>
        ensures bytes { self.new.bytes ≡ self.old.bytes }
        ensures reads { Reads D.Digest.image D.Digest.SIZE D.Digest.valid (drop self.old.place self.old.bytes.now) key.old key.new (λ _. drop self.new.place self.old.bytes.now) result }
        ensures place { Moves D.Digest.image key.new (length self.old.bytes.now) self.old.place self.new.place result }
        ensures accepts { Accepts D.Digest.image D.Digest.valid (drop self.old.place self.old.bytes.now) key.new (λ _. drop self.new.place self.old.bytes.now) result }
        ensures refuses { RefusesOnly D.Digest.SIZE (drop self.old.place self.old.bytes.now) result }
    {
        let borrowed = self.read::<D>()?;
        *key = Key::try_from(borrowed)?;
        Ok(())
    }
}
