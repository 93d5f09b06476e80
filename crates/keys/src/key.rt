//! Keys that own their content.
ghost use Rattle.std.specs.Prelude.{◌≡◌, ℕ, ◌+◌, ◌^◌, ◌<◌, ◌≤◌, List, ◌++◌, length, drop, MatchResult};
ghost use Rattle.refusals.specs.Refusals.{Writes};
ghost use Rattle.leb128.specs.Unsigned.{encode};
ghost use Rattle.keys.specs.Keys.{tag_of, content_bytes, key_bytes, key_less, ValidKey, Alone};
ghost use Rattle.keys.specs.Reading.{Reads, Accepts, RefusesOnly};
ghost use Rattle.keys.specs.Ordered.{key_total};
ghost use Rattle.std.proofs.Common.{rules};

use crate::cursor::Cursor;
use crate::error::ReadError;
use digests::Digest;
use order::{Equality, LawfulEq, LawfulOrd, TotalOrder};
use refusals::WriteError;
use std::cmp::Ordering;
use types::{Height, Round};

/// The tags.
pub(crate) const BLOCK_REQUEST: u8 = 0;

pub(crate) const FINALIZED_REQUEST: u8 = 1;

pub(crate) const NOTARIZED_REQUEST: u8 = 2;

/// What a resolver is asked for. Keys compare by tag, in the order of the cases, then by content.
#[derive(Clone, Copy, PartialEq, Eq, PartialOrd, Ord)]
pub enum Key<D> {
    /// A block by its digest.
    Block(D),
    /// The finalization of a height.
    Finalized { height: Height },
    /// The notarization of a round.
    Notarized { round: Round },
}

/// How many bytes the two numbers of a round are written in.
fn round_size(round: Round) -> usize
    ensures value { result ≡ length (encode round.epoch.0 ++ encode round.view.0) }
    ensures bound { result ≤ 20 }
    ensures holds { (round.epoch.0 < 2 ^ 64) × (round.view.0 < 2 ^ 64) }
{
    leb128::encode_size(round.epoch().get()) + leb128::encode_size(round.view().get())
}

/// Writes the two numbers of a round at the front of `out`.
fn write_round(round: Round, out: &mut [u8]) -> Result<usize, WriteError>
    ensures { MatchResult result (λ k. (k ≡ length (encode round.epoch.0 ++ encode round.view.0)) × (out.new ≡ (encode round.epoch.0 ++ encode round.view.0) ++ drop k out.old)) (λ _. length out.old < length (encode round.epoch.0 ++ encode round.view.0)) }
{
    let epoch_size = leb128::write(round.epoch().get(), out)?;
    let view_size = leb128::write(round.view().get(), &mut out[epoch_size..])?;
    Ok(epoch_size + view_size)
}

impl<D: Digest> Key<D> {
    /// Reads the key at the front of `bytes` into `key`, and answers the rest of `bytes`. A refusal leaves `key` as it was.
    pub fn read<'a>(bytes: &'a [u8], key: &mut Key<D>) -> Result<&'a [u8], ReadError>
        ensures reads { Reads D.Digest.image D.Digest.SIZE D.Digest.valid bytes.now key.old key.new (λ rest. rest.now) result }
        ensures accepts { Accepts D.Digest.image D.Digest.valid bytes.now key.new (λ rest. rest.now) result }
        ensures refuses { RefusesOnly D.Digest.SIZE bytes.now result }
    {
        let mut cursor = Cursor::new(bytes);
        cursor.read_key(key)?;
        Ok(cursor.rest())
    }

    /// The tag.
    // A byte and no enum, since it is what stands in the format; the cases are the key's own.
    fn subject(&self) -> u8
        ensures { result ≡ tag_of self.now }
    {
        match self {
            Key::Block(_) => BLOCK_REQUEST,
            Key::Finalized { height: _ } => FINALIZED_REQUEST,
            Key::Notarized { round: _ } => NOTARIZED_REQUEST,
        }
    }

    /// How many bytes the key is written in.
    pub fn encode_size(&self) -> usize
        ensures value { result ≡ length (key_bytes D.Digest.image self.now) }
        ensures holds { ValidKey D.Digest.valid self.now }
    {
        match self {
            Key::Block(digest) => 1 + digest.encode_size(),
            Key::Finalized { height } => 1 + leb128::encode_size(height.get()),
            Key::Notarized { round } => 1 + round_size(*round),
        }
    }

    /// Writes what stands behind the tag at the front of `out`.
    fn write_content(&self, out: &mut [u8]) -> Result<usize, WriteError>
        ensures { MatchResult result (λ k. (k ≡ length (content_bytes D.Digest.image self.now)) × (out.new ≡ content_bytes D.Digest.image self.now ++ drop k out.old)) (λ _. length out.old < length (content_bytes D.Digest.image self.now)) }
    {
        match self {
            Key::Block(digest) => digest.write(out),
            Key::Finalized { height } => leb128::write(height.get(), out),
            Key::Notarized { round } => write_round(*round, out),
        }
    }

    /// Writes the key at the front of `out`, and answers how many bytes that took. Where `out` is too short for the
    /// whole key, nothing is written.
    pub fn write(&self, out: &mut [u8]) -> Result<usize, WriteError>
        ensures writes { Writes (key_bytes D.Digest.image self.now) out.old out.new result }
        ensures one { Alone D.Digest.image D.Digest.valid self.now }
    {
        let needed = self.encode_size();
        if out.len() < needed {
            return Err(WriteError::OutputTooShort { needed });
        }
        out[0] = self.subject();
        self.write_content(&mut out[1..])?;
        Ok(needed)
    }
}

// Case by case and not by `==` and `cmp`, which a digest type need not have.

impl<D: Equality> Equality for Key<D> {
    fn equals(&self, other: &Key<D>) -> bool {
        match (self, other) {
            (Key::Block(a), Key::Block(b)) => a.equals(b),
            (Key::Finalized { height: a }, Key::Finalized { height: b }) => a.equals(b),
            (Key::Notarized { round: a }, Key::Notarized { round: b }) => a.equals(b),
            _ => false,
        }
    }
}

impl<D: LawfulEq> LawfulEq for Key<D> {
    ghost identity = { Prim.search rules };
}

/// By tag, then by content.
impl<D: TotalOrder> TotalOrder for Key<D> {
    ghost less = { key_less D.TotalOrder.less };

    ghost total = { key_total D.TotalOrder.total };

    fn compare(&self, other: &Key<D>) -> Ordering {
        match (self, other) {
            (Key::Block(a), Key::Block(b)) => a.compare(b),
            (Key::Finalized { height: a }, Key::Finalized { height: b }) => a.compare(b),
            (Key::Notarized { round: a }, Key::Notarized { round: b }) => a.compare(b),
            (Key::Block(_), _) => Ordering::Less,
            (_, Key::Block(_)) => Ordering::Greater,
            (Key::Finalized { height: _ }, _) => Ordering::Less,
            (_, _) => Ordering::Greater,
        }
    }
}

impl<D: LawfulOrd> LawfulOrd for Key<D> {
    ghost agrees = { Prim.search rules };
}
