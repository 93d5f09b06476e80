//! A reader over many keys in one buffer.
ghost use Rattle.std.specs.Prelude.{◌≡◌, ◌<◌, ◌≤◌, length, MatchBool};
ghost use Rattle.keys.specs.Readers.{remaining};
ghost use Rattle.keys.specs.Reading.{Reads, Moves, Accepts, RefusesOnly};

use crate::cursor::Cursor;
use crate::error::ReadError;
use crate::key::Key;
use digests::Digest;

/// Keys one after another in bytes, and how far they have been read.
#[derive(Clone, Copy)]
pub struct Reader<'a> {
    cursor: Cursor<'a>,
}

impl<'a> Reader<'a> {
    /// A reader that has all of `bytes` before it.
    pub fn new(bytes: &'a [u8]) -> Reader<'a>
        ensures { (result.cursor.bytes.now ≡ bytes.now) × (result.cursor.place ≡ 0) }
    {
        let cursor = Cursor::new(bytes);
        Reader { cursor }
    }

    /// How many bytes have been read.
    pub fn place(&self) -> usize
        ensures { result ≡ self.now.cursor.place }
    {
        self.cursor.place()
    }

    /// Whether nothing is left to read.
    pub fn is_empty(&self) -> bool
        ensures { MatchBool result (length self.now.cursor.bytes.now ≤ self.now.cursor.place) (self.now.cursor.place < length self.now.cursor.bytes.now) }
    {
        self.cursor.rest().is_empty()
    }

    /// Reads the next key into `key`. A refusal leaves `key` and the reader as they were.
    pub fn next<D: Digest>(&mut self, key: &mut Key<D>) -> Result<(), ReadError>
        ensures reads { Reads D.Digest.image D.Digest.SIZE D.Digest.valid (remaining self.old) key.old key.new (λ _. remaining self.new) result }
        ensures place { Moves D.Digest.image key.new (length self.old.cursor.bytes.now) self.old.cursor.place self.new.cursor.place result }
        ensures bytes { self.new.cursor.bytes.now ≡ self.old.cursor.bytes.now }
        ensures accepts { Accepts D.Digest.image D.Digest.valid (remaining self.old) key.new (λ _. remaining self.new) result }
        ensures refuses { RefusesOnly D.Digest.SIZE (remaining self.old) result }
    {
        self.cursor.read_key(key)
    }
}
