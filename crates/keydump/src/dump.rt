//! The keys of a line.
ghost use Rattle.std.specs.Prelude.{◌≡◌, None};

use crate::totals::{Event, Totals};
use digests::Digest;
use keys::{Key, Reader};
use order::TotalOrder;
use refusals::Refusal;
use std::cmp::Ordering;
use std::{fmt, io};
use types::Height;

/// The longest key: a tag and a digest of 255 bytes.
const LONGEST: usize = 256;

/// Bytes as hexadecimal digits.
#[derive(Clone, Copy)]
struct Hex<'a>(&'a [u8]);

impl fmt::Display for Hex<'_> {
    fn fmt<W: fmt::Write>(&self, f: &mut fmt::Formatter<W>) -> fmt::Result {
        for b in self.0 {
            write!(f, "{b:02X}")?;
        }
        Ok(())
    }
}

/// Counts and prints the refusal of the key at `start`.
fn refused<V: fmt::Display + Drop>(
    rt: &impl Print,
    start: usize,
    refusal: Refusal<V>,
    totals: &mut Totals,
) -> io::Result<()> {
    totals.count(Event::Refusal);
    println!(rt; "  at {start}: {refusal}")
}

/// Keys of one digest type, and the last of them that was read.
#[derive(Drop)]
pub struct Dump<D> {
    last: Option<Key<D>>,
}

impl<D: Digest> Dump<D> {
    pub fn new() -> Dump<D>
        ensures { result.last ≡ None }
    {
        Dump { last: None }
    }

    // `totals` is passed and not held, since it counts for the keys of both digest types.
    /// Reads the keys in `bytes` one after another, to the end or to the first refusal, and prints each.
    pub fn keys(&mut self, rt: &impl Print, bytes: &[u8], totals: &mut Totals) -> io::Result<()> {
        let mut reader = Reader::new(bytes);
        let mut key = Key::Finalized {
            height: Height::new(0),
        };
        loop {
            let start = reader.place();
            if let Err(e) = reader.next(&mut key) {
                return refused(rt, start, Refusal::from(e), totals);
            }
            let read = &bytes[start..reader.place()];
            self.key(rt, start, key, read, totals)?;
            if reader.is_empty() {
                return Ok(());
            }
        }
    }

    /// Writes a key that was read from the bytes `read`, compares it with the last one, and prints all that.
    fn key(
        &mut self,
        rt: &impl Print,
        start: usize,
        key: Key<D>,
        read: &[u8],
        totals: &mut Totals,
    ) -> io::Result<()> {
        let mut out = [0u8; LONGEST];
        let size = match key.write(&mut out) {
            Ok(size) => size,
            Err(e) => return refused(rt, start, Refusal::from(e), totals),
        };
        let written = &out[0..size];
        totals.count(Event::Key);
        if written == read {
            totals.count(Event::WrittenAsRead);
        }
        let bytes = Hex(written);
        let digest = Hex(&written[1..]);
        let relation = self.relation(key, totals);
        match key {
            Key::Block(_) => println!(rt; "  at {start}: {bytes} Block({digest}), {relation}"),
            Key::Finalized { height } => {
                println!(rt; "  at {start}: {bytes} Finalized({height}), {relation}")
            }
            Key::Notarized { round } => {
                println!(rt; "  at {start}: {bytes} Notarized{round}, {relation}")
            }
        }
    }

    /// How a key compares with the last one, whose place it takes.
    fn relation(&mut self, key: Key<D>, totals: &mut Totals) -> &'static str {
        let Some(last) = self.last.replace(key) else {
            return "the first";
        };
        let (event, relation) = match key.compare(&last) {
            Ordering::Less => (Event::Less, "less than the one before"),
            Ordering::Equal => (Event::Equal, "equal to the one before"),
            Ordering::Greater => (Event::Greater, "greater than the one before"),
        };
        totals.count(event);
        relation
    }
}
