//! Memory that a caller lends, checked before anything is made of it.
#![tactic(auto)]

ghost use Rattle.std.specs.Prelude.{◌≡◌, length, Some, codes, MatchResult};
ghost use Rattle.refusals.specs.Refusals.{refusal};
ghost use Rattle.memory.specs.Memories.{Fits, refusal_of, nothing};

mod ring;

use refusals::Refusal;
pub use ring::{Filter, place, sweep};
use std::fmt;

/// The first `size` slots of lent memory, found to be there; the size is from `LEAST` to `MOST`. Only `check` makes one.
// The whole lent slice beside the size: contracts speak of the memory beyond, which no call touches. A queue and a table hold the two again, since
// a struct of them would have to repeat each method of a slice that they use.
#[derive(Drop)]
pub struct Memory<'a, T, const LEAST: usize, const MOST: usize> {
    slots: &'a mut [T],
    size: usize,
    pub ghost fits: { Fits LEAST MOST size (length slots.now) },
}

/// Why nothing was made of lent memory.
#[derive(Clone, Copy, Debug, PartialEq, Eq)]
pub enum MemoryError {
    /// The size is outside its limits, or the memory is shorter than the size.
    Unfit,
}

/// No slot is free.
#[derive(Clone, Copy, Debug, PartialEq, Eq)]
pub struct Full;

/// What a refusal hands back that tells no more than its number.
#[derive(Clone, Copy, Debug, PartialEq, Eq)]
pub struct Nothing;

impl fmt::Display for Nothing {
    ghost output = { λ _. Some (codes "nothing more") };

    fn fmt<W: fmt::Write>(&self, f: &mut fmt::Formatter<W>) -> fmt::Result {
        write!(f, "nothing more")
    }
}

impl From<MemoryError> for Refusal<Nothing> {
    ghost from_gives = { λ e r. r ≡ refusal_of e };

    fn from(e: MemoryError) -> Refusal<Nothing> {
        match e {
            MemoryError::Unfit => Refusal {
                number: 6,
                values: Nothing,
            },
        }
    }
}

impl<'a, T, const LEAST: usize, const MOST: usize> Memory<'a, T, LEAST, MOST> {
    /// The only call that refuses for the sake of memory: what is made of what passed cannot fail.
    pub fn check(slots: &'a mut [T], size: usize) -> Result<Memory<'a, T, LEAST, MOST>, MemoryError>
        ensures { MatchResult result (λ m. Fits LEAST MOST size (length slots.old) × (m.slots ≡ slots.entry) × (m.size ≡ size)) (λ e. (Fits LEAST MOST size (length slots.old) → ⊥) × (refusal_of e ≡ refusal 6 nothing)) }
    {
        if size < LEAST || size > MOST || size > slots.len() {
            return Err(MemoryError::Unfit);
        }
        Ok(Memory { slots, size })
    }

    /// The memory, and how many of its slots may be used.
    pub fn into_parts(self) -> (&'a mut [T], usize)
        ensures { (result.0 ≡ self.entry.slots) × (result.1 ≡ self.entry.size) }
    {
        let Memory { slots, size } = self;
        (slots, size)
    }
}
