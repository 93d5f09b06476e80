//! The book: the set of the pairs of key and annotation that are outstanding, in memory that a caller lends.
#![tactic(auto)]

ghost use Rattle.std.specs.Prelude.{◌≡◌, ◌↔◌, IsTrue, length, MatchResult, ◌==◌};
ghost use Rattle.std.specs.List.{slice_get};
ghost use Rattle.std.specs.Option.{option_map};
ghost use Rattle.refusals.specs.Refusals.{refusal};
ghost use Rattle.requests.specs.Floors.{AboveHeight, AboveRound};
ghost use Rattle.table.specs.Orders.{Rising, Rising-prop};
ghost use Rattle.table.specs.Tables.{items, capacity, Kept};
ghost use Rattle.book.specs.Refusals.{refusal_of};
ghost use Rattle.book.specs.Sets.{IsAmong, Entered, Went, Raised};

mod error;
mod floored;

pub use error::BookError;
use floored::{AboveHeightFloor, AboveRoundFloor};
use keys::Key;
use memory::Memory;
use order::TotalOrder;
use requests::Annotation;
use table::{Entry, Table};
use types::{Cutoff, Height};

/// The most pairs that a book may hold.
pub const MOST_PAIRS: usize = 1024;

/// What is outstanding of a request.
pub type Pair<D> = (Key<D>, Annotation);

/// Memory for a book of 1 to 1,024 pairs.
pub type BookMemory<'a, P> = Memory<'a, Entry<P, ()>, 1, MOST_PAIRS>;

/// The pairs that are outstanding, each once. Which slot a pair has is free.
#[derive(Drop)]
pub struct Book<'a, P: TotalOrder> {
    pairs: Table<'a, P, ()>,
    ghost rising: { Rising P.TotalOrder.less (items pairs) } by { Rising-prop P.TotalOrder.less (items pairs) },
}

impl<'a, P: Copy + TotalOrder> Book<'a, P> {
    /// A book with no pair.
    pub fn new(memory: BookMemory<'a, P>) -> Book<'a, P>
        ensures set { (p : P) → IsAmong (items result.pairs) p → ⊥ }
        ensures memory { (result.pairs.slots ≡ memory.entry.slots) × (result.pairs.size ≡ memory.entry.size) }
    {
        let pairs = Table::new(memory);
        Book { pairs }
    }

    /// How many pairs are outstanding.
    pub fn len(&self) -> usize
        ensures { result ≡ length (items self.now.pairs) }
    {
        self.pairs.len()
    }

    pub fn is_empty(&self) -> bool
        ensures { result ≡ (length (items self.now.pairs) == 0) }
    {
        self.pairs.is_empty()
    }

    /// Whether a pair is outstanding.
    #[tactic(auto, using(crate::proofs::Members::lookup_decides))]
    pub fn contains(&self, pair: &P) -> bool
        ensures { IsTrue result ↔ IsAmong (items self.now.pairs) pair.now }
    {
        self.pairs.get(pair).is_some()
    }

    /// The pair that `i` others stand before, in rising order.
    pub fn at(&self, i: usize) -> Option<P>
        ensures { result ≡ option_map (λ e. e.key) (slice_get (items self.now.pairs) i) }
    {
        self.pairs.at(i).map(|entry| entry.key)
    }

    /// Enters a pair, and says how many came: 0 if it was in already, else 1. A full book refuses a pair that is not in it.
    // A number and no `bool`: callers add up how many came and went.
    pub fn enter(&mut self, pair: P) -> Result<usize, BookError<P>>
        ensures entered { MatchResult result (λ n. Entered (items self.old.pairs) (items self.new.pairs) pair n) (λ e. (refusal_of e ≡ refusal 12 pair) × (IsAmong (items self.old.pairs) pair → ⊥) × (length (items self.old.pairs) ≡ capacity self.old.pairs) × (self.new ≡ self.old)) }
        ensures kept { Kept self.old.pairs self.new.pairs }
    {
        match self.pairs.insert(pair, ()) {
            Ok(before) => Ok(usize::from(before.is_none())),
            Err(_) => Err(BookError::Full { pair }),
        }
    }

    /// Removes a pair, and says how many went: 1 if it was in, else 0.
    // A number and no `bool`: callers add up how many came and went.
    pub fn remove(&mut self, pair: &P) -> usize
        ensures went { Went (items self.old.pairs) (items self.new.pairs) pair.now result }
        ensures kept { Kept self.old.pairs self.new.pairs }
    {
        usize::from(self.pairs.remove(pair).is_some())
    }
}

impl<'a, D: Copy + TotalOrder> Book<'a, Pair<D>> {
    /// Removes the pairs that are not above a height, and says how many went.
    pub fn raise_height_floor(&mut self, floor: Height) -> usize
        ensures raised { Raised (λ p. AboveHeight floor p.0 p.1) (items self.old.pairs) (items self.new.pairs) result }
        ensures kept { Kept self.old.pairs self.new.pairs }
    {
        self.pairs.retain(&mut AboveHeightFloor { floor })
    }

    /// Removes the pairs that are not above a cutoff, and says how many went.
    pub fn raise_round_floor(&mut self, cutoff: Cutoff) -> usize
        ensures raised { Raised (λ p. AboveRound cutoff p.0 p.1) (items self.old.pairs) (items self.new.pairs) result }
        ensures kept { Kept self.old.pairs self.new.pairs }
    {
        self.pairs.retain(&mut AboveRoundFloor { cutoff })
    }
}
