//! The tests of a sweep by a floor.
ghost use Rattle.book.specs.Floored.{above_height, above_round};

use crate::Pair;
use memory::Filter;
use requests::{above_height_floor, above_round_floor};
use table::Entry;
use types::{Cutoff, Height};

/// Keeps the pairs above a height.
#[derive(Clone, Copy)]
pub(crate) struct AboveHeightFloor {
    pub floor: Height,
}

impl<D> Filter<Entry<Pair<D>, ()>> for AboveHeightFloor {
    ghost passes = { λ test entry. above_height test.floor entry.key };

    ghost noted = { λ test entry. test };

    fn keep(&mut self, entry: &Entry<Pair<D>, ()>) -> bool {
        above_height_floor(self.floor, &entry.key.0, &entry.key.1)
    }
}

/// Keeps the pairs above a cutoff.
#[derive(Clone, Copy)]
pub(crate) struct AboveRoundFloor {
    pub cutoff: Cutoff,
}

impl<D> Filter<Entry<Pair<D>, ()>> for AboveRoundFloor {
    ghost passes = { λ test entry. above_round test.cutoff entry.key };

    ghost noted = { λ test entry. test };

    fn keep(&mut self, entry: &Entry<Pair<D>, ()>) -> bool {
        above_round_floor(self.cutoff, &entry.key.0, &entry.key.1)
    }
}
