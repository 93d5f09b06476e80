//! What callers may count on: code of theirs that has to build, kept here so that a bound too many is refused.
#![tactic(auto)]

ghost use Rattle.std.specs.Prelude.{◌≡◌, nat_lt};
ghost use Rattle.std.proofs.Common.{rules};

use order::{Equality, TotalOrder};
use std::cmp::Ordering;
use table::Table;

/// A number of which the highest comes first. Its `cmp` is derived, and in the other order: `compare` is the caller's own.
#[derive(Clone, Copy, PartialEq, Eq, PartialOrd, Ord)]
pub struct Newest(pub u64);

impl Equality for Newest {
    fn equals(&self, other: &Newest) -> bool {
        self.0 == other.0
    }
}

impl TotalOrder for Newest {
    ghost less = { λ a b. nat_lt b.0 a.0 };

    ghost total = { Prim.search rules };

    fn compare(&self, other: &Newest) -> Ordering {
        other.0.cmp(&self.0)
    }
}

/// Passes a table on, whatever its keys are, and how they compare.
pub fn pass<'a, K, V>(table: Table<'a, K, V>) -> Table<'a, K, V>
    ensures { (result.slots ≡ table.entry.slots) × (result.size ≡ table.entry.size) × (result.len ≡ table.entry.len) }
{
    table
}
