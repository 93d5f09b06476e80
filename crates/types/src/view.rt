//! Views.
ghost use Rattle.std.specs.Prelude.{◌≡◌, Some, decimal, nat_lt};
ghost use Rattle.std.proofs.Common.{rules};

use order::{Equality, LawfulEq, LawfulOrd, TotalOrder};
use std::cmp::Ordering;
use std::fmt;

/// A position within one epoch.
// A type of its own beside an epoch or a height, and no generic number: its marker would stand in every literal of the specs, and say nothing there.
#[derive(Clone, Copy, PartialEq, Eq, PartialOrd, Ord)]
pub struct View(u64);

impl View {
    pub fn new(value: u64) -> Self
        ensures { result.0 ≡ value }
    {
        View(value)
    }

    pub fn get(self) -> u64
        ensures { result ≡ self.0 }
    {
        self.0
    }
}

impl Equality for View {
    fn equals(&self, other: &View) -> bool {
        self.get().equals(&other.get())
    }
}

impl LawfulEq for View {
    ghost identity = { Prim.search rules };
}

impl TotalOrder for View {
    ghost less = { λ a b. nat_lt a.0 b.0 };

    ghost total = { Prim.search rules };

    fn compare(&self, other: &View) -> Ordering {
        self.get().compare(&other.get())
    }
}

impl LawfulOrd for View {
    ghost agrees = { Prim.search rules };
}

impl fmt::Display for View {
    ghost output = { λ x. Some (decimal x.0) };

    fn fmt<W: fmt::Write>(&self, f: &mut fmt::Formatter<W>) -> fmt::Result {
        let value = self.get();
        write!(f, "{value}")
    }
}
