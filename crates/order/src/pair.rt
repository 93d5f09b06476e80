//! Pairs.
ghost use Rattle.order.specs.Orders.{pair_less};
ghost use Rattle.order.specs.Totals.{irreflexive, pair_total};
ghost use Rattle.std.proofs.Common.{rules};

use crate::{Equality, LawfulEq, LawfulOrd, TotalOrder};
use std::cmp::Ordering;

// Part by part and not by `==` and `cmp`, which the parts need not have.

impl<A: Equality, B: Equality> Equality for (A, B) {
    fn equals(&self, other: &(A, B)) -> bool {
        self.0.equals(&other.0) && self.1.equals(&other.1)
    }
}

impl<A: LawfulEq, B: LawfulEq> LawfulEq for (A, B) {
    ghost identity = { Prim.search rules };
}

/// The first parts decide, and where they are equal the second.
impl<A: TotalOrder, B: TotalOrder> TotalOrder for (A, B) {
    ghost less = { pair_less A.TotalOrder.less B.TotalOrder.less };

    ghost total = { pair_total A.TotalOrder.total B.TotalOrder.total };

    fn compare(&self, other: &(A, B)) -> Ordering {
        match self.0.compare(&other.0) {
            Ordering::Equal => self.1.compare(&other.1),
            first => first,
        }
    }
}

impl<A: LawfulOrd, B: LawfulOrd> LawfulOrd for (A, B) {
    ghost agrees = { Prim.search (irreflexive A.TotalOrder.total, rules) };
}
