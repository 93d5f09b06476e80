//! Equality and order as interfaces: what a row of targets needs, and what an ordered table needs.
#![tactic(auto)]

ghost use Rattle.std.specs.Prelude.{◌≡◌, ◌↔◌, Bool, IsTrue, MatchBool, ◌≢◌};
ghost use Rattle.order.specs.Orders.{Total};
ghost use Rattle.order.specs.Comparisons.{Compares};

mod bytes32;
mod number;
mod pair;

use std::cmp::Ordering;

// No `Eq` and no `Ord` above these two: a type may be told apart and ordered here in a way of its own, whatever its `==` and `cmp` answer.

/// Values that can be told apart: yes exactly for two equal values.
pub trait Equality {
    fn equals(&self, other: &Self) -> bool
        ensures { MatchBool result (self.now ≡ other.now) (self.now ≢ other.now) };
}

/// Values in a strict total order, which is built on their equality.
pub trait TotalOrder: Equality {
    ghost less: { Self → Self → Bool };

    fn compare(&self, other: &Self) -> Ordering
        ensures { Compares less self.now other.now result };

    ghost total: { Total less };
}

/// Values that `==` tells apart as `equals` does.
pub trait LawfulEq: Equality + Eq {
    ghost identity: { (a b : Self) → IsTrue (Self.eq a b) ↔ (a ≡ b) };
}

/// Values that `cmp` compares as `compare` does.
pub trait LawfulOrd: LawfulEq + TotalOrder + Ord {
    ghost agrees: { (a b : Self) → Compares Self.less a b (Self.cmp a b) };
}
