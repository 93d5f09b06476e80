//! Numbers, in their own order.
ghost use Rattle.std.specs.Prelude.{nat_lt};
ghost use Rattle.std.proofs.Common.{rules};

use crate::{Equality, LawfulEq, LawfulOrd, TotalOrder};
use std::cmp::Ordering;

impl Equality for u8 {
    fn equals(&self, other: &u8) -> bool {
        self == other
    }
}

impl LawfulEq for u8 {
    ghost identity = { Prim.search rules };
}

impl TotalOrder for u8 {
    ghost less = { nat_lt };

    ghost total = { Prim.search rules };

    fn compare(&self, other: &u8) -> Ordering {
        self.cmp(other)
    }
}

impl LawfulOrd for u8 {
    ghost agrees = { Prim.search rules };
}

impl Equality for u16 {
    fn equals(&self, other: &u16) -> bool {
        self == other
    }
}

impl LawfulEq for u16 {
    ghost identity = { Prim.search rules };
}

impl Equality for u32 {
    fn equals(&self, other: &u32) -> bool {
        self == other
    }
}

impl LawfulEq for u32 {
    ghost identity = { Prim.search rules };
}

impl TotalOrder for u32 {
    ghost less = { nat_lt };

    ghost total = { Prim.search rules };

    fn compare(&self, other: &u32) -> Ordering {
        self.cmp(other)
    }
}

impl LawfulOrd for u32 {
    ghost agrees = { Prim.search rules };
}

impl Equality for u64 {
    fn equals(&self, other: &u64) -> bool {
        self == other
    }
}

impl LawfulEq for u64 {
    ghost identity = { Prim.search rules };
}

impl TotalOrder for u64 {
    ghost less = { nat_lt };

    ghost total = { Prim.search rules };

    fn compare(&self, other: &u64) -> Ordering {
        self.cmp(other)
    }
}

impl LawfulOrd for u64 {
    ghost agrees = { Prim.search rules };
}
