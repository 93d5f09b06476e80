//! Arrays of 32 bytes.
ghost use Rattle.std.specs.Cmp.Lexicographic.{bytes_decides};
ghost use Rattle.order.specs.Orders.{lex_less};
ghost use Rattle.order.specs.Lexical.{lex_agrees, lex_total};

use crate::{Equality, LawfulEq, LawfulOrd, TotalOrder};
use std::cmp::Ordering;

impl Equality for [u8; 32] {
    fn equals(&self, other: &[u8; 32]) -> bool {
        self == other
    }
}

impl LawfulEq for [u8; 32] {
    ghost identity = { bytes_decides };
}

/// The first byte in which two arrays differ decides.
impl TotalOrder for [u8; 32] {
    ghost less = { lex_less };

    ghost total = { lex_total };

    #[tactic(auto, using(crate::specs::Lexical::lex_agrees))]
    fn compare(&self, other: &[u8; 32]) -> Ordering {
        // Digests mostly differ in the first byte, which the library's comparison does not look at alone.
        if self[0] == other[0] {
            self.cmp(other)
        } else {
            self[0].compare(&other[0])
        }
    }
}

impl LawfulOrd for [u8; 32] {
    ghost agrees = { lex_agrees };
}
