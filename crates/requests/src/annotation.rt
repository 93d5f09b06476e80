//! Annotations: why a key is fetched. Peers never see them.
ghost use Rattle.requests.specs.Annotations.{finalized_less, annotation_less};
ghost use Rattle.std.proofs.Common.{rules};
ghost use Rattle.requests.specs.Ordered.{annotation_total};

use order::{Equality, LawfulEq, LawfulOrd, TotalOrder};
use std::cmp::Ordering;
use types::{Height, Round};

/// What is known of a finalized block before it is fetched.
#[derive(Clone, Copy, PartialEq, Eq, PartialOrd, Ord)]
pub enum Finalized {
    ByHeight { height: Height },
    ByRound { round: Round },
}

impl Equality for Finalized {
    fn equals(&self, other: &Finalized) -> bool {
        self == other
    }
}

impl LawfulEq for Finalized {
    ghost identity = { Prim.search rules };
}

/// By the case, in the order of the declaration, then by content.
impl TotalOrder for Finalized {
    ghost less = { finalized_less };

    ghost total = { Prim.search rules };

    fn compare(&self, other: &Finalized) -> Ordering {
        self.cmp(other)
    }
}

impl LawfulOrd for Finalized {
    ghost agrees = { Prim.search rules };
}

/// How the answer to a request is to be validated and stored.
#[derive(Clone, Copy, PartialEq, Eq, PartialOrd, Ord)]
pub enum Annotation {
    /// A notarization, by its round.
    Notarization { round: Round },
    /// A block by its digest, without evidence that it is certified.
    Untrusted { height: Height },
    /// A block by its digest that this node certified, or an ancestor of one.
    Certified { height: Height },
    /// A block by its digest, for the finalized chain.
    Finalized(Finalized),
}

impl Equality for Annotation {
    fn equals(&self, other: &Annotation) -> bool {
        self == other
    }
}

impl LawfulEq for Annotation {
    ghost identity = { Prim.search rules };
}

/// By the case, in the order of the declaration, then by content.
impl TotalOrder for Annotation {
    ghost less = { annotation_less };

    ghost total = { annotation_total };

    fn compare(&self, other: &Annotation) -> Ordering {
        self.cmp(other)
    }
}

impl LawfulOrd for Annotation {
    ghost agrees = { Prim.search rules };
}
