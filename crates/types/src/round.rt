//! Rounds.
ghost use Rattle.std.specs.Prelude.{◌≡◌, ◌++◌, Some, codes, decimal};
ghost use Rattle.types.specs.Rounds.{round_less};
ghost use Rattle.std.proofs.Common.{rules};

use crate::epoch::Epoch;
use crate::view::View;
use order::{Equality, LawfulEq, LawfulOrd, TotalOrder};
use std::cmp::Ordering;
use std::fmt;

/// An epoch and a view in it. Rounds compare by epoch, then by view.
#[derive(Clone, Copy, PartialEq, Eq, PartialOrd, Ord)]
pub struct Round {
    epoch: Epoch,
    view: View,
}

impl Round {
    pub fn new(epoch: Epoch, view: View) -> Self
        ensures { (result.epoch ≡ epoch) × (result.view ≡ view) }
    {
        Round { epoch, view }
    }

    pub fn epoch(self) -> Epoch
        ensures { result ≡ self.epoch }
    {
        self.epoch
    }

    pub fn view(self) -> View
        ensures { result ≡ self.view }
    {
        self.view
    }
}

impl Equality for Round {
    fn equals(&self, other: &Round) -> bool {
        let Round { epoch, view } = *self;
        epoch.equals(&other.epoch) && view.equals(&other.view)
    }
}

impl LawfulEq for Round {
    ghost identity = { Prim.search rules };
}

impl TotalOrder for Round {
    ghost less = { round_less };

    ghost total = { Prim.search rules };

    fn compare(&self, other: &Round) -> Ordering {
        match self.epoch.compare(&other.epoch) {
            Ordering::Equal => self.view.compare(&other.view),
            first => first,
        }
    }
}

impl LawfulOrd for Round {
    ghost agrees = { Prim.search rules };
}

impl fmt::Display for Round {
    ghost output = { λ x. Some (codes "(" ++ (decimal x.epoch.0 ++ (codes ", " ++ (decimal x.view.0 ++ codes ")")))) };

    fn fmt<W: fmt::Write>(&self, f: &mut fmt::Formatter<W>) -> fmt::Result {
        let epoch = self.epoch;
        let view = self.view;
        write!(f, "({epoch}, {view})")
    }
}
