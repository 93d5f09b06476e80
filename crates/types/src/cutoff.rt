//! Cutoffs.
ghost use Rattle.std.specs.Prelude.{MatchBool};
ghost use Rattle.types.specs.Rounds.{Covers};

use crate::epoch::Epoch;
use crate::round::Round;

/// An inclusive bound on rounds: a round, or the end of an epoch.
#[derive(Clone, Copy)]
pub enum Cutoff {
    /// Covers this round and every earlier one.
    Round(Round),
    /// Covers every round of this epoch and of every earlier one.
    Epoch(Epoch),
}

impl Cutoff {
    pub fn covers(&self, round: Round) -> bool
        ensures { MatchBool result (Covers self.now round) (Covers self.now round → ⊥) }
    {
        match *self {
            Cutoff::Round(last) => round <= last,
            Cutoff::Epoch(last) => round.epoch() <= last,
        }
    }
}
