//! Rosters: who has left. A requester is a number of 32 bits.
#![tactic(auto)]

ghost use Rattle.std.specs.Prelude.{◌≡◌, ℕ, Bool};

mod bits;
mod present;

pub use bits::{BitMemory, BitRoster, MOST_PLACES};
pub use present::{PresentMemory, PresentRoster};

/// What a mailbox asks about its requesters. Asking changes nothing.
pub trait Roster {
    /// The set of the numbers that have left.
    ghost left: { Self → ℕ → Bool };

    fn has_left(&self, requester: u32) -> bool
        ensures { result ≡ left self.now requester };
}
