//! A roster as an ordered table of those who have not left.
ghost use Rattle.std.specs.Prelude.{◌≡◌, ℕ, true, length, if◌then◌else◌, nat_lt};
ghost use Rattle.rosters.specs.Members.{absent};
ghost use Rattle.rosters.specs.Sets.{Leaves, Enters};
ghost use Rattle.table.specs.Orders.{Rising, Rising-prop};
ghost use Rattle.table.specs.Tables.{items, capacity, Kept};

use crate::{MOST_PLACES, Roster};
use memory::Memory;
use table::{Entry, Table};

/// Memory for a table of up to 65,536 requesters.
pub type PresentMemory<'a> = Memory<'a, Entry<u32, ()>, 0, MOST_PLACES>;

/// Who has left, by a table of those who have not, in lent memory.
#[derive(Drop)]
pub struct PresentRoster<'a> {
    present: Table<'a, u32, ()>,
    ghost rising: { Rising nat_lt (items present) } by { Rising-prop nat_lt (items present) },
}

impl<'a> PresentRoster<'a> {
    /// A roster from which everybody has left.
    pub fn new(memory: PresentMemory<'a>) -> PresentRoster<'a>
        ensures left { (n : ℕ) → absent (items result.present) n ≡ true }
        ensures memory { (result.present.slots ≡ memory.entry.slots) × (result.present.size ≡ memory.entry.size) }
    {
        let present = Table::new(memory);
        PresentRoster { present }
    }

    /// A requester leaves: 1 if it had not left before, else 0.
    // A number and no `bool`: callers add up how many came and went.
    #[tactic(auto, using(crate::proofs::Members::leaves_removed))]
    pub fn leave(&mut self, requester: u32) -> usize
        ensures leaves { Leaves (absent (items self.old.present)) (absent (items self.new.present)) requester result }
        ensures kept { Kept self.old.present self.new.present }
    {
        usize::from(self.present.remove(&requester).is_some())
    }

    /// A requester enters, where there is a place for it: 1 if it had left before, else 0.
    // A number and no `bool`: callers add up how many came and went.
    #[tactic(auto, using(crate::proofs::Members::enters_inserted))]
    pub fn enter(&mut self, requester: u32) -> usize
        ensures enters { Enters (nat_lt (length (items self.old.present)) (capacity self.old.present)) (absent (items self.old.present)) (absent (items self.new.present)) requester result }
        ensures kept { Kept self.old.present self.new.present }
    {
        match self.present.insert(requester, ()) {
            Ok(before) => usize::from(before.is_none()),
            Err(_) => 0,
        }
    }
}

impl<'a> Roster for PresentRoster<'a> {
    ghost left = { λ r. absent (items r.present) };

    #[tactic(auto, using(crate::proofs::Members::lookup_among))]
    fn has_left(&self, requester: u32) -> bool
        ensures { result ≡ absent (items self.now.present) requester }
    {
        self.present.get(&requester).is_none()
    }
}
