//! A roster as a row of bits.
ghost use Rattle.std.specs.Prelude.{◌≡◌, ℕ, ◌/◌, ◌<◌, Bool, true, false, not, length, drop, if◌then◌else◌, MatchResult, nat_eq};
ghost use Rattle.refusals.specs.Refusals.{refusal};
ghost use Rattle.memory.specs.Memories.{nothing, refusal_of};
ghost use Rattle.rosters.specs.Bits.{FitsBits, bit_set, bits_left, bytes_for, has_place};
ghost use Rattle.rosters.specs.Sets.{Leaves, Enters};

use crate::Roster;
use memory::MemoryError;

/// The most places that a row of bits may have.
pub const MOST_PLACES: usize = 65536;

/// Memory with a bit for each of so many places. Only `check` makes one.
// The whole lent slice beside the places: contracts speak of the memory beyond, which no call touches.
#[derive(Drop)]
pub struct BitMemory<'a> {
    bits: &'a mut [u8],
    places: usize,
    ghost fits: { FitsBits places (length bits.now) },
}

/// Who has left, as a row of bits in lent memory: the bit of one who has left is set. Numbers that have no place have left.
#[derive(Drop)]
pub struct BitRoster<'a> {
    memory: BitMemory<'a>,
}

impl<'a> BitMemory<'a> {
    /// Up to 65,536 places, eight to a byte.
    pub fn check(bits: &'a mut [u8], places: usize) -> Result<BitMemory<'a>, MemoryError>
        ensures { MatchResult result (λ m. FitsBits places (length bits.old) × (m.bits ≡ bits.entry) × (m.places ≡ places)) (λ e. (FitsBits places (length bits.old) → ⊥) × (refusal_of e ≡ refusal 6 nothing)) }
    {
        if places > MOST_PLACES || places > bits.len().saturating_mul(8) {
            return Err(MemoryError::Unfit);
        }
        Ok(BitMemory { bits, places })
    }

    /// Puts down whether a requester has left, if there is a place for it, and says whether that is new.
    fn mark(&mut self, requester: u32, left: bool) -> bool
        ensures leaves { left ≡ true → Leaves (bits_left self.old.bits.now self.old.places) (bits_left self.new.bits.now self.new.places) requester (if result then 1 else 0) }
        ensures enters { left ≡ false → Enters (has_place self.old.bits.now self.old.places requester) (bits_left self.old.bits.now self.old.places) (bits_left self.new.bits.now self.new.places) requester (if result then 1 else 0) }
        ensures places { (self.new.places ≡ self.old.places) × (length self.new.bits.now ≡ length self.old.bits.now) }
        ensures beyond { drop (bytes_for self.new.places) self.new.bits.now ≡ drop (bytes_for self.old.places) self.old.bits.now }
    {
        let place = requester as usize;
        let places = self.places;
        let bits = &mut *self.bits;
        if place >= places || bit(bits, place) == left {
            return false;
        }
        flip(bits, place);
        true
    }
}

/// The bit at a place.
fn bit(bits: &[u8], place: usize) -> bool
    requires { place / 8 < length bits.now }
    ensures { result ≡ bit_set bits.now place }
{
    (bits[place / 8] >> (place % 8)) & 1 == 1
}

/// Turns the bit at a place, and no other.
fn flip(bits: &mut [u8], place: usize)
    requires { place / 8 < length bits.old }
    ensures turned { (n : ℕ) → bit_set bits.new n ≡ (if nat_eq n place then not (bit_set bits.old n) else bit_set bits.old n) }
    ensures rest { (size : ℕ) → place / 8 < size → drop size bits.new ≡ drop size bits.old }
{
    bits[place / 8] ^= 1 << (place % 8);
}

impl<'a> BitRoster<'a> {
    // Here and not at the top, since these definitions name the types.
    ghost use Rattle.rosters.specs.Places.{place_in, left_in, beyond, Kept};

    /// A roster from which nobody who has a place has left.
    pub fn new(memory: BitMemory<'a>) -> BitRoster<'a>
        ensures left { (n : ℕ) → left_in result n ≡ not (place_in result n) }
        ensures places { (result.memory.places ≡ memory.entry.places) × (length result.memory.bits.now ≡ length memory.entry.bits.now) }
        ensures beyond { beyond result ≡ drop (bytes_for memory.entry.places) memory.entry.bits.now }
    {
        let BitMemory { bits, places } = memory;
        bits[..places.div_ceil(8)].fill(0);
        BitRoster {
            memory: BitMemory { bits, places },
        }
    }

    /// A requester leaves: 1 if it had not left before, else 0.
    // A number and no `bool`: callers add up how many came and went.
    pub fn leave(&mut self, requester: u32) -> usize
        ensures leaves { Leaves (left_in self.old) (left_in self.new) requester result }
        ensures kept { Kept self.old self.new }
    {
        usize::from(self.memory.mark(requester, true))
    }

    /// A requester enters, where there is a place for it: 1 if it had left before, else 0.
    // A number and no `bool`: callers add up how many came and went.
    pub fn enter(&mut self, requester: u32) -> usize
        ensures enters { Enters (place_in self.old requester) (left_in self.old) (left_in self.new) requester result }
        ensures kept { Kept self.old self.new }
    {
        usize::from(self.memory.mark(requester, false))
    }
}

impl<'a> Roster for BitRoster<'a> {
    ghost use Rattle.rosters.specs.Places.{left_in};

    ghost left = { left_in };

    fn has_left(&self, requester: u32) -> bool
        ensures { result ≡ left_in self.now requester }
    {
        let place = requester as usize;
        let bits = &*self.memory.bits;
        place >= self.memory.places || bit(bits, place)
    }
}
