//! A row of targets, in memory that a caller lends.
#![tactic(auto)]

ghost use Rattle.std.specs.Prelude.{◌≡◌, ◌≢◌, ℕ, ◌<◌, ◌≤◌, ◌↔◌, ◌⊎◌, true, false, slice_index_or, [], length, take, is_ok, if◌then◌else◌, IfOk, nat_le};
ghost use Rattle.std.specs.List.{Contains};
ghost use Rattle.row.specs.Joined.{joined};

use memory::{Full, Memory};
use order::LawfulEq;

/// The most targets that a row may have.
pub const MOST_TARGETS: usize = 256;

/// Memory for a row of 1 to 256 targets.
pub type RowMemory<'a, T> = Memory<'a, T, 1, MOST_TARGETS>;

/// The targets of one group, in the order in which they came. Which slot a target has is free.
// The whole lent slice beside the size: contracts speak of the memory beyond, which no call touches.
#[derive(Drop)]
pub struct Row<'a, T> {
    slots: &'a mut [T],
    size: usize,
    len: usize,
    ghost fits: { size ≤ length slots.now },
    ghost filled: { len ≤ size },
}

impl<'a, T: Copy + LawfulEq> Row<'a, T> {
    // Here and not at the top, since these definitions name the type.
    ghost use Rattle.row.specs.Rows.{items, capacity, Kept};

    /// A row with no target.
    pub fn new(memory: RowMemory<'a, T>) -> Row<'a, T>
        ensures items { items result ≡ [] }
        ensures slots { result.slots ≡ memory.entry.slots }
        ensures size { result.size ≡ memory.entry.size }
    {
        let (slots, size) = memory.into_parts();
        Row {
            slots,
            size,
            len: 0,
        }
    }

    /// The targets.
    pub fn targets(&self) -> &[T]
        ensures { result.now ≡ items self.now }
    {
        let slots = &*self.slots;
        &slots[..self.len]
    }

    /// Puts a list in place of the targets, as it is given, repeats included; refused where it is longer than the row.
    pub fn open(&mut self, list: &[T]) -> Result<(), Full>
        ensures test { is_ok result ≡ nat_le (length list.now) (capacity self.old) }
        ensures items { items self.new ≡ (if is_ok result then list.now else items self.old) }
        ensures same { is_ok result ≡ false → self.new ≡ self.old }
        ensures kept { Kept self.old self.new }
    {
        if list.len() > self.size {
            return Err(Full);
        }
        self.slots[..list.len()].copy_from_slice(list);
        self.len = list.len();
        Ok(())
    }

    /// Adds the targets of a list that are not there yet, one by one at the end; where they do not all fit, none.
    pub fn join(&mut self, list: &[T]) -> Result<(), Full>
        ensures test { is_ok result ≡ nat_le (length (joined T.eq (items self.old) list.now)) (capacity self.old) }
        ensures items { items self.new ≡ (if is_ok result then joined T.eq (items self.old) list.now else items self.old) }
        ensures all { is_ok result ≡ true → (t : T) → Contains (items self.new) t ↔ (Contains (items self.old) t ⊎ Contains list.now t) }
        ensures front { take (length (items self.old)) (items self.new) ≡ items self.old }
        ensures once { (j k : ℕ) (d : T) → j < k → length (items self.old) ≤ k → k < length (items self.new) → slice_index_or (items self.new) j d ≢ slice_index_or (items self.new) k d }
        ensures kept { Kept self.old self.new }
    {
        let len = self.len;
        let size = self.size;
        self.len = join_new(&mut self.slots[..size], len, list)?;
        Ok(())
    }
}

/// Adds the targets of a list that are not among the first `len` slots behind these, and says how many there are then.
fn join_new<T: Copy + LawfulEq>(slots: &mut [T], len: usize, list: &[T]) -> Result<usize, Full>
    requires { len ≤ length slots.old }
    ensures test { is_ok result ≡ nat_le (length (joined T.eq (take len slots.old) list.now)) (length slots.old) }
    ensures items { IfOk result (λ n. (take n slots.new ≡ joined T.eq (take len slots.old) list.now) × (n ≤ length slots.new)) }
    ensures front { take len slots.new ≡ take len slots.old }
    ensures slots { length slots.new ≡ length slots.old }
{
    let mut end = len;
    'next: for target in list {
        for held in &slots[..end] {
            if held.equals(target) {
                continue 'next;
            }
        }
        if end == slots.len() {
            return Err(Full);
        }
        slots[end] = *target;
        end += 1;
    }
    Ok(end)
}
