//! One queue for every kind of element, in memory that the caller lends.
#![tactic(auto)]

ghost use Rattle.std.specs.Prelude.{◌≡◌, ◌<◌, ◌≤◌, false, [], ◌∷◌, ◌++◌, length, is_some, is_ok, if◌then◌else◌, fold, filter, ◌==◌, nat_lt};
ghost use Rattle.std.specs.Option.{option_to_list};
ghost use Rattle.std.specs.List.{slice_get};
ghost use Rattle.memory.specs.Rings.{placed};
ghost use Rattle.memory.specs.Sweeps.{retained, Steady};

use memory::{Filter, Full, Memory, place, sweep};

/// The most slots that a queue may have.
pub const MOST_SLOTS: usize = 4096;

/// Memory for a queue of 1 to 4,096 slots.
pub type QueueMemory<'a, T> = Memory<'a, T, 1, MOST_SLOTS>;

/// A queue in lent memory. It uses the first slots of it, as many as its size; the slots that entries leave are used again.
/// Its `len` entries stand from `head` on, the first slot following the last one used. Which slot an entry has is free.
// The whole lent slice beside the size: contracts speak of the memory beyond, which no call touches.
#[derive(Drop)]
pub struct Queue<'a, T> {
    slots: &'a mut [T],
    size: usize,
    head: usize,
    len: usize,
    ghost fits: { size ≤ length slots.now },
    ghost inside: { (head ≤ size) × (len ≤ size) },
}

impl<'a, T: Copy> Queue<'a, T> {
    ghost use Rattle.queue.specs.Items.{items, capacity, Kept};

    /// An empty queue.
    pub fn new(memory: QueueMemory<'a, T>) -> Queue<'a, T>
        ensures items { items result ≡ [] }
        ensures slots { result.slots ≡ memory.entry.slots }
        ensures size { result.size ≡ memory.entry.size }
    {
        let (slots, size) = memory.into_parts();
        Queue {
            slots,
            size,
            head: 0,
            len: 0,
        }
    }

    pub fn len(&self) -> usize
        ensures { result ≡ length (items self.now) }
    {
        self.len // no more than fit, by `inside`
    }

    // `is_empty` and `capacity` are written in each container, as in std: a trait for these two lines would have to be brought in by callers.
    pub fn is_empty(&self) -> bool
        ensures { result ≡ (length (items self.now) == 0) }
    {
        self.len() == 0
    }

    /// How many entries the queue may hold.
    pub fn capacity(&self) -> usize
        ensures { result ≡ capacity self.now }
    {
        self.size
    }

    /// The entry that `i` others stand before.
    pub fn get(&self, i: usize) -> Option<T>
        ensures { result ≡ slice_get (items self.now) i }
    {
        // No `then`: its closure would have to state that `i` is in range.
        if i < self.len {
            Some(self.slots[self.place(i)])
        } else {
            None
        }
    }

    /// Adds an entry behind all others.
    #[tactic(auto, using(memory::proofs::Rings::ring_back))]
    pub fn push_back(&mut self, entry: T) -> Result<(), Full>
        ensures test { is_ok result ≡ nat_lt (length (items self.old)) (capacity self.old) }
        ensures items { items self.new ≡ (if is_ok result then items self.old ++ entry ∷ [] else items self.old) }
        ensures kept { Kept self.old self.new }
        ensures same { is_ok result ≡ false → self.new ≡ self.old }
    {
        if self.len == self.size {
            return Err(Full);
        }
        let len = self.len;
        let at = self.place(len);
        self.slots[at] = entry;
        self.len = len + 1;
        Ok(())
    }

    /// Puts an entry before all others, as one that was taken and comes back.
    #[tactic(auto, using(memory::proofs::Rings::ring_front))]
    pub fn push_front(&mut self, entry: T) -> Result<(), Full>
        ensures test { is_ok result ≡ nat_lt (length (items self.old)) (capacity self.old) }
        ensures items { items self.new ≡ (if is_ok result then entry ∷ items self.old else items self.old) }
        ensures kept { Kept self.old self.new }
        ensures same { is_ok result ≡ false → self.new ≡ self.old }
    {
        if self.len == self.size {
            return Err(Full);
        }
        let last = self.size - 1;
        let at = self.place(last);
        self.slots[at] = entry;
        self.head = at;
        self.len += 1;
        Ok(())
    }

    /// Takes the first entry off.
    #[tactic(auto, using(memory::proofs::Rings::ring_pop))]
    pub fn pop_front(&mut self) -> Option<T>
        ensures items { items self.old ≡ option_to_list result ++ items self.new }
        ensures test { is_some result ≡ nat_lt 0 (length (items self.old)) }
        ensures kept { Kept self.old self.new }
    {
        if self.len == 0 {
            return None;
        }
        let at = self.place(0);
        self.head = at + 1;
        self.len -= 1;
        Some(self.slots[at])
    }

    /// Drops the entries that a test does not keep; the others keep their order. The test may note what it sees.
    pub fn retain<S: Filter<T>>(&mut self, test: &mut S)
        ensures items { items self.new ≡ retained S.Filter.passes S.Filter.noted test.old (items self.old) }
        ensures noted { test.new ≡ fold S.Filter.noted test.old (items self.old) }
        ensures steady { Steady S.Filter.passes S.Filter.noted → items self.new ≡ filter (S.Filter.passes test.old) (items self.old) }
        ensures kept { Kept self.old self.new }
    {
        self.len = sweep(self.slots, self.size, self.head, self.len, test);
    }

    /// Where the entry that `i` others stand before has its slot, or would have it.
    fn place(&self, i: usize) -> usize
        requires { i < self.now.size }
        ensures value { result ≡ placed self.now.size self.now.head i }
        ensures bound { result < self.now.size }
    {
        place(self.size, self.head, i)
    }
}
