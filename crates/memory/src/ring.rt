//! Entries of a ring: they stand one behind another, and the first place of the memory follows the last.
ghost use Rattle.std.specs.Prelude.{◌≡◌, ◌<◌, min, Bool};
ghost use Rattle.memory.specs.Rings.{placed};
ghost use Rattle.memory.specs.Sweeps.{Swept};

/// Where the `i`-th entry stands, of `room` places, if the first stands at `head`.
pub fn place(room: usize, head: usize, i: usize) -> usize
    ensures value { result ≡ placed room (min head room) i }
    ensures bound { i < room → result < room }
{
    let behind = room.saturating_sub(head);
    if i < behind { head + i } else { i - behind }
}

/// A named test of a sweep: which entries stay, and what the test notes of each.
// A trait and no closure: that `passes` and `noted` are functions says more of a sweep than a relation between a closure's calls.
pub trait Filter<T> {
    ghost passes: { Self → T → Bool };

    ghost noted: { Self → T → Self };

    fn keep(&mut self, entry: &T) -> bool
        ensures value { result ≡ passes self.old entry.now }
        ensures after { self.new ≡ noted self.old entry.now };
}

/// Drops the entries of a ring that a test does not keep. The others close up in their order; how many they are is the answer.
/// The ring has the first `size` slots, and `len` entries from `head` on.
pub fn sweep<T: Copy, S: Filter<T>>(
    slots: &mut [T],
    size: usize,
    head: usize,
    len: usize,
    test: &mut S,
) -> usize
    ensures { Swept S.Filter.passes S.Filter.noted test.old test.new slots.old slots.new size head len result }
{
    // Three numbers and no struct of them: a public function asks nothing of its callers, so any numbers have to do.
    let room = size.min(slots.len());
    let mut count = 0;
    // By index, since what stays is written to places of the slice that is read.
    for i in 0..len.min(room) {
        let entry = slots[place(room, head, i)];
        if test.keep(&entry) {
            slots[place(room, head, count)] = entry;
            count += 1;
        }
    }
    count
}
