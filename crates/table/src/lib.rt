//! The one ordered table, in memory that a caller lends.
#![tactic(auto)]

ghost use Rattle.std.specs.Prelude.{◌≡◌, ◌+◌, ◌<◌, ◌≤◌, [], length, take, fold, filter, ◌==◌};
ghost use Rattle.std.specs.List.{slice_get};
ghost use Rattle.memory.specs.Sweeps.{retained, Steady};
ghost use Rattle.table.specs.Edits.{Inserted, Removed};
ghost use Rattle.table.specs.Maps.{Lookup};
ghost use Rattle.table.specs.Orders.{Rising};
ghost use Rattle.table.specs.Searches.{Searched, Within};

use memory::{Filter, Full, Memory, sweep};
use order::TotalOrder;
use std::cmp::Ordering;
use std::mem::replace;

#[derive(Clone, Copy, Debug, PartialEq, Eq)]
pub struct Entry<K, V> {
    pub key: K,
    pub value: V,
}

/// Values by key in lent memory, each key once, in rising order.
// The whole lent slice beside the size: contracts speak of the memory beyond, which no call touches. That the keys rise stands in the contracts and not
// in a ghost field, which would ask for an ordered key wherever the type is named.
#[derive(Drop)]
pub struct Table<'a, K, V> {
    slots: &'a mut [Entry<K, V>],
    size: usize,
    len: usize,
    ghost fits: { size ≤ length slots.now },
    ghost filled: { len ≤ size },
}

impl<'a, K: Copy + TotalOrder, V: Copy> Table<'a, K, V> {
    // Here and not at the top, since these definitions name the type.
    ghost use Rattle.table.specs.Tables.{items, capacity, Kept, Grown, Shrunk};

    /// An empty table in memory that was checked.
    pub fn new<const LEAST: usize, const MOST: usize>(
        memory: Memory<'a, Entry<K, V>, LEAST, MOST>,
    ) -> Table<'a, K, V>
        ensures items { items result ≡ [] }
        ensures slots { result.slots ≡ memory.entry.slots }
        ensures size { result.size ≡ memory.entry.size }
    {
        let (slots, size) = memory.into_parts();
        Table {
            slots,
            size,
            len: 0,
        }
    }

    /// How many entries there are.
    pub fn len(&self) -> usize
        ensures value { result ≡ length (items self.now) }
        ensures bound { result ≤ capacity self.now }
    {
        self.entries().len()
    }

    // `is_empty` and `capacity` are written in each container, as in std: a trait for these two lines would have to be brought in by callers.
    pub fn is_empty(&self) -> bool
        ensures { result ≡ (length (items self.now) == 0) }
    {
        self.len() == 0
    }

    /// How many entries fit.
    pub fn capacity(&self) -> usize
        ensures { result ≡ capacity self.now }
    {
        self.size
    }

    /// The `i`-th entry in rising order.
    pub fn at(&self, i: usize) -> Option<Entry<K, V>>
        ensures { result ≡ slice_get (items self.now) i }
    {
        self.entries().get(i).copied()
    }

    /// Where the key stands, or else where it would.
    pub fn search(&self, key: &K) -> Result<usize, usize>
        ensures within { Within (length (items self.now)) result }
        ensures value { Rising K.TotalOrder.less (items self.now) → Searched K.TotalOrder.less (items self.now) key.now result }
    {
        // A loop of its own: the library's search halves until one entry is left, also where it has met the key.
        let entries = self.entries();
        let mut low = 0;
        let mut high = entries.len();
        while low < high {
            let middle = low + (high - low) / 2;
            match entries[middle].key.compare(key) {
                Ordering::Less => low = middle + 1,
                Ordering::Equal => return Ok(middle),
                Ordering::Greater => high = middle,
            }
        }
        Err(low)
    }

    /// The value under the key.
    pub fn get(&self, key: &K) -> Option<V>
        ensures { Rising K.TotalOrder.less (items self.now) → Lookup (items self.now) key.now result }
    {
        let i = self.search(key).ok()?;
        Some(self.entries()[i].value)
    }

    /// Sets the value under the key, and gives back the one that stood there. A new key is refused where no slot is free.
    pub fn insert(&mut self, key: K, value: V) -> Result<Option<V>, Full>
        ensures kept { Kept self.old self.new }
        ensures count { Grown self.old self.new result }
        ensures order { Rising K.TotalOrder.less (items self.old) → Rising K.TotalOrder.less (items self.new) }
        ensures value { Rising K.TotalOrder.less (items self.old) → Inserted K.TotalOrder.less (items self.old) key (capacity self.old) value (items self.new) result }
    {
        match self.search(&key) {
            Ok(i) => {
                let slots = &mut *self.slots;
                Ok(Some(replace(&mut slots[i].value, value)))
            }
            Err(i) => {
                if self.len == self.size {
                    return Err(Full);
                }
                let len = self.len;
                self.slots[len] = Entry { key, value };
                self.slots[i..=len].rotate_right(1);
                self.len = len + 1;
                Ok(None)
            }
        }
    }

    /// Removes the key, and gives back the value that stood under it.
    pub fn remove(&mut self, key: &K) -> Option<V>
        ensures kept { Kept self.old self.new }
        ensures count { Shrunk self.old self.new result }
        ensures order { Rising K.TotalOrder.less (items self.old) → Rising K.TotalOrder.less (items self.new) }
        ensures value { Rising K.TotalOrder.less (items self.old) → Removed K.TotalOrder.less (items self.old) key.now (items self.new) result }
    {
        let i = self.search(key).ok()?;
        let len = self.len;
        let old = self.slots[i].value;
        self.slots.copy_within(i + 1..len, i);
        self.len = len - 1;
        Some(old)
    }

    /// Removes the entries that the test does not keep, and says how many.
    pub fn retain<S: Filter<Entry<K, V>>>(&mut self, test: &mut S) -> usize
        ensures kept { Kept self.old self.new }
        ensures items { items self.new ≡ retained S.Filter.passes S.Filter.noted test.old (items self.old) }
        ensures steady { Steady S.Filter.passes S.Filter.noted → items self.new ≡ filter (S.Filter.passes test.old) (items self.old) }
        ensures test { test.new ≡ fold S.Filter.noted test.old (items self.old) }
        ensures count { result + length (items self.new) ≡ length (items self.old) }
        ensures order { Rising K.TotalOrder.less (items self.old) → Rising K.TotalOrder.less (items self.new) }
    {
        let size = self.size;
        let len = self.len;
        self.len = sweep(self.slots, size, 0, len, test);
        len - self.len
    }

    /// The slots that hold an entry.
    fn entries(&self) -> &[Entry<K, V>]
        ensures value { result.now ≡ items self.now }
        ensures bound { length result.now ≤ capacity self.now }
    {
        let slots = &*self.slots;
        &slots[..self.len]
    }
}
