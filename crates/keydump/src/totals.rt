//! What was done.
ghost use Rattle.std.specs.Prelude.{◌≡◌, replicate};
ghost use Rattle.keydump.specs.Counts.{place_of, counted};

use std::fmt;

#[derive(Clone, Copy, Debug, PartialEq, Eq)]
pub enum Event {
    Key,
    WrittenAsRead,
    Less,
    Equal,
    Greater,
    Refusal,
    BadLine,
}

/// How often each thing happened. A count stops at the highest number.
#[derive(Drop)]
pub struct Totals {
    // By an event's place in its enum: with a field for each, `count` would name every event again.
    counts: [u64; 7],
}

impl Totals {
    pub fn new() -> Totals
        ensures { result.counts ≡ replicate 7 0 }
    {
        Totals { counts: [0; 7] }
    }

    pub fn count(&mut self, event: Event)
        ensures { self.new.counts ≡ counted self.old.counts (place_of event) }
    {
        let count = &mut self.counts[event as usize];
        *count = count.saturating_add(1);
    }
}

impl fmt::Display for Totals {
    fn fmt<W: fmt::Write>(&self, f: &mut fmt::Formatter<W>) -> fmt::Result {
        let [keys, as_read, less, equal, greater, refusals, bad_lines] = self.counts;
        write!(
            f,
            "total: keys read {keys}, written as read {as_read}; compared: less {less}, equal {equal}, greater {greater}; refusals {refusals}, bad lines {bad_lines}"
        )
    }
}
