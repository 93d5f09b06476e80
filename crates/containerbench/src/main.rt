//! How fast the queue and the table are at several sizes: with a number of rounds as its argument it prints rates, without one only what does not vary.
#![tactic(auto)]

use anyhow::anyhow;
use memory::Memory;
use queue::{MOST_SLOTS, Queue, QueueMemory};
use std::env;
use std::time::Instant;
use table::{Entry, Table};

/// How many rounds there are where no number is given.
const FEW: u64 = 1_000;

const QUEUE_SIZES: [usize; 3] = [64, 512, MOST_SLOTS];

const TABLE_SIZES: [usize; 3] = [64, 512, 1024];

// The loops count entries, keys and rounds, and no places in a slice.

/// Fills a queue, and then takes the first entry and adds one behind in each round. The answer is a sum of what was taken.
fn turn_queue(slots: &mut [u64], rounds: u64) -> Option<u64> {
    let size = slots.len();
    let memory: QueueMemory<'_, u64> = Memory::check(slots, size).ok()?;
    let mut queue = Queue::new(memory);
    for i in 0..size as u64 {
        queue.push_back(i).ok()?;
    }
    let mut sum = 0u64;
    for i in 0..rounds {
        let entry = queue.pop_front()?;
        sum = sum.wrapping_add(entry ^ i);
        queue.push_back(entry.wrapping_mul(31)).ok()?;
    }
    Some(sum)
}

/// The `i`-th key: numbers of all sizes, not in order.
fn key_at(i: u64) -> u64 {
    i.wrapping_mul(0x9E37_79B9_7F4A_7C15)
}

/// Fills a table, and then looks up, removes and inserts a key in each round. The answer is a sum of what was found.
fn turn_table(slots: &mut [Entry<u64, u64>], rounds: u64) -> Option<u64> {
    let size = slots.len();
    let memory: Memory<'_, Entry<u64, u64>, 1, 1024> = Memory::check(slots, size).ok()?;
    let mut table = Table::new(memory);
    for i in 0..size as u64 {
        table.insert(key_at(i), i).ok()?;
    }
    let mut sum = 0u64;
    for i in 0..rounds {
        let key = key_at(i.checked_rem(size as u64)?);
        sum = sum.wrapping_add(table.get(&key)?);
        let value = table.remove(&key)?;
        table.insert(key, value ^ i).ok()?;
    }
    Some(sum)
}

/// Prints a line, with the rate where there is one.
fn report(
    rt: &HostRuntime,
    what: &str,
    size: usize,
    rounds: u64,
    sum: u64,
    rate: Option<u128>,
) -> anyhow::Result<()> {
    match rate {
        None => println!(rt; "{what} of {size}: {rounds} rounds, sum {sum}")?,
        Some(rate) => {
            println!(rt; "{what} of {size}: {rounds} rounds, sum {sum}, {rate} rounds per second")?
        }
    }
    Ok(())
}

/// Rounds for each second since `start`, where a rate is wanted.
fn rate(
    rt: &HostRuntime,
    start: &Instant,
    rounds: u64,
    timed: bool,
) -> anyhow::Result<Option<u128>> {
    if !timed {
        return Ok(None);
    }
    let nanos = start.elapsed(rt)?.as_nanos().max(1);
    Ok(Some(u128::from(rounds) * 1_000_000_000 / nanos))
}

fn run(rt: &HostRuntime) -> anyhow::Result<()> {
    let given = env::args(rt)?.nth(1);
    let given: Option<u64> = given.map(|text| text.as_str().parse()).transpose()?;
    let timed = given.is_some();
    let rounds = given.unwrap_or(FEW);
    for size in QUEUE_SIZES {
        let mut slots = vec![in rt.alloc(); 0u64; size]?;
        let start = Instant::now(rt)?;
        let Some(sum) = turn_queue(slots.as_mut_slice(), rounds) else {
            return Err(anyhow!("the queue did not take what it gave"));
        };
        let rate = rate(rt, &start, rounds, timed)?;
        report(rt, "queue", size, rounds, sum, rate)?;
    }
    for size in TABLE_SIZES {
        let mut slots = vec![in rt.alloc(); Entry {
            key: 0u64,
            value: 0u64
        }; size]?;
        let start = Instant::now(rt)?;
        let Some(sum) = turn_table(slots.as_mut_slice(), rounds) else {
            return Err(anyhow!("the table did not hold what it was given"));
        };
        let rate = rate(rt, &start, rounds, timed)?;
        report(rt, "table", size, rounds, sum, rate)?;
    }
    Ok(())
}

fn main(rt: HostRuntime) -> anyhow::Result<()> {
    run(&rt)
}
