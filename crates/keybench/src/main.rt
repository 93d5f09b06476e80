//! How fast keys are written and read: with a count as its argument it prints rates, without one only what does not vary.
#![tactic(auto)]

ghost use Rattle.std.specs.Prelude.{◌≡◌, ◌≤◌, length, IfOk};

use anyhow::anyhow;
use digests::Digest;
use keys::{Key, Reader};
use order::Equality;
use refusals::WriteError;
use std::env;
use std::time::{Duration, Instant};
use types::{Epoch, Height, Round, View};

/// The longest key: a tag and a digest of 32 bytes.
const LONGEST: usize = 33;

/// How many keys there are where no count is given.
const FEW: usize = 3_000;

/// The most keys that are written at once.
const MANY: usize = 10_000_000;

/// The key number `i`: the three kinds in turn, with numbers of all sizes.
fn key_at(i: u64) -> Key<[u8; 32]> {
    let n = i.wrapping_mul(0x9E37_79B9_7F4A_7C15) >> (i % 64);
    match i % 3 {
        0 => Key::Block([(n % 256) as u8; 32]),
        1 => Key::Finalized {
            height: Height::new(n),
        },
        _ => Key::Notarized {
            round: Round::new(Epoch::new(n % 1_000), View::new(n)),
        },
    }
}

/// Writes `count` keys one after another, and answers how many bytes that took.
fn write_keys(out: &mut [u8], count: usize) -> Result<usize, WriteError>
    ensures { IfOk result (λ n. n ≤ length out.old) }
{
    let mut place = 0;
    // `i` is the number of a key, and no place in a slice.
    for i in 0..count as u64 {
        place += key_at(i).write(&mut out[place..])?;
    }
    Ok(place)
}

/// Reads the keys in `bytes`, and answers how many there are, and how many are those that were written.
fn read_keys(bytes: &[u8]) -> (u64, u64) {
    let mut reader = Reader::new(bytes);
    let mut key = key_at(0);
    let mut read = 0;
    let mut equal = 0;
    while !reader.is_empty() && reader.next(&mut key).is_ok() {
        if key.equals(&key_at(read)) {
            equal += 1;
        }
        read += 1;
    }
    (read, equal)
}

/// Keys for each second.
fn rate(keys: u64, time: Duration) -> u128 {
    let nanos = time.as_nanos().max(1);
    u128::from(keys) * 1_000_000_000 / nanos
}

/// The count that is given as the first argument.
fn count(rt: &HostRuntime) -> anyhow::Result<Option<usize>> {
    let given = env::args(rt)?.nth(1);
    Ok(given.map(|text| text.as_str().parse()).transpose()?)
}

fn run(rt: &HostRuntime) -> anyhow::Result<()> {
    let given = count(rt)?;
    let count = given.unwrap_or(FEW);
    if count > MANY {
        return Err(anyhow!("at most 10,000,000 keys"));
    }
    let mut out = vec![in rt.alloc(); 0u8; count * LONGEST]?;
    let start = Instant::now(rt)?;
    let Ok(size) = write_keys(out.as_mut_slice(), count) else {
        return Err(anyhow!("the keys did not fit"));
    };
    let writing = start.elapsed(rt)?;
    let start = Instant::now(rt)?;
    let (keys, equal) = read_keys(&out.as_slice()[0..size]);
    let reading = start.elapsed(rt)?;
    println!(rt; "{count} keys written in {size} bytes, {keys} read, {equal} as written")?;
    if given.is_some() {
        let written = rate(count as u64, writing);
        let read = rate(keys, reading);
        println!(rt; "written per second {written}, read and compared per second {read}")?;
    }
    Ok(())
}

fn main(rt: HostRuntime) -> anyhow::Result<()> {
    run(&rt)
}
