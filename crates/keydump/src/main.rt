//! Reads lines of encoded resolver keys, writes each key again, compares it with the one before, and prints what was done.
#![tactic(auto)]

mod dump;
mod line;
mod totals;

use dump::Dump;
use line::{DigestType, EncodedKeys};
use std::io::{BufRead, BufReader};
use totals::{Event, Totals};

/// Goes through the lines of standard input; the answers go to standard output.
fn run(rt: &HostRuntime) -> anyhow::Result<()> {
    let mut totals = Totals::new();
    let mut bytes32: Dump<[u8; 32]> = Dump::new();
    let mut u64s: Dump<u64> = Dump::new();
    for (index, text) in BufReader::new(rt.alloc(), rt.stdin())?
        .split(rt.alloc(), b'\n')
        .enumerate()
    {
        let number = index.saturating_add(1);
        match line::parse(rt.alloc(), text?.as_slice()) {
            Ok(None) => {}
            Ok(Some(EncodedKeys { digest, bytes })) => {
                let name = digest.name();
                println!(rt; "line {number}: {name}")?;
                // The digest type is a value here and a type from here on.
                match digest {
                    DigestType::Bytes32 => bytes32.keys(rt, bytes.as_slice(), &mut totals)?,
                    DigestType::U64 => u64s.keys(rt, bytes.as_slice(), &mut totals)?,
                }
            }
            Err(e) => {
                totals.count(Event::BadLine);
                println!(rt; "line {number}: bad line: {e}")?;
            }
        }
    }
    println!(rt; "{totals}")?;
    Ok(())
}

fn main(rt: HostRuntime) -> anyhow::Result<()> {
    run(&rt)
}
