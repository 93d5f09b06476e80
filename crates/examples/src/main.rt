//! Runs the unsigned examples of DWARF 5's table of LEB128 encodings, and the worked examples.
#![tactic(auto)]

use anyhow::anyhow;
use keys::Key;
use std::io;
use worked_examples::{WorkedExamples, copy_then_overwrite, worked_examples};

/// DWARF 5, section 7.6: the examples of unsigned LEB128 encodings.
const TABLE: [(u64, &[u8]); 5] = [
    (2, &[2]),
    (127, &[127]),
    (128, &[0 + 0x80, 1]),
    (129, &[1 + 0x80, 1]),
    (12857, &[57 + 0x80, 100]),
];

/// Whether `number` is written in exactly these bytes, and read back from them.
fn encodes(number: u64, bytes: &[u8]) -> bool {
    let mut out = [0u8; 10];
    leb128::write(number, &mut out) == Ok(bytes.len())
        && out.starts_with(bytes)
        && leb128::read(bytes) == Ok((number, &[]))
}

fn dwarf_table(rt: &impl Print) -> anyhow::Result<()> {
    for (number, bytes) in TABLE {
        if !encodes(number, bytes) {
            return Err(anyhow!("an encoding differs from the table"));
        }
        println!(rt; "{number} is {bytes:?}")?;
    }
    Ok(())
}

/// The worked examples of this repository.
fn worked(rt: &impl Print) -> io::Result<()> {
    let WorkedExamples {
        written,
        refused,
        covered,
    } = worked_examples();
    println!(rt; "keys written as in the list: {written:?}")?;
    for refusal in refused {
        match refusal {
            Some(refusal) => println!(rt; "{refusal}")?,
            None => println!(rt; "no refusal")?,
        }
    }
    println!(rt; "rounds covered: {covered:?}")
}

/// A copy outlives the bytes that it was read from.
fn copied(rt: &impl Print) -> anyhow::Result<()> {
    let mut bytes = [0x01, 0xAC, 0x02];
    match copy_then_overwrite(&mut bytes) {
        Ok(Key::Finalized { height }) => {
            println!(rt; "copied before the bytes became {bytes:?}: Finalized({height})")?;
            Ok(())
        }
        _ => Err(anyhow!("the copy is not the key that was read")),
    }
}

fn run(rt: &impl Print) -> anyhow::Result<()> {
    dwarf_table(rt)?;
    worked(rt)?;
    copied(rt)
}

fn main(rt: HostRuntime) -> anyhow::Result<()> {
    run(&rt)
}
