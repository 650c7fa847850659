//! Keeps the blend table of one seam on a pile of discs, and prints each thing that it does.
#![tactic(auto)]

mod dump;
mod pile;
mod reading;
mod seam;

use device::fault::{BLOCK_LEN, DeviceFault};
use device::interface::Device;
use seam::{Part, TABLE_BLOCKS};
use std::{fmt, io};

fn main(rt: HostRuntime) -> io::Result<()> {
    println!(rt; "Perjusk keeps the blend table of one seam on a pile of discs.")?;
    let mut pile = pile::build(rt.alloc(), &rt)?;
    store(&rt, &mut pile)?;
    show_refusals(&rt, &mut pile)?;
    read_back(&rt, &mut pile)?;
    dump::lay_out(&rt, &mut pile)?;
    reading::show_tree(&rt, &mut pile)?;
    pile::take_apart(&rt, pile)
}

/// Where the table lies on the pile.
pub(crate) const TABLE: u32 = 16;

// The runtime is a handle, and is passed on beside the pile as it is: a struct of the two would be no plainer. Nor would one of a
// block's part and its place on the pile, which are worked out together.

/// Writes the table, block by block.
fn store<D: Device>(rt: &impl Print, pile: &mut D) -> io::Result<()> {
    for block in 0..TABLE_BLOCKS {
        let part = Part::of_block(block);
        let at = TABLE + block;
        let written = pile.write(at, &part.levels());
        report(rt, format_args!("write block {at}, {part}"), written)?;
    }
    Ok(())
}

/// Prints what came of a write.
pub(crate) fn report<T: fmt::Display + Drop>(
    rt: &impl Print,
    what: T,
    answer: Result<(), DeviceFault>,
) -> io::Result<()> {
    match answer {
        Ok(()) => println!(rt; "{what}: done"),
        Err(fault) => println!(rt; "{what}: {fault}"),
    }
}

/// Asks for what the pile refuses.
fn show_refusals<D: Device>(rt: &impl Print, pile: &mut D) -> io::Result<()> {
    let mut buf = [0; BLOCK_LEN];
    if let Err(fault) = pile.write(TABLE, &buf) {
        println!(rt; "write block {TABLE} again: {fault}")?;
    }
    if let Err(fault) = pile.read(0, &mut buf) {
        println!(rt; "read block 0, which was never written: {fault}")?;
    }
    if let Err(fault) = pile.read(pile.size(), &mut buf) {
        println!(rt; "read one block past the end: {fault}")?;
    }
    if let Err(fault) = pile.write(0, b"half a block") {
        println!(rt; "write 12 bytes: {fault}")?;
    }
    Ok(())
}

/// Reads the table through the damaged pile and compares it with what was written.
fn read_back<D: Device>(rt: &impl Print, pile: &mut D) -> io::Result<()> {
    // Counted here, since each block is also printed.
    let mut same = 0u32;
    for block in 0..TABLE_BLOCKS {
        let part = Part::of_block(block);
        let at = TABLE + block;
        match part.is_in(pile, at) {
            Ok(true) => {
                same = same.saturating_add(1);
                println!(rt; "read block {at}, {part}: as written")?;
            }
            Ok(false) => println!(rt; "read block {at}, {part}: not as written")?,
            Err(fault) => println!(rt; "read block {at}, {part}: {fault}")?,
        }
    }
    println!(rt; "{same} of {TABLE_BLOCKS} blocks read back as they were written")
}
