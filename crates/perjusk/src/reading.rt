//! Reads a dump through the views of its blocks alone, and prints the tree that it finds.
ghost use Rattle.std.specs.Prelude.{◌≤◌};

use crate::dump::SUPER;
use device::fault::BLOCK_LEN;
use device::interface::Device;
use layout::block::{BODY_LEN, BlockView, ENTRY_COUNT};
use layout::entry::{DIRECT_COUNT, EntryView, Mode};
use layout::pointer::Pointer;
use layout::super_block::Super;
use std::{io, str};

// Each of these reads a block, or says in its own words why it can't and returns: a helper would save no line.

/// Follows the first super to its tree, of "/" and the files in it, and prints a line for each thing found.
pub(crate) fn show_tree<D: Device>(rt: &impl Print, pile: &mut D) -> io::Result<()> {
    let mut bytes = [0; BLOCK_LEN];
    if let Err(fault) = pile.read(SUPER, &mut bytes) {
        return println!(rt; "super: {fault}");
    }
    let view = BlockView::new(&bytes);
    if !view.is_legal_super() {
        return println!(rt; "block {SUPER} is no super");
    }
    let Super {
        number,
        date,
        root,
        next_qid,
        ..
    } = Super::from(view);
    println!(rt; "super {number} of {date}: root block {root}, next qid {next_qid}")?;
    if let Err(fault) = pile.read(root, &mut bytes) {
        return println!(rt; "root block: {fault}");
    }
    let entry = BlockView::new(&bytes).entry(0);
    show_entry(rt, entry)?;
    let addresses = (0..DIRECT_COUNT).map(|i| entry.direct(i));
    for address in addresses.filter(|&address| address != 0) {
        show_directory(rt, pile, address, next_qid)?;
    }
    Ok(())
}

/// Prints the entries of a directory block, and of each file what is in its blocks.
fn show_directory<D: Device>(
    rt: &impl Print,
    pile: &mut D,
    address: u32,
    next_qid: u32,
) -> io::Result<()> {
    let mut bytes = [0; BLOCK_LEN];
    if let Err(fault) = pile.read(address, &mut bytes) {
        return println!(rt; "directory block {address}: {fault}");
    }
    let view = BlockView::new(&bytes);
    // By number, which is printed.
    for k in 0..ENTRY_COUNT {
        let entry = view.entry(k);
        if !entry.is_legal(pile.size(), next_qid) {
            println!(rt; "place {k} of block {address} has no legal entry")?;
        } else if !entry.is_empty() {
            show_entry(rt, entry)?;
            show_file(rt, pile, entry)?;
        }
    }
    Ok(())
}

/// Prints what an entry says.
fn show_entry(rt: &impl Print, entry: EntryView<'_>) -> io::Result<()> {
    let name = str::from_utf8(entry.name()).unwrap_or("of no text");
    let mode = Mode::try_from(entry.mode()).unwrap_or(Mode::File);
    let qid = entry.qid();
    let version = entry.version();
    let size = entry.size();
    println!(rt; "{mode} {name}: qid {qid}, version {version}, {size} bytes")
}

/// Prints a line for each block of a file, as the pointers lead to it.
fn show_file<D: Device>(rt: &impl Print, pile: &mut D, entry: EntryView<'_>) -> io::Result<()> {
    let mut indirect = [0; BLOCK_LEN];
    let address = entry.indirect();
    if address != 0 {
        if let Err(fault) = pile.read(address, &mut indirect) {
            return println!(rt; "  indirect block {address}: {fault}");
        }
        let view = BlockView::new(&indirect);
        let tag = view.tag();
        let owner = view.owner();
        println!(rt; "  indirect block {address}: tag {tag}, owner {owner}")?;
    }
    let size = entry.size() as usize;
    for at in (0..size).step_by(BODY_LEN) {
        let address = match Pointer::to_byte(at) {
            Pointer::Direct(i) => entry.direct(i),
            Pointer::Indirect(j) => BlockView::new(&indirect).address(j),
        };
        show_data(rt, pile, address, (size - at).min(BODY_LEN))?;
    }
    Ok(())
}

/// Prints what the first bytes of a file's block are: levels of a field.
fn show_data<D: Device>(rt: &impl Print, pile: &mut D, address: u32, len: usize) -> io::Result<()>
    requires { len ≤ 504 }
{
    let mut bytes = [0; BLOCK_LEN];
    if let Err(fault) = pile.read(address, &mut bytes) {
        return println!(rt; "  block {address}: {fault}");
    }
    let view = BlockView::new(&bytes);
    let tag = view.tag();
    let owner = view.owner();
    let levels = &bytes[0..len];
    let low = levels.iter().copied().min().unwrap_or(0);
    let high = levels.iter().copied().max().unwrap_or(0);
    println!(rt; "  block {address}: tag {tag}, owner {owner}, {len} bytes, levels {low} to {high}")
}
