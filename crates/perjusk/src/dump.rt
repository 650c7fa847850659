//! A small dump, laid out by hand: the blocks of one file, which holds the table, its indirect block, a directory block, a root block
//! and a super.
ghost use Rattle.std.specs.Prelude.{◌<◌};

use crate::report;
use crate::seam::{TABLE_LEN, table_level};
use device::fault::{BLOCK_LEN, DeviceFault};
use device::interface::Device;
use layout::block::{BODY_LEN, Tag, new_block, write_address, write_entry};
use layout::entry::{Entry, Mode, name_field};
use layout::root::root_block;
use layout::super_block::Super;
use std::io;

/// The day of the dump.
const DATE: u32 = 20_260_331;

/// The address of the first super, on every shelf.
pub(crate) const SUPER: u32 = 1;

const ROOT: u32 = 2;

const DIRECTORY: u32 = 3;

const INDIRECT: u32 = 4;

/// The address of the file's first block; the others follow.
const DATA: u32 = 5;

/// The address that is kept for the next super.
const NEXT_SUPER: u32 = 14;

/// The blocks of the file: six that its entry names, and three that its indirect block does.
const FILE_BLOCKS: u32 = 9;

/// The qids of the directory "/" and of the file.
const ROOT_QID: u32 = 1;

const FILE_QID: u32 = 2;

const NEXT_QID: u32 = 3;

/// Writes the dump onto the pile, the super last, and prints a line for each part.
pub(crate) fn lay_out<D: Device>(rt: &impl Print, pile: &mut D) -> io::Result<()> {
    report(
        rt,
        "dump by hand, blocks 5 to 13, the file blend",
        write_data(pile),
    )?;
    let indirect = pile.write(INDIRECT, &indirect_block());
    report(rt, "dump by hand, block 4, its indirect block", indirect)?;
    let mut bytes = new_block(Tag::Directory, ROOT_QID);
    write_entry(&mut bytes, 0, &file_entry()).unwrap();
    let directory = pile.write(DIRECTORY, &bytes);
    report(rt, "dump by hand, block 3, the directory block", directory)?;
    bytes = root_block();
    write_entry(&mut bytes, 0, &root_entry()).unwrap();
    let root = pile.write(ROOT, &bytes);
    report(rt, "dump by hand, block 2, the root block", root)?;
    let first = Super {
        number: 0,
        date: DATE,
        root: ROOT,
        previous: 0,
        next: NEXT_SUPER,
        next_qid: NEXT_QID,
    };
    let done = pile.write(SUPER, &first.to_block());
    report(rt, "dump by hand, block 1, the super", done)
}

/// Writes the blocks of the file.
fn write_data<D: Device>(pile: &mut D) -> Result<(), DeviceFault> {
    for j in 0..FILE_BLOCKS {
        pile.write(DATA + j, &file_block(j as usize))?;
    }
    Ok(())
}

/// The j-th block of the file; after the table's end it is zero.
fn file_block(j: usize) -> [u8; BLOCK_LEN]
    requires { j < 9 }
{
    let mut bytes = new_block(Tag::File, FILE_QID);
    let levels = (BODY_LEN * j..TABLE_LEN).map(table_level);
    for (byte, level) in bytes.iter_mut().take(BODY_LEN).zip(levels) {
        *byte = level;
    }
    bytes
}

/// The file's indirect block.
fn indirect_block() -> [u8; BLOCK_LEN] {
    let mut bytes = new_block(Tag::Indirect, FILE_QID);
    let addresses = [DATA + 6, DATA + 7, DATA + 8];
    for (j, address) in addresses.iter().enumerate() {
        write_address(&mut bytes, j, *address).unwrap();
    }
    bytes
}

/// The file's entry.
fn file_entry() -> Entry {
    Entry {
        name: name_field(b"blend"),
        mode: Mode::File,
        qid: FILE_QID,
        version: 0,
        size: TABLE_LEN as u32,
        direct: [DATA, DATA + 1, DATA + 2, DATA + 3, DATA + 4, DATA + 5],
        indirect: INDIRECT,
    }
}

/// The entry of "/", with one block, written out as the rest of the dump is.
fn root_entry() -> Entry {
    Entry {
        name: name_field(b"/"),
        mode: Mode::Directory,
        qid: ROOT_QID,
        version: 0,
        size: BODY_LEN as u32,
        direct: [DIRECTORY, 0, 0, 0, 0, 0],
        indirect: 0,
    }
}
