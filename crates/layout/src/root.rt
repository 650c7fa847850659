//! The root block of a new tree.
ghost use Rattle.std.specs.Prelude.{◌≡◌};
ghost use Rattle.layout.specs.Entries.{root_block};

use crate::block::{Tag, new_block, write_entry};
use crate::entry::{DIRECT_COUNT, Entry, Mode, name_field};
use device::fault::BLOCK_LEN;

/// The root block of a new tree: the entry of "/", a directory without blocks, and six empty places.
pub fn root_block() -> [u8; BLOCK_LEN]
    ensures { result ≡ root_block }
{
    let mut bytes = new_block(Tag::Directory, 0);
    let root = Entry {
        name: name_field(b"/"),
        mode: Mode::Directory,
        qid: 1,
        version: 0,
        size: 0,
        direct: [0; DIRECT_COUNT],
        indirect: 0,
    };
    write_entry(&mut bytes, 0, &root).unwrap();
    bytes
}
