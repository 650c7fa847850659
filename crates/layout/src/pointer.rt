//! Pointers to the blocks of a file.
ghost use Rattle.std.specs.Prelude.{◌≡◌};
ghost use Rattle.layout.specs.Entries.{pointer_to};

use crate::block::BODY_LEN;
use crate::entry::DIRECT_COUNT;

/// Where the address of a file's block stands: among the direct addresses of its entry, or in its indirect block.
#[derive(Clone, Copy, PartialEq, Eq, Debug)]
pub enum Pointer {
    Direct(usize),
    Indirect(usize),
}

impl Pointer {
    /// The pointer to the block that has this byte of a file.
    pub fn to_byte(at: usize) -> Pointer
        ensures { result ≡ pointer_to at }
    {
        let block = at / BODY_LEN;
        if block < DIRECT_COUNT {
            Pointer::Direct(block)
        } else {
            Pointer::Indirect(block - DIRECT_COUNT)
        }
    }
}
