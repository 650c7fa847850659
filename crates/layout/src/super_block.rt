//! Supers by their values.
ghost use Rattle.std.specs.Prelude.{◌≡◌};
ghost use Rattle.layout.specs.Supers.{super_block, super_of};

use crate::block::{BlockView, Tag, new_block};
use crate::numbers::{get, put_all};
use device::fault::BLOCK_LEN;

/// The bytes of the six numbers, with which the body begins.
pub(crate) const NUMBERS_LEN: usize = 24;

/// What a super says.
#[derive(Clone, Copy, PartialEq, Eq, Debug)]
pub struct Super {
    /// How many supers come before this one.
    pub number: u32,
    pub date: u32,
    /// The address of the root block.
    pub root: u32,
    /// The address of the super before this one, and 0 of the first.
    pub previous: u32,
    /// The address of the super after this one.
    pub next: u32,
    pub next_qid: u32,
}

impl Super {
    /// The block that says it. As a conversion, a call would read `<[u8; BLOCK_LEN]>::from(..)`.
    pub fn to_block(&self) -> [u8; BLOCK_LEN]
        ensures { result ≡ super_block self.now }
    {
        let mut bytes = new_block(Tag::Super, 0);
        put_all(
            &mut bytes,
            0,
            &[
                self.number,
                self.date,
                self.root,
                self.previous,
                self.next,
                self.next_qid,
            ],
        );
        bytes
    }
}

/// What a block says as a super, whether it is one or not.
impl From<BlockView<'_>> for Super {
    ghost from_gives = { λ view says. says ≡ super_of view.bytes.now };

    fn from(view: BlockView<'_>) -> Super {
        let bytes = view.bytes;
        Super {
            number: get(bytes, 0),
            date: get(bytes, 4),
            root: get(bytes, 8),
            previous: get(bytes, 12),
            next: get(bytes, 16),
            next_qid: get(bytes, 20),
        }
    }
}
