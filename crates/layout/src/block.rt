//! Blocks: new ones, a view of a block's 512 bytes, and writers of single entries and addresses.
ghost use Rattle.std.specs.Prelude.{◌≡◌, ◌*◌, replicate, if◌then◌else◌, nat_lt, is_ok, Some, codes};
ghost use Rattle.layout.specs.Numbers.{bytes32, patched};
ghost use Rattle.layout.specs.Blocks.{tag_number, pad_of, tag_of, owner_of, legal_pad, block, address_of};
ghost use Rattle.layout.specs.Entries.{shown, empty_entry, entry_bytes, entry_at};
ghost use Rattle.layout.specs.Supers.{legal_super};

use crate::entry::{ENTRY_LEN, Entry, EntryView};
use crate::numbers::{get, nth_number, put};
use crate::super_block::NUMBERS_LEN;
use device::fault::BLOCK_LEN;
use std::error::Error;
use std::fmt;

/// The bytes of a block's body, which come first.
pub const BODY_LEN: usize = 504;

/// The entries of a directory block.
pub const ENTRY_COUNT: usize = 7;

/// The addresses of an indirect block.
pub const ADDRESS_COUNT: usize = 126;

// Where a block's pad, its tag and its owner begin.
const PAD_AT: usize = 504;

const TAG_AT: usize = 506;

const OWNER_AT: usize = 508;

/// The bytes of an empty place.
static EMPTY_PLACE: [u8; ENTRY_LEN] = [0; ENTRY_LEN];

/// What a block is for.
#[derive(Clone, Copy, PartialEq, Eq, Debug)]
pub enum Tag {
    Super = 1,
    Directory = 2,
    Indirect = 3,
    File = 5,
}

/// The number that stands for the tag in a block.
impl From<Tag> for u16 {
    ghost from_gives = { λ tag number. number ≡ tag_number tag };

    fn from(tag: Tag) -> u16 {
        tag as u16
    }
}

/// Past the last entry of a directory block, which has seven, or the last address of an indirect block, which has 126.
#[derive(Clone, Copy, PartialEq, Eq, Debug)]
pub struct PastLast;

impl fmt::Display for PastLast {
    ghost output = { λ _. Some (codes "past the last entry or address of the block") };

    fn fmt<W: fmt::Write>(&self, f: &mut fmt::Formatter<W>) -> fmt::Result {
        f.write_str("past the last entry or address of the block")
    }
}

impl Error for PastLast {}

/// A block with this tag and owner, and nothing but zeros in its body.
pub fn new_block(tag: Tag, owner: u32) -> [u8; BLOCK_LEN]
    ensures { result ≡ block (tag_number tag) owner (replicate 504 0) }
{
    let mut bytes = [0u8; BLOCK_LEN];
    put(&mut bytes, TAG_AT, u16::from(tag));
    put(&mut bytes, OWNER_AT, owner);
    bytes
}

// Each writer tests its own limit, in one line: a helper would have to lend the bytes on, and each caller to say how they come
// back.

/// Writes the k-th entry of a directory block. From 7 on there is none, and nothing changes.
pub fn write_entry(bytes: &mut [u8; BLOCK_LEN], k: usize, entry: &Entry) -> Result<(), PastLast>
    ensures done { is_ok result ≡ nat_lt k 7 }
    ensures after { bytes.new ≡ (if is_ok result then patched (72 * k) (entry_bytes (shown entry.now)) bytes.old else bytes.old) }
{
    if k >= ENTRY_COUNT {
        return Err(PastLast);
    }
    entry.write_to(&mut bytes[ENTRY_LEN * k..ENTRY_LEN * k + ENTRY_LEN]);
    Ok(())
}

/// Makes the k-th place of a directory block empty. From 7 on there is none, and nothing changes.
pub fn clear_entry(bytes: &mut [u8; BLOCK_LEN], k: usize) -> Result<(), PastLast>
    ensures done { is_ok result ≡ nat_lt k 7 }
    ensures after { bytes.new ≡ (if is_ok result then patched (72 * k) (entry_bytes empty_entry) bytes.old else bytes.old) }
{
    if k >= ENTRY_COUNT {
        return Err(PastLast);
    }
    bytes[ENTRY_LEN * k..ENTRY_LEN * k + ENTRY_LEN].fill(0);
    Ok(())
}

/// Writes the j-th address of an indirect block. From 126 on there is none, and nothing changes.
pub fn write_address(bytes: &mut [u8; BLOCK_LEN], j: usize, address: u32) -> Result<(), PastLast>
    ensures done { is_ok result ≡ nat_lt j 126 }
    ensures after { bytes.new ≡ (if is_ok result then patched (4 * j) (bytes32 address) bytes.old else bytes.old) }
{
    if j >= ADDRESS_COUNT {
        return Err(PastLast);
    }
    put(bytes, 4 * j, address);
    Ok(())
}

/// A view of the 512 bytes of a block, whatever they hold.
#[derive(Clone, Copy, PartialEq, Eq, Debug)]
pub struct BlockView<'a> {
    pub(crate) bytes: &'a [u8; BLOCK_LEN],
}

impl<'a> BlockView<'a> {
    pub fn new(bytes: &'a [u8; BLOCK_LEN]) -> BlockView<'a>
        ensures { result.bytes.now ≡ bytes.now }
    {
        BlockView { bytes }
    }

    pub fn pad(&self) -> u16
        ensures { result ≡ pad_of self.now.bytes.now }
    {
        get(self.bytes, PAD_AT)
    }

    /// The tag's number, and no `Tag`, since a block may hold any bytes.
    pub fn tag(&self) -> u16
        ensures { result ≡ tag_of self.now.bytes.now }
    {
        get(self.bytes, TAG_AT)
    }

    pub fn owner(&self) -> u32
        ensures { result ≡ owner_of self.now.bytes.now }
    {
        get(self.bytes, OWNER_AT)
    }

    /// Whether the pad is one that a block may have.
    pub fn pad_is_legal(&self) -> bool
        ensures { result ≡ legal_pad (pad_of self.now.bytes.now) }
    {
        self.pad() == 0
    }

    // `let bytes` reads the reference first: the check does not cover a slice of `self.bytes`.

    /// The k-th entry of a directory block, and from 7 on an empty place.
    pub fn entry(&self, k: usize) -> EntryView<'a>
        ensures { result.bytes.now ≡ entry_at k self.now.bytes.now }
    {
        let bytes = self.bytes;
        let (entries, _) = bytes[..BODY_LEN].as_chunks::<ENTRY_LEN>();
        EntryView::new(entries.get(k).unwrap_or(&EMPTY_PLACE))
    }

    /// The j-th address of an indirect block, and 0 from 126 on; 0 stands for no address, as in the format.
    pub fn address(&self, j: usize) -> u32
        ensures { result ≡ address_of j self.now.bytes.now }
    {
        let bytes = self.bytes;
        nth_number(&bytes[..BODY_LEN], j)
    }

    /// Whether the block is a super, whatever its numbers are. The tag is compared as a number: one is asked for, and a block may
    /// hold any. The bytes behind the numbers are compared with zeros: a test of each takes four times as long.
    pub fn is_legal_super(&self) -> bool
        ensures { result ≡ legal_super self.now.bytes.now }
    {
        let bytes = self.bytes;
        self.pad_is_legal()
            && self.tag() == u16::from(Tag::Super)
            && self.owner() == 0
            && bytes[NUMBERS_LEN..BODY_LEN] == [0; BODY_LEN - NUMBERS_LEN]
    }
}
