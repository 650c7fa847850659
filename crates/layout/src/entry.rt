//! Entries of directory blocks: a view of an entry's 72 bytes, and an entry by its values.
ghost use Rattle.std.specs.Prelude.{◌≡◌, ◌↔◌, ◌++◌, length, drop, IsTrue, ◌==◌, Some, codes};
ghost use Rattle.std.specs.Fmt.{decimal};
ghost use Rattle.layout.specs.Numbers.{bytes_at, fit};
ghost use Rattle.layout.specs.Entries.{mode_number, mode_text, ReadsMode, shown, entry_bytes, until_zero, name_of, mode_of, reserved_of, qid_of, version_of, size_of, direct_of, indirect_of, legal_address, legal_addresses, legal_size, legal_name_field, legal_entry};

use crate::block::{ADDRESS_COUNT, BODY_LEN};
use crate::numbers::{get, is_all_zero, nth_number, put, put_all};
use plain::name::is_name;
use std::error::Error;
use std::fmt;

/// The bytes of an entry.
pub const ENTRY_LEN: usize = 72;

/// The bytes of an entry's name, with the zeros after it.
pub const NAME_LEN: usize = 28;

/// The direct addresses of an entry.
pub const DIRECT_COUNT: usize = 6;

/// The most bytes of a file.
pub const FILE_MOST: usize = (DIRECT_COUNT + ADDRESS_COUNT) * BODY_LEN;

/// The most bytes of a directory, which has no indirect block.
pub const DIRECTORY_MOST: usize = DIRECT_COUNT * BODY_LEN;

// Where the fields after the name begin.
const MODE_AT: usize = 28;

const RESERVED_AT: usize = 30;

const QID_AT: usize = 32;

const VERSION_AT: usize = 36;

const SIZE_AT: usize = 40;

const DIRECT_AT: usize = 44;

const INDIRECT_AT: usize = 68;

/// What an entry is of.
#[derive(Clone, Copy, PartialEq, Eq, Debug)]
pub enum Mode {
    File = 0x8000,
    Directory = 0xC000,
}

impl fmt::Display for Mode {
    ghost output = { λ mode. Some (mode_text mode) };

    fn fmt<W: fmt::Write>(&self, f: &mut fmt::Formatter<W>) -> fmt::Result {
        f.write_str(match self {
            Mode::File => "file",
            Mode::Directory => "directory",
        })
    }
}

/// The number that stands for the mode in an entry.
impl From<Mode> for u16 {
    ghost from_gives = { λ mode number. number ≡ mode_number mode };

    fn from(mode: Mode) -> u16 {
        mode as u16
    }
}

/// The number that was read, which stands for no mode.
#[derive(Clone, Copy, PartialEq, Eq, Debug)]
pub struct NoSuchMode(pub u16);

/// The mode that a number stands for.
impl TryFrom<u16> for Mode {
    type Error = NoSuchMode;

    ghost try_from_gives = { ReadsMode };

    fn try_from(number: u16) -> Result<Mode, NoSuchMode> {
        match number {
            0x8000 => Ok(Mode::File),
            0xC000 => Ok(Mode::Directory),
            _ => Err(NoSuchMode(number)),
        }
    }
}

impl fmt::Display for NoSuchMode {
    ghost output = { λ it. Some (decimal it.0 ++ codes " stands for no mode") };

    fn fmt<W: fmt::Write>(&self, f: &mut fmt::Formatter<W>) -> fmt::Result {
        write!(f, "{} stands for no mode", self.0)
    }
}

impl Error for NoSuchMode {}

/// An entry by its values. The name is filled with zeros, and addresses that are not used are 0.
#[derive(Clone, Copy, PartialEq, Eq, Debug)]
pub struct Entry {
    pub name: [u8; NAME_LEN],
    pub mode: Mode,
    pub qid: u32,
    pub version: u32,
    pub size: u32,
    pub direct: [u32; DIRECT_COUNT],
    pub indirect: u32,
}

impl Entry {
    /// Writes the entry into its place, the slice that is lent of the block. An array of it would come by `first_chunk_mut` and an
    /// `unwrap`.
    pub(crate) fn write_to(&self, place: &mut [u8])
        requires { length place.old ≡ 72 }
        ensures { place.new ≡ entry_bytes (shown self.now) }
    {
        place[0..NAME_LEN].copy_from_slice(&self.name);
        put(place, MODE_AT, u16::from(self.mode));
        put(place, RESERVED_AT, 0u16);
        put_all(place, QID_AT, &[self.qid, self.version, self.size]);
        put_all(place, DIRECT_AT, &self.direct);
        put(place, INDIRECT_AT, self.indirect);
    }
}

/// A view of the 72 bytes of an entry.
#[derive(Clone, Copy, PartialEq, Eq, Debug)]
pub struct EntryView<'a> {
    bytes: &'a [u8; ENTRY_LEN],
    // So that the length is known behind a reference too.
    ghost whole: { length bytes.now ≡ 72 },
}

impl<'a> EntryView<'a> {
    pub(crate) fn new(bytes: &'a [u8; ENTRY_LEN]) -> EntryView<'a>
        ensures { result.bytes.now ≡ bytes.now }
    {
        EntryView { bytes }
    }

    // One `get` for each field, since callers ask by name.

    /// The mode's number, and no `Mode`: it is 0 in an empty place, and a place may hold any bytes.
    pub fn mode(&self) -> u16
        ensures { result ≡ mode_of self.now.bytes.now }
    {
        get(self.bytes, MODE_AT)
    }

    pub fn qid(&self) -> u32
        ensures { result ≡ qid_of self.now.bytes.now }
    {
        get(self.bytes, QID_AT)
    }

    pub fn version(&self) -> u32
        ensures { result ≡ version_of self.now.bytes.now }
    {
        get(self.bytes, VERSION_AT)
    }

    pub fn size(&self) -> u32
        ensures { result ≡ size_of self.now.bytes.now }
    {
        get(self.bytes, SIZE_AT)
    }

    /// The i-th direct address, and 0 from 6 on; 0 stands for no address, as in the format.
    pub fn direct(&self, i: usize) -> u32
        ensures { result ≡ direct_of i self.now.bytes.now }
    {
        let bytes = self.bytes;
        nth_number(&bytes[DIRECT_AT..INDIRECT_AT], i)
    }

    /// The address of the indirect block; 0 stands for none, as in the format.
    pub fn indirect(&self) -> u32
        ensures { result ≡ indirect_of self.now.bytes.now }
    {
        get(self.bytes, INDIRECT_AT)
    }

    /// The name, without the zeros after it.
    pub fn name(&self) -> &'a [u8]
        ensures { result.now ≡ name_of self.now.bytes.now }
    {
        let bytes = self.bytes;
        split_at_zero(&bytes[..NAME_LEN]).0
    }

    /// Whether the name is this one.
    pub fn name_is(&self, name: &[u8]) -> bool
        ensures { IsTrue result ↔ (name_of self.now.bytes.now ≡ name.now) }
    {
        self.name() == name
    }

    /// Whether the place is empty, by its mode: that of an empty place is 0, the number of no mode.
    pub fn is_empty(&self) -> bool
        ensures { result ≡ (mode_of self.now.bytes.now == 0) }
    {
        self.mode() == 0
    }

    /// Whether the entry may stand on a shelf of `limit` blocks with this next qid, by what it says alone.
    pub fn is_legal(&self, limit: u32, next_qid: u32) -> bool
        ensures { result ≡ legal_entry limit next_qid self.now.bytes.now }
    {
        let bytes = self.bytes;
        is_all_zero(bytes)
            || (self.size_is_legal()
                && self.name_is_legal()
                && self.reserved() == 0
                && self.qid() < next_qid
                && self.addresses_are_legal(limit))
    }

    /// The bytes after the mode, which an entry has no use for.
    fn reserved(&self) -> u16
        ensures { result ≡ reserved_of self.now.bytes.now }
    {
        get(self.bytes, RESERVED_AT)
    }

    /// Whether the entry is of a file or of a directory, and the size is one that such a thing can have.
    fn size_is_legal(&self) -> bool
        ensures { result ≡ legal_size (mode_of self.now.bytes.now) (size_of self.now.bytes.now) }
    {
        let size = self.size() as usize;
        match Mode::try_from(self.mode()) {
            Ok(Mode::File) => size <= FILE_MOST,
            Ok(Mode::Directory) => size % BODY_LEN == 0 && size <= DIRECTORY_MOST,
            Err(_) => false,
        }
    }

    /// Whether the name is one, with zeros after it.
    fn name_is_legal(&self) -> bool
        ensures { result ≡ legal_name_field (bytes_at 0 28 self.now.bytes.now) }
    {
        let bytes = self.bytes;
        let (name, rest) = split_at_zero(&bytes[..NAME_LEN]);
        is_name(name) && is_all_zero(rest)
    }

    /// Whether the addresses that the size asks for are in range, and the others 0.
    fn addresses_are_legal(&self, limit: u32) -> bool
        ensures { result ≡ legal_addresses limit self.now.bytes.now }
    {
        let blocks = (self.size() as usize).div_ceil(BODY_LEN);
        (0..DIRECT_COUNT).all(|i| address_is_legal(limit, i < blocks, self.direct(i)))
            && address_is_legal(limit, DIRECT_COUNT < blocks, self.indirect())
    }
}

/// Whether an address is in range, if it is used, and else 0. The size says whether it is used; nothing keeps that with the
/// address.
fn address_is_legal(limit: u32, used: bool, address: u32) -> bool
    ensures { result ≡ legal_address limit used address }
{
    if used {
        (2..limit).contains(&address)
    } else {
        address == 0
    }
}

/// A name as it stands in an entry: cut to 28 bytes, or filled with zeros.
pub fn name_field(name: &[u8]) -> [u8; NAME_LEN]
    ensures { result ≡ fit 28 0 name.now }
{
    let mut field = [0; NAME_LEN];
    let len = name.len().min(NAME_LEN);
    field[..len].copy_from_slice(&name[..len]);
    field
}

/// The bytes before the first zero, and the others.
fn split_at_zero(bytes: &[u8]) -> (&[u8], &[u8])
    ensures front { result.0.now ≡ until_zero bytes.now }
    ensures back { result.1.now ≡ drop (length (until_zero bytes.now)) bytes.now }
{
    let zero = bytes.iter().position(|byte| *byte == 0);
    bytes.split_at(zero.unwrap_or(bytes.len()))
}
