//! Why the server refuses a call. A refusal of a device below is kept whole.
ghost use Rattle.std.specs.Prelude.{◌≡◌};
ghost use Rattle.plain.specs.declared.fault.TreeFault.TheVariants.{Device};

use device::fault::DeviceFault;

/// Why the server refused a call. `docs/REFUSALS.md` has the number of each case.
#[derive(Clone, Copy, PartialEq, Eq, Debug)]
pub enum TreeFault {
    /// The path is malformed.
    MalformedPath,
    /// A change while the session has a date.
    DatedChange,
    /// There is no dump of the date.
    NoSuchDump,
    /// A name is missing, or a file stands before the last name.
    NotFound,
    /// A file where a directory is due or the reverse, or a removal of "/".
    WrongKind,
    /// A make of a name that is present, or of "/".
    Exists,
    /// A write of 0 or over 504 bytes, past the end, or ending above 66,528; a place above 41.
    BadRange,
    /// A make in a directory of 42 names.
    DirectoryFull,
    /// A removal of a directory with names.
    NotEmpty,
    /// A make while the next qid is the last number of 32 bits.
    OutOfQids,
    /// The cache has no slot left for the change.
    CacheFull,
    /// The shelf has too few blank blocks left.
    ShelfFull,
    /// A dump while a super waits to be written.
    DumpWaiting,
    /// The date is not above that of the last dump that is not lost.
    DateNotAfter,
    /// A carry with no super waiting.
    NothingWaiting,
    /// A recovery with no super on the shelf.
    NoSuper,
    /// The cache and the shelf do not make a pair that can be opened.
    UnfitPair,
    /// A check failed at the block of this address; `below` says why, if it could not be read.
    Check {
        address: u32,
        below: Option<DeviceFault>,
    },
    /// A device refused what it should have taken.
    Device(DeviceFault),
}

impl From<DeviceFault> for TreeFault {
    ghost from_gives = { λ d t. t ≡ Device d };

    fn from(fault: DeviceFault) -> TreeFault {
        TreeFault::Device(fault)
    }
}
