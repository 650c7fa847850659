//! Why a device refuses a read or a write, and the two refusals that come before the block is looked at.
ghost use Rattle.std.specs.Prelude.{◌≡◌, Some};
ghost use Rattle.device.specs.Refusals.{shown, told, admission, text_of};

use std::error::Error;
use std::fmt;

/// The bytes of a block.
pub const BLOCK_LEN: usize = 512;

/// Where a block lies, or was sought: a device's label and a block number there.
#[derive(Clone, Copy, PartialEq, Eq, Debug)]
pub struct Place {
    pub label: u8,
    pub block: u32,
}

/// Why a device refused a read or a write. The place of the first two is the device asked and the block given; that of the others
/// is where the block lies. A struct of the place and of an enum without it would be no plainer: each match would name both.
#[derive(Clone, Copy, PartialEq, Eq, Debug)]
pub enum DeviceFault {
    /// The buffer is not 512 bytes long.
    BadBuffer { place: Place },
    /// The block is at or past the device's size.
    PastEnd { place: Place },
    /// A read of a blank block.
    Blank { place: Place },
    /// A write of a held block on a write-once device.
    AlreadyHeld { place: Place },
    /// The block is spoiled.
    Spoiled { place: Place },
}

impl DeviceFault {
    /// The refusal's number in docs/REFUSALS.md, as it is printed and handed back. Code goes by the case.
    pub fn number(self) -> u8
        ensures { result ≡ (shown self).number }
    {
        match self {
            DeviceFault::BadBuffer { .. } => 1,
            DeviceFault::PastEnd { .. } => 2,
            DeviceFault::Blank { .. } => 3,
            DeviceFault::AlreadyHeld { .. } => 4,
            DeviceFault::Spoiled { .. } => 5,
        }
    }

    /// The label and the block that the refusal names.
    pub fn place(self) -> Place
        ensures { result ≡ record { label = (shown self).label; block = (shown self).block } }
    {
        match self {
            DeviceFault::BadBuffer { place }
            | DeviceFault::PastEnd { place }
            | DeviceFault::Blank { place }
            | DeviceFault::AlreadyHeld { place }
            | DeviceFault::Spoiled { place } => place,
        }
    }
}

impl fmt::Display for DeviceFault {
    ghost output = { λ fault. Some (text_of (shown fault)) };

    fn fmt<W: fmt::Write>(&self, f: &mut fmt::Formatter<W>) -> fmt::Result {
        let number = self.number();
        let Place { label, block } = self.place();
        write!(f, "refused by {number} at label {label}, block {block}")
    }
}

impl Error for DeviceFault {}

// Every device passes its label and its size. Tried: a provided method of `Device`, and a function over any `D: Device`; the check
// does not cover an impl whose methods call either.

/// The refusals that do not look at the block: a buffer of `len` bytes that is no block, and a block past the end.
pub fn admit(label: u8, size: u32, block: u32, len: usize) -> Result<(), DeviceFault>
    ensures { told result ≡ admission label size block len }
{
    let place = Place { label, block };
    if len != BLOCK_LEN {
        return Err(DeviceFault::BadBuffer { place });
    }
    if block >= size {
        return Err(DeviceFault::PastEnd { place });
    }
    Ok(())
}
