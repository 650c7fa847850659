//! The interface of every block device, with its meaning and its laws.
ghost use Rattle.std.specs.Prelude.{◌≡◌, Some};
ghost use Rattle.device.specs.Meaning.{kind_text, Meaning, Sound, size as blocks};
ghost use Rattle.device.specs.Calls.{Reads, Writes};

use crate::fault::{DeviceFault, Place};
use std::fmt;

/// The most blocks of a device.
pub const MOST_BLOCKS: u32 = 65_536;

/// How often a block may be written.
#[derive(Clone, Copy, PartialEq, Eq, Debug)]
pub enum Kind {
    /// A held block may be written again and again.
    Rewritable,
    /// A blank block may be written once.
    WriteOnce,
}

impl fmt::Display for Kind {
    ghost output = { λ kind. Some (kind_text kind) };

    fn fmt<W: fmt::Write>(&self, f: &mut fmt::Formatter<W>) -> fmt::Result {
        f.write_str(match self {
            Kind::Rewritable => "rewritable",
            Kind::WriteOnce => "write-once",
        })
    }
}

/// A device of at most 65,536 blocks of 512 bytes.
pub trait Device {
    /// One cell for each block, and where each block lies.
    ghost meaning: { Self → Meaning };

    // Each device answers this, and `place` if the place is its own, in a line of its own.
    fn label(&self) -> u8
        ensures { result ≡ (meaning self.now).label };

    fn kind(&self) -> Kind
        ensures { result ≡ (meaning self.now).kind };

    /// How many blocks there are.
    fn size(&self) -> u32
        ensures { result ≡ blocks (meaning self.now) };

    /// Where a block lies. Past the end the device's rule for places goes on.
    fn place(&self, block: u32) -> Place
        ensures { result ≡ (meaning self.now).place block };

    /// Copies a held block into the buffer. No cell changes, and a refusal leaves the buffer as it was.
    fn read(&mut self, block: u32, buf: &mut [u8]) -> Result<(), DeviceFault>
        ensures { Reads (meaning self.old) block buf.old result buf.new (meaning self.new) };

    /// Makes a block hold the buffer: a held one on a rewritable device, a blank one on a write-once device. A refusal
    /// changes nothing.
    fn write(&mut self, block: u32, buf: &[u8]) -> Result<(), DeviceFault>
        ensures { Writes (meaning self.old) block buf.now result (meaning self.new) };

    /// At most 65,536 cells; those that are held have 512 bytes; none is blank on a rewritable device.
    ghost sound: { (d : Self) → Sound (meaning d) };
}
