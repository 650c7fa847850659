//! Two devices end to end.
ghost use Rattle.std.specs.Prelude.{◌≡◌, is_ok};
ghost use Rattle.device.specs.Calls.{Reads, Writes};
ghost use Rattle.layers.specs.Concatenations.{meaning_of, first_after, second_after};
ghost use Rattle.layers.specs.Soundness.{joined_sound};

use device::fault::{DeviceFault, Place, admit};
use device::interface::{Device, Kind, MOST_BLOCKS};

/// The blocks of one device and then those of another. The two fit if they are of one kind and have at most 65,536 blocks
/// together; else there are no blocks.
#[derive(Drop)]
pub struct Concatenation<A, B> {
    label: u8,
    first: A,
    second: B,
}

impl<A: Device, B: Device> Concatenation<A, B> {
    pub fn new(label: u8, first: A, second: B) -> Concatenation<A, B>
        ensures { result ≡ record { label = label; first = first; second = second } }
    {
        Concatenation {
            label,
            first,
            second,
        }
    }

    /// The two devices, as the writes so far have left them.
    pub fn into_parts(self) -> (A, B)
        ensures { result ≡ (self.first, self.second) }
    {
        (self.first, self.second)
    }
}

impl<A: Device, B: Device> Device for Concatenation<A, B> {
    ghost meaning = { meaning_of A.Device B.Device };

    ghost sound = { λ d. joined_sound d.label _ _ (A.Device.sound d.first) (B.Device.sound d.second) };

    fn label(&self) -> u8 {
        self.label
    }

    fn kind(&self) -> Kind {
        self.first.kind()
    }

    fn size(&self) -> u32 {
        let total = self.first.size() + self.second.size();
        if self.first.kind() == self.second.kind() && total <= MOST_BLOCKS {
            total
        } else {
            0
        }
    }

    fn place(&self, block: u32) -> Place {
        let split = self.first.size();
        if block < split {
            self.first.place(block)
        } else {
            self.second.place(block - split)
        }
    }

    // `read`, `write` and `place` split alike: the part that has the block is of one type or of the other.

    /// Neither part changes.
    fn read(&mut self, block: u32, buf: &mut [u8]) -> Result<(), DeviceFault>
        ensures cells { Reads (meaning_of A.Device B.Device self.old) block buf.old result buf.new (meaning_of A.Device B.Device self.new) }
        ensures first { A.Device.meaning self.new.first ≡ A.Device.meaning self.old.first }
        ensures second { B.Device.meaning self.new.second ≡ B.Device.meaning self.old.second }
    {
        admit(self.label, self.size(), block, buf.len())?;
        let split = self.first.size();
        if block < split {
            self.first.read(block, buf)
        } else {
            self.second.read(block - split, buf)
        }
    }

    /// Only the part that has the block changes, and only if the write is accepted.
    fn write(&mut self, block: u32, buf: &[u8]) -> Result<(), DeviceFault>
        ensures cells { Writes (meaning_of A.Device B.Device self.old) block buf.now result (meaning_of A.Device B.Device self.new) }
        ensures first { A.Device.meaning self.new.first ≡ first_after (is_ok result) (A.Device.meaning self.old.first) block buf.now }
        ensures second { B.Device.meaning self.new.second ≡ second_after (is_ok result) (A.Device.meaning self.old.first) (B.Device.meaning self.old.second) block buf.now }
    {
        admit(self.label, self.size(), block, buf.len())?;
        let split = self.first.size();
        if block < split {
            self.first.write(block, buf)
        } else {
            self.second.write(block - split, buf)
        }
    }
}
