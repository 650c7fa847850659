//! A write-once device over a rewritable one.
ghost use Rattle.std.specs.Prelude.{◌≡◌, ◌<◌, ◌≤◌, is_ok};
ghost use Rattle.device.specs.Refusals.{told};
ghost use Rattle.device.specs.Calls.{Reads, Writes};
ghost use Rattle.layers.specs.FakeWorms.{worm_size, bit_byte, worth, marked, marks, or_spoiled, meaning_of, below_after};
ghost use Rattle.layers.specs.Soundness.{worm_sound};

use device::fault::{BLOCK_LEN, DeviceFault, Place, admit};
use device::interface::{Device, Kind};

/// How many bits a block holds.
const BITS: u32 = 4096;

/// A device whose blocks may be written once, over a rewritable one that has the blocks and then a bit for each: 1 once the
/// block is written. It has no blocks over a device of the other kind.
#[derive(Drop)]
pub struct FakeWorm<A> {
    label: u8,
    below: A,
}

impl<A: Device> FakeWorm<A> {
    pub fn new(label: u8, below: A) -> FakeWorm<A>
        ensures { result ≡ record { label = label; below = below } }
    {
        FakeWorm { label, below }
    }

    /// The device below, as the writes so far have left it.
    pub fn into_part(self) -> A
        ensures { result ≡ self.below }
    {
        self.below
    }
}

/// The most blocks that fit, each with its bit, into `n`.
fn worm_size(n: u32) -> u32
    requires { n ≤ 65536 }
    ensures { result ≡ worm_size n }
{
    n - (n + BITS) / (BITS + 1)
}

/// The byte of a block's bit.
fn byte_of(block: u32) -> usize
    ensures value { result ≡ bit_byte block }
    ensures bound { result < 512 }
{
    (block % BITS / 8) as usize
}

/// What the bit of a block is worth in its byte.
fn mask(block: u32) -> u8
    ensures { result ≡ worth block }
{
    0x80 >> (block % 8)
}

/// Whether the bit of a block is 1.
fn is_marked(bits: &[u8; BLOCK_LEN], block: u32) -> bool
    ensures { result ≡ marked bits.now block }
{
    bits[byte_of(block)] & mask(block) != 0
}

/// Makes the bit of a block 1.
fn mark(bits: &mut [u8; BLOCK_LEN], block: u32)
    ensures { bits.new ≡ marks bits.old block }
{
    bits[byte_of(block)] |= mask(block);
}

/// An answer from below, where any refusal means that the block at this place is spoiled.
fn or_spoiled(answer: Result<(), DeviceFault>, place: Place) -> Result<(), DeviceFault>
    ensures { told result ≡ or_spoiled place (told answer) }
{
    answer.map_err(|_| DeviceFault::Spoiled { place })
}

impl<A: Device> Device for FakeWorm<A> {
    ghost meaning = { meaning_of A.Device };

    ghost sound = { λ d. worm_sound d.label (A.Device.meaning d.below) (A.Device.sound d.below) };

    fn label(&self) -> u8 {
        self.label
    }

    fn kind(&self) -> Kind {
        Kind::WriteOnce
    }

    fn size(&self) -> u32 {
        if self.below.kind() == Kind::Rewritable {
            worm_size(self.below.size())
        } else {
            0
        }
    }

    fn place(&self, block: u32) -> Place {
        Place {
            label: self.label,
            block,
        }
    }

    // `read` and `write` begin alike. A method for that would be no plainer: its contract would have to say what it finds below, which
    // is proved in each of them now.

    /// Reads the bit, then the block. The device below does not change.
    fn read(&mut self, block: u32, buf: &mut [u8]) -> Result<(), DeviceFault>
        ensures cells { Reads (meaning_of A.Device self.old) block buf.old result buf.new (meaning_of A.Device self.new) }
        ensures below { A.Device.meaning self.new.below ≡ A.Device.meaning self.old.below }
    {
        let size = self.size();
        admit(self.label, size, block, buf.len())?;
        let place = self.place(block);
        let at = size + block / BITS;
        let mut bits = [0; BLOCK_LEN];
        or_spoiled(self.below.read(at, &mut bits), place)?;
        if is_marked(&bits, block) {
            return or_spoiled(self.below.read(block, buf), place);
        }
        or_spoiled(self.below.read(block, &mut bits), place)?;
        Err(DeviceFault::Blank { place })
    }

    /// Reads the bit, and at bit 1 the block; at bit 0 stores the block, then the bit. It stops at a refusal, and a refused
    /// write leaves the device below as it was.
    fn write(&mut self, block: u32, buf: &[u8]) -> Result<(), DeviceFault>
        ensures cells { Writes (meaning_of A.Device self.old) block buf.now result (meaning_of A.Device self.new) }
        ensures below { A.Device.meaning self.new.below ≡ below_after (is_ok result) (A.Device.meaning self.old.below) block buf.now }
    {
        let size = self.size();
        admit(self.label, size, block, buf.len())?;
        let place = self.place(block);
        let at = size + block / BITS;
        let mut bits = [0; BLOCK_LEN];
        or_spoiled(self.below.read(at, &mut bits), place)?;
        if is_marked(&bits, block) {
            or_spoiled(self.below.read(block, &mut bits), place)?;
            return Err(DeviceFault::AlreadyHeld { place });
        }
        or_spoiled(self.below.write(block, buf), place)?;
        mark(&mut bits, block);
        or_spoiled(self.below.write(at, &bits), place)
    }
}
