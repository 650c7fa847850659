//! Discs over bytes in memory: for each block a state byte, and then its 512 bytes.
ghost use Rattle.std.specs.Prelude.{◌≡◌, ◌<◌, length, is_ok, if◌then◌else◌, vec_items};
ghost use Rattle.device.specs.Calls.{state_of, Reads, Writes};
ghost use Rattle.device.specs.Storage.{disc_size, disc_cell, meaning_of, stored};
ghost use Rattle.device.specs.Soundness.{disc_sound};

use crate::cell_state::CellState;
use crate::fault::{BLOCK_LEN, DeviceFault, Place, admit};
use crate::interface::{Device, Kind, MOST_BLOCKS};

/// The bytes of storage for each block: its state and its contents.
const STRIDE: usize = BLOCK_LEN + 1;

/// A disc of either kind, over storage of any length: what is left over after the last whole block is not used.
#[derive(Drop)]
pub struct Disc {
    label: u8,
    kind: Kind,
    storage: Vec<u8>,
}

impl Disc {
    /// A disc whose blocks may be written again and again, or once, as its kind says.
    pub fn new(label: u8, kind: Kind, storage: Vec<u8>) -> Disc
        ensures { result ≡ record { label = label; kind = kind; storage = storage } }
    {
        Disc {
            label,
            kind,
            storage,
        }
    }

    /// The storage, as the writes so far have left it.
    pub fn into_storage(self) -> Vec<u8>
        ensures { result ≡ self.storage }
    {
        self.storage
    }

    /// What the storage says of a block.
    fn state(&self, block: u32) -> CellState
        requires { block < disc_size (vec_items self.now.storage) }
        ensures { result ≡ state_of (disc_cell self.now.kind (vec_items self.now.storage) block) }
    {
        let state = CellState::from(self.storage[block as usize * STRIDE]);
        match (state, self.kind) {
            (CellState::Blank, Kind::Rewritable) => CellState::Spoiled,
            _ => state,
        }
    }
}

/// Makes a block of the storage hold the buffer.
fn store(storage: &mut [u8], block: u32, buf: &[u8])
    requires within { block < disc_size storage.old }
    requires whole { length buf.now ≡ 512 }
    ensures { storage.new ≡ stored storage.old block buf.now }
{
    let at = block as usize * STRIDE;
    storage[at] = u8::from(CellState::Held);
    storage[at + 1..at + STRIDE].copy_from_slice(buf);
}

impl Device for Disc {
    ghost meaning = { meaning_of };

    ghost sound = { λ d. disc_sound d.label d.kind d.storage.items };

    fn label(&self) -> u8 {
        self.label
    }

    fn kind(&self) -> Kind {
        self.kind
    }

    fn size(&self) -> u32 {
        (self.storage.len() / STRIDE).min(MOST_BLOCKS as usize) as u32
    }

    fn place(&self, block: u32) -> Place {
        Place {
            label: self.label,
            block,
        }
    }

    /// No byte of the storage changes.
    fn read(&mut self, block: u32, buf: &mut [u8]) -> Result<(), DeviceFault>
        ensures cells { Reads (meaning_of self.old) block buf.old result buf.new (meaning_of self.new) }
        ensures same { self.new ≡ self.old }
    {
        admit(self.label, self.size(), block, buf.len())?;
        self.state(block).readable(self.place(block))?;
        let at = block as usize * STRIDE;
        buf.copy_from_slice(&self.storage[at + 1..at + STRIDE]);
        Ok(())
    }

    /// An accepted write changes the block's 513 bytes of the storage alone, and a refused one none.
    fn write(&mut self, block: u32, buf: &[u8]) -> Result<(), DeviceFault>
        ensures cells { Writes (meaning_of self.old) block buf.now result (meaning_of self.new) }
        ensures storage { self.new.storage.items ≡ (if is_ok result then stored self.old.storage.items block buf.now else self.old.storage.items) }
    {
        admit(self.label, self.size(), block, buf.len())?;
        self.state(block).writable(self.kind, self.place(block))?;
        store(&mut self.storage, block, buf);
        Ok(())
    }
}
