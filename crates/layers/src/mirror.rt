//! Two devices side by side.
ghost use Rattle.std.specs.Prelude.{◌≡◌, is_ok};
ghost use Rattle.device.specs.Calls.{Reads, Writes};
ghost use Rattle.layers.specs.Mirrors.{meaning_of, mirror_state, side_after, SideWrites};
ghost use Rattle.layers.specs.Soundness.{mirror_sound};

use device::cell_state::CellState;
use device::fault::{DeviceFault, Place, admit};
use device::interface::{Device, Kind};

// One type with `Concatenation` would be no plainer: they share the fields, `new`, `into_parts`, `label` and `kind`, and each clause
// would name a marker of the rule.

/// Two devices that hold the same blocks, so that a block lasts while one of its sides does. The two fit if they are of one
/// kind; else there are no blocks.
#[derive(Drop)]
pub struct Mirror<A, B> {
    label: u8,
    first: A,
    second: B,
}

impl<A: Device, B: Device> Mirror<A, B> {
    pub fn new(label: u8, first: A, second: B) -> Mirror<A, B>
        ensures { result ≡ record { label = label; first = first; second = second } }
    {
        Mirror {
            label,
            first,
            second,
        }
    }

    /// The two devices, as the writes so far have left them.
    pub fn into_parts(self) -> (A, B)
        ensures { result ≡ (self.first, self.second) }
    {
        (self.first, self.second)
    }
}

/// What a block is whose two sides are as given.
fn merge(first: CellState, second: CellState) -> CellState
    ensures { result ≡ mirror_state first second }
{
    match (first, second) {
        (CellState::Held, _) | (_, CellState::Held) => CellState::Held,
        (CellState::Blank, _) | (_, CellState::Blank) => CellState::Blank,
        (CellState::Spoiled, CellState::Spoiled) => CellState::Spoiled,
    }
}

/// Sends a write to a side, unless its block is spoiled.
fn write_side<D: Device>(
    side: &mut D,
    state: CellState,
    block: u32,
    buf: &[u8],
) -> Result<(), DeviceFault>
    ensures { SideWrites state (D.Device.meaning side.old) block buf.now result (D.Device.meaning side.new) }
{
    if state == CellState::Spoiled {
        return Ok(());
    }
    side.write(block, buf)
}

impl<A: Device, B: Device> Device for Mirror<A, B> {
    ghost meaning = { meaning_of A.Device B.Device };

    ghost sound = { λ d. mirror_sound d.label _ _ (A.Device.sound d.first) (B.Device.sound d.second) };

    fn label(&self) -> u8 {
        self.label
    }

    fn kind(&self) -> Kind {
        self.first.kind()
    }

    fn size(&self) -> u32 {
        if self.first.kind() == self.second.kind() {
            self.first.size().min(self.second.size())
        } else {
            0
        }
    }

    fn place(&self, block: u32) -> Place {
        self.first.place(block)
    }

    /// Reads the second side only where the first refuses. Neither side changes.
    fn read(&mut self, block: u32, buf: &mut [u8]) -> Result<(), DeviceFault>
        ensures cells { Reads (meaning_of A.Device B.Device self.old) block buf.old result buf.new (meaning_of A.Device B.Device self.new) }
        ensures first { A.Device.meaning self.new.first ≡ A.Device.meaning self.old.first }
        ensures second { B.Device.meaning self.new.second ≡ B.Device.meaning self.old.second }
    {
        admit(self.label, self.size(), block, buf.len())?;
        let place = self.first.place(block);
        let first = CellState::from(self.first.read(block, buf));
        if first == CellState::Held {
            return Ok(());
        }
        let second = CellState::from(self.second.read(block, buf));
        merge(first, second).readable(place)
    }

    /// Reads both sides first. An accepted write goes to every side that is not spoiled; a refused one changes neither.
    fn write(&mut self, block: u32, buf: &[u8]) -> Result<(), DeviceFault>
        ensures cells { Writes (meaning_of A.Device B.Device self.old) block buf.now result (meaning_of A.Device B.Device self.new) }
        ensures first { A.Device.meaning self.new.first ≡ side_after (is_ok result) (A.Device.meaning self.old.first) block buf.now }
        ensures second { B.Device.meaning self.new.second ≡ side_after (is_ok result) (B.Device.meaning self.old.second) block buf.now }
    {
        admit(self.label, self.size(), block, buf.len())?;
        let kind = self.first.kind();
        let place = self.first.place(block);
        let first = CellState::of(&mut self.first, block);
        let second = CellState::of(&mut self.second, block);
        merge(first, second).writable(kind, place)?;
        write_side(&mut self.first, first, block, buf)?;
        write_side(&mut self.second, second, block, buf)
    }
}
