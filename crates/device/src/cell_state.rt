//! The states of cells: how they are found, what they let a caller do, and the bytes that stand for them.
ghost use Rattle.std.specs.Prelude.{◌≡◌};
ghost use Rattle.device.specs.Refusals.{told};
ghost use Rattle.device.specs.Meaning.{cell};
ghost use Rattle.device.specs.Storage.{state_byte, state_of_byte};
ghost use Rattle.device.specs.Calls.{read_state, write_state, state_of, state_told};

use crate::fault::{BLOCK_LEN, DeviceFault, Place};
use crate::interface::{Device, Kind};

/// What a block's cell is, without its contents. The numbers are the bytes of a disc's storage.
#[derive(Clone, Copy, PartialEq, Eq, Debug)]
pub enum CellState {
    /// Never written, on a write-once device.
    Blank = 0,
    /// Holding 512 bytes.
    Held = 1,
    /// Neither to be read nor to be written.
    Spoiled = 2,
}

impl CellState {
    /// The state of a block of the device, found by reading it; past the end, spoiled.
    pub fn of<D: Device>(device: &mut D, block: u32) -> CellState
        ensures state { result ≡ state_of (cell (D.Device.meaning device.old) block) }
        ensures same { D.Device.meaning device.new ≡ D.Device.meaning device.old }
    {
        let mut scratch = [0; BLOCK_LEN];
        CellState::from(device.read(block, &mut scratch))
    }

    /// Whether such a block may be read, and else the refusal.
    pub fn readable(self, place: Place) -> Result<(), DeviceFault>
        ensures { told result ≡ read_state place self }
    {
        match self {
            CellState::Blank => Err(DeviceFault::Blank { place }),
            CellState::Held => Ok(()),
            CellState::Spoiled => Err(DeviceFault::Spoiled { place }),
        }
    }

    /// Whether such a block of a device of this kind may be written, and else the refusal.
    pub fn writable(self, kind: Kind, place: Place) -> Result<(), DeviceFault>
        ensures { told result ≡ write_state kind place self }
    {
        match (kind, self) {
            (_, CellState::Spoiled) => Err(DeviceFault::Spoiled { place }),
            (Kind::WriteOnce, CellState::Held) => Err(DeviceFault::AlreadyHeld { place }),
            _ => Ok(()),
        }
    }
}

/// The state that the answer to a read tells.
impl From<Result<(), DeviceFault>> for CellState {
    ghost from_gives = { λ answer state. state ≡ state_told (told answer) };

    fn from(answer: Result<(), DeviceFault>) -> CellState {
        match answer {
            Ok(()) => CellState::Held,
            Err(DeviceFault::Blank { .. }) => CellState::Blank,
            Err(_) => CellState::Spoiled,
        }
    }
}

/// The state that a state byte stands for.
impl From<u8> for CellState {
    ghost from_gives = { λ byte state. state ≡ state_of_byte byte };

    fn from(byte: u8) -> CellState {
        match byte {
            0 => CellState::Blank,
            1 => CellState::Held,
            _ => CellState::Spoiled,
        }
    }
}

/// The state byte that stands for the state.
impl From<CellState> for u8 {
    ghost from_gives = { λ state byte. byte ≡ state_byte state };

    fn from(state: CellState) -> u8 {
        state as u8
    }
}
