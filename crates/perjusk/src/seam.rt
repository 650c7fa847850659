//! The blend table of one seam, generated: the overlap of two projectors measured once dark and once at full white.
ghost use Rattle.std.specs.Prelude.{◌<◌, ◌≤◌};

use device::fault::{BLOCK_LEN, DeviceFault};
use device::interface::Device;
use std::{array, fmt};

/// The levels of a row, at one byte each.
const COLUMNS: usize = 64;

/// The rows of a field.
const ROWS: usize = 32;

/// The bytes of a field, row by row.
const FIELD_LEN: usize = ROWS * COLUMNS;

/// The bytes of the table: the dark field, then the white field.
pub(crate) const TABLE_LEN: usize = 2 * FIELD_LEN;

/// The rows that fill a block.
const ROWS_OF_BLOCK: usize = BLOCK_LEN / COLUMNS;

/// The blocks of a field.
const FIELD_BLOCKS: u32 = (ROWS / ROWS_OF_BLOCK) as u32;

/// The blocks of the table, without a layout.
pub(crate) const TABLE_BLOCKS: u32 = 2 * FIELD_BLOCKS;

/// One of the two measurements.
#[derive(Clone, Copy)]
enum Field {
    Dark,
    White,
}

impl Field {
    /// The level at a place of the field. The dark field is faint, and the white one rises across the overlap.
    fn level(self, at: usize) -> u8
        requires { at < 2048 }
    {
        let row = at / COLUMNS;
        let column = at % COLUMNS;
        let level = match self {
            Field::Dark => 4 + row / 8 + column / 16,
            Field::White => 96 + row / 2 + column * 2,
        };
        level as u8
    }
}

impl fmt::Display for Field {
    fn fmt<W: fmt::Write>(&self, f: &mut fmt::Formatter<W>) -> fmt::Result {
        f.write_str(match self {
            Field::Dark => "dark",
            Field::White => "white",
        })
    }
}

/// The level at a place of the table.
pub(crate) fn table_level(at: usize) -> u8
    requires { at < 4096 }
{
    if at < FIELD_LEN {
        Field::Dark.level(at)
    } else {
        Field::White.level(at - FIELD_LEN)
    }
}

/// The rows of a field that a block of the table has.
#[derive(Clone, Copy)]
pub(crate) struct Part {
    field: Field,
    first_row: usize,
    ghost within: { first_row ≤ 24 },
}

impl Part {
    /// The part in a block of the table.
    pub(crate) fn of_block(block: u32) -> Part {
        let field = if block < FIELD_BLOCKS {
            Field::Dark
        } else {
            Field::White
        };
        Part {
            field,
            first_row: (block % FIELD_BLOCKS) as usize * ROWS_OF_BLOCK,
        }
    }

    /// Its levels, row by row.
    pub(crate) fn levels(self) -> [u8; BLOCK_LEN] {
        array::from_fn(|i| self.field.level(self.first_row * COLUMNS + i))
    }

    /// Whether a block of a device holds the part, or why it can't be read.
    pub(crate) fn is_in<D: Device>(self, device: &mut D, block: u32) -> Result<bool, DeviceFault> {
        let mut found = [0; BLOCK_LEN];
        device.read(block, &mut found)?;
        Ok(found == self.levels())
    }
}

impl fmt::Display for Part {
    fn fmt<W: fmt::Write>(&self, f: &mut fmt::Formatter<W>) -> fmt::Result {
        let field = self.field;
        let first = self.first_row;
        let last = first + ROWS_OF_BLOCK - 1;
        write!(f, "{field} field, rows {first} to {last}")
    }
}
