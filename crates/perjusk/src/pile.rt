//! The pile: a fake worm over a mirror of concatenated discs, of which one has spoiled blocks.
use crate::TABLE;
use crate::seam::{Part, TABLE_BLOCKS};
use device::cell_state::CellState;
use device::disc::Disc;
use device::fault::BLOCK_LEN;
use device::interface::{Device, Kind};
use layers::concatenation::Concatenation;
use layers::fake_worm::FakeWorm;
use layers::mirror::Mirror;
use std::alloc::{AllocError, Global};
use std::io;

/// Two discs end to end.
type Side = Concatenation<Disc, Disc>;

/// A write-once device that keeps each block twice.
pub(crate) type Pile = FakeWorm<Mirror<Side, Side>>;

/// The blocks of disc 1 that are spoiled from the start.
const SPOILED_BLOCKS: [u32; 3] = [2, 17, 18];

/// Sets up the pile, and prints what it is made of.
pub(crate) fn build(heap: Global, rt: &impl Print) -> io::Result<Pile> {
    let spoiled = "a disc with blocks 2, 17 and 18 spoiled";
    let one = disc(heap, rt, 1, 24, &SPOILED_BLOCKS, spoiled)?;
    let two = disc(heap, rt, 2, 16, &[], "a disc")?;
    let three = disc(heap, rt, 3, 28, &[], "a disc")?;
    let four = disc(heap, rt, 4, 12, &[], "a disc")?;
    let first = Concatenation::new(11, one, two);
    show(
        rt,
        "a concatenation, 1 and then 2, to have more blocks",
        &first,
    )?;
    let second = Concatenation::new(12, three, four);
    show(rt, "a concatenation, 3 and then 4", &second)?;
    let mirror = Mirror::new(13, first, second);
    show(
        rt,
        "a mirror of 11 and 12, to keep each block twice",
        &mirror,
    )?;
    let pile = FakeWorm::new(14, mirror);
    show(
        rt,
        "a fake worm over 13, so that no block changes once it is written",
        &pile,
    )?;
    Ok(pile)
}

/// Takes the pile apart, and prints how much of the table each of its two discs holds.
pub(crate) fn take_apart(rt: &impl Print, pile: Pile) -> io::Result<()> {
    let (first, second) = pile.into_part().into_parts();
    let (mut one, _) = first.into_parts();
    let (mut three, _) = second.into_parts();
    let on_one = table_blocks_on(&mut one);
    let on_three = table_blocks_on(&mut three);
    println!(rt;
        "pile taken apart: of the table's {TABLE_BLOCKS} blocks disc 1 holds {on_one} and disc 3 holds {on_three}"
    )
}

/// A rewritable disc of zero blocks, which is printed.
fn disc(
    heap: Global,
    rt: &impl Print,
    label: u8,
    blocks: u32,
    spoiled: &[u32],
    what: &str,
) -> io::Result<Disc> {
    let disc = Disc::new(label, Kind::Rewritable, storage(heap, blocks, spoiled)?);
    show(rt, what, &disc)?;
    Ok(disc)
}

/// Storage for a rewritable disc of zero blocks, all held but those in the list.
fn storage(heap: Global, blocks: u32, spoiled: &[u32]) -> Result<Vec<u8>, AllocError> {
    let mut bytes = Vec::new(heap);
    for block in 0..blocks {
        let state = if spoiled.contains(&block) {
            CellState::Spoiled
        } else {
            CellState::Held
        };
        bytes.push(u8::from(state))?;
        bytes.extend_from_slice(&[0; BLOCK_LEN])?;
    }
    Ok(bytes)
}

/// How many blocks of the table a disc holds.
fn table_blocks_on<D: Device>(disc: &mut D) -> usize {
    (0..TABLE_BLOCKS)
        .filter(|&block| Part::of_block(block).is_in(disc, TABLE + block) == Ok(true))
        .count()
}

/// Prints a device's label, what it is, its kind and its size.
fn show<D: Device>(rt: &impl Print, what: &str, device: &D) -> io::Result<()> {
    let label = device.label();
    let kind = device.kind();
    let size = device.size();
    println!(rt; "device {label}, {kind}, {size} blocks: {what}")
}
