//! Theorems about trees on blocks, and the example that their definitions are tried on.
ghost use Rattle.trees.specs.Theorems.{MoreBlocks, ReadByLayouts, LookUps, Changes, WriteKeeps, Renames, NotEmpty};
ghost use Rattle.trees.specs.Vectors.{Vectors};

/// A map that agrees on the tree's own addresses stands for the tree too.
pub fn more_blocks_hold()
    ensures { MoreBlocks }
{}

/// The blocks, read by their layouts from the root block on, give the tree that they stand for, and no other.
pub fn read_by_layouts_holds()
    ensures { ReadByLayouts }
{}

/// Look-ups in the blocks of a tree never fail, and find and answer what the plain tree does.
pub fn look_ups_hold()
    ensures { LookUps }
{}

/// After each change that the plain tree accepts, the blocks written at the touched and added addresses alone stand for the tree that it
/// leaves.
pub fn changes_hold()
    ensures { Changes }
{}

/// A write leaves what it does not cover, the bytes past a file's end too.
pub fn write_keeps_holds()
    ensures { WriteKeeps }
{}

/// Blocks that stand at other addresses, with those addresses in them, stand for the same plain tree.
pub fn renames_hold()
    ensures { Renames }
{}

/// A root block alone stands for a new tree.
pub fn not_empty_holds()
    ensures { NotEmpty }
{}

/// The worked example follows from the definitions.
pub fn vectors_hold()
    ensures { Vectors }
{}
