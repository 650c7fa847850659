//! Trees on blocks: when a map of blocks stands for a tree, and what each change of the tree does to the blocks. Theory alone: the
//! functions here have no code, and carry its theorems.
#![tactic(auto)]

pub mod laws;
