//! The byte layouts of blocks: views that read them where they lie, writers, and the theorems that tie the two.
#![tactic(auto)]

pub mod block;
pub mod entry;
pub mod laws;
mod numbers;
pub mod pointer;
pub mod root;
pub mod super_block;
