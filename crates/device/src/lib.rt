//! Block devices: what every device means and owes, why it refuses, and discs over bytes in memory.
#![tactic(auto)]

pub mod cell_state;
pub mod disc;
pub mod fault;
pub mod interface;
pub mod laws;
