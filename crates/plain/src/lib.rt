//! What a user of the server believes: names and paths, the plain tree of files, and the reference model of dumps.
#![tactic(auto)]

pub mod fault;
pub mod laws;
pub mod name;
pub mod path;
mod text;
