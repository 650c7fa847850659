//! Layers: devices made of devices. Each is proved once, over every device below it, so that piles of layers are devices too.
#![tactic(auto)]

pub mod concatenation;
pub mod edges;
pub mod fake_worm;
pub mod mirror;
