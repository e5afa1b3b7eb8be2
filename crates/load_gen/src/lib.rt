//! The system that `load` runs: hosts that ping through an adapter each, on two switches in turn.
#![tactic(auto)]

mod components;
mod links;
mod program;
mod system;

pub use program::load_image;
pub use system::load_topology;

#[cfg(test)]
mod tests;
