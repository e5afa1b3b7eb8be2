//! A host's RAM as a list of bytes, and its address map.
//!
//! Numbers lie in RAM with their lowest byte first. No call takes memory but [`Ram::new`] and [`Ram::copy_out`].
#![tactic(auto)]

mod bars;
mod map;
mod place;
mod ram;
#[cfg(test)]
mod tests;

pub use map::Map;
pub use place::Place;
pub use ram::{Ram, number_at};
