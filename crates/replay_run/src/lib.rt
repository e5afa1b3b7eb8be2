//! The steps of a schedule, taken by a mesh one after another, and the text that tells where it has come.
#![tactic(auto)]

pub mod laws;
pub mod output;
pub mod schedule;
pub mod start;

pub use output::report;
pub use schedule::{ReplayBad, replay};
pub use start::replay_from_start;

#[cfg(test)]
mod tests;
