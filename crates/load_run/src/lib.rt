//! What `load` writes: the numbers of the run of a system of stations, or the system as a topology file.
#![tactic(auto)]

mod programs;
mod run;
mod summary;
mod sums;

pub use run::{load_summary, load_text};

#[cfg(test)]
mod tests;
