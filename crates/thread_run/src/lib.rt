//! The run of a system on threads, from the devices at their start to the closed queues.
#![tactic(auto)]

pub mod closing;
pub mod whole;

pub use closing::{Rooms, close_all};
pub use whole::{WholeRun, run_whole};
