//! All components of a system on local clocks, and the queues between them, as one state that goes step by step.
#![tactic(auto)]

pub mod build;
pub mod laws;
pub mod mesh;
pub mod outcome;
mod seen;
mod serial;
pub mod way;

pub use mesh::Mesh;
pub use run_steps::Step;
