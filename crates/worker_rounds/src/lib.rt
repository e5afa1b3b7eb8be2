//! Members on workers: the rounds that a worker makes, and the run of all workers on threads until all members have ended.
#![tactic(auto)]

pub mod member;
pub mod mesh_bad;
mod passes;
pub mod run;
pub mod worker;

pub use member::Member;
pub use mesh_bad::MeshBad;
pub use run::run_all;
pub use worker::{RoundEnd, Worker};

#[cfg(test)]
mod tests;
