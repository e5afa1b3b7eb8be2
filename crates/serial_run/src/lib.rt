//! The run of a system on local clocks, one step at a time on one thread, until all is processed.
#![tactic(auto)]

pub mod run;

pub use run::serial;
