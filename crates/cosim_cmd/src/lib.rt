//! The commands of the program.
#![tactic(auto)]

mod asm;
mod breaks;
mod check;
mod input;
mod line;
mod local;
mod model;
mod names;
mod outcomes;
mod refusal;
mod replay;
mod report;
mod request;
mod run_command;
mod run_words;
mod threads;
mod topology_text;
mod words;
mod write;

pub use local::cosim_local;
pub use run_command::cosim_run;
