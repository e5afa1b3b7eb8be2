//! The executable global simulator: a queue for each port, and an agenda of when each component has something to
//! do next.
#![tactic(auto)]

mod global_run;
mod inbox;
mod inboxes;
mod marks;
mod post;
mod routes;
mod run_on;
mod soonest;
mod step;
mod tallies;
mod tally;
mod turn;

pub use global_run::{Global, simulate};
