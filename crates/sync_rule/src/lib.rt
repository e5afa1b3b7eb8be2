//! One component under local clocks: what it may do next, and what it sends and receives.
#![tactic(auto)]

mod choose;
mod front;
mod incoming;
mod incoming_ports;
pub mod next;
mod outgoing;
mod outgoing_ports;
pub mod port_plan;
pub mod run_bad;
pub mod runner;
mod sooner;
pub mod timer;

pub use next::Next;
pub use port_plan::PortPlan;
pub use run_bad::RunBad;
pub use runner::Runner;

#[cfg(test)]
mod tests;
