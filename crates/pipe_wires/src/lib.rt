//! Wires for runs with threads: what one end takes the other gives, through a queue under a lock that neither waits for.
//! Which calls fail, which byte is changed and where a stream ends is planned.
#![tactic(auto)]

pub mod dialer;
pub mod ends;
pub mod plan;
mod ring;

pub use dialer::PipeDialer;
pub use ends::{PipeIn, PipeOut};
pub use plan::PipePlan;

#[cfg(test)]
mod tests;
