//! The ends of a channel as traits, and a queue for one thread that has both.
#![tactic(auto)]

mod plain;
pub mod ports;

pub use plain::PlainQueue;
pub use ports::{Full, RxPort, TxPort};

#[cfg(test)]
mod tests;
