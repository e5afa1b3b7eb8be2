//! Wires over TCP: a connection a channel, within this machine. They are the edge of what is proved: they tell nothing of
//! their bytes, and nothing is assumed of them.
#![tactic(auto)]

pub mod dialer;
pub mod ends;

pub use dialer::TcpDialer;
pub use ends::{TcpIn, TcpOut};

#[cfg(test)]
mod tests;
