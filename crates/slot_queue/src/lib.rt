//! The queue of a channel: fixed slots, one producer, one consumer, and a word a slot that says whose turn it is.
#![tactic(auto)]

mod closing;
pub mod consumer;
pub mod ends;
mod laws;
pub mod plays;
pub mod producer;
pub mod queue;
pub mod rest;
pub mod view;

pub use consumer::Consumer;
pub use ends::{RxEnd, TxEnd};
pub use laws::nothing_waits;
pub use producer::Producer;
pub use queue::SlotQueue;
pub use rest::Rest;

#[cfg(test)]
mod tests;
