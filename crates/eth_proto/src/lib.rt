//! Ethernet frames as messages.
#![tactic(auto)]

pub mod eth_bad;
pub mod message;

pub use eth_bad::EthBad;
pub use message::{EthMsg, read};
