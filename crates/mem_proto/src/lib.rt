//! The messages of memory links.
#![tactic(auto)]

pub mod mem_bad;
pub mod message;
mod reading;

pub use mem_bad::MemBad;
pub use message::MemMsg;
pub use reading::read;
