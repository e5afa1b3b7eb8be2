//! The messages of a channel, whole.
#![tactic(auto)]

mod laws;
pub mod message;
pub mod msg_bad;
mod owner;
mod reading;
pub mod receive;
mod writing;

pub use laws::one_spelling;
pub use message::{Body, Msg};
pub use msg_bad::{MsgBad, UpperBad};
pub use owner::word_of;
pub use reading::decode;
pub use receive::{is_event, receivable};
pub use writing::encode;

#[cfg(test)]
mod tests;
