//! Messages as frames of a byte stream, and back out of a stream that comes in any pieces.
#![tactic(auto)]

mod deframer;
mod frame_bad;
mod framing;
mod laws;
mod parts;
mod start;
mod walk;

pub use deframer::Deframer;
pub use frame_bad::FrameBad;
pub use framing::{LONGEST_FRAME, frame, frame_reserved};
pub use laws::{no_fault_goes_unseen, one_first_fault};

#[cfg(test)]
mod tests;
