//! The two ends of a channel that goes over a byte stream, as members of workers: each with the end of its slot queue. And
//! the first channel of a run at which what came is not what was sent.
#![tactic(auto)]

pub mod differing;
mod faults;
pub mod in_member;
mod laws;
pub mod out_member;

pub use differing::first_that_differs;
pub use in_member::InMember;
pub use laws::{
    a_failed_receiving_end_keeps_what_it_pushed, a_failed_sending_end_keeps_what_it_popped,
    a_receiving_end_pushes_what_it_keeps, turns_of_a_receiving_end, turns_of_a_sending_end,
};
pub use out_member::OutMember;

#[cfg(test)]
mod tests;
