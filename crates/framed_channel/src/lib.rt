//! A channel over a byte stream, in one piece: messages go into a queue, through a pipe as frames, and come out of
//! another queue.
#![tactic(auto)]

pub mod channel;
mod laws;
mod pipe;
mod reading;

pub use channel::FramedChannel;
pub use laws::{
    each_step_keeps_what_is_carried, no_channel_is_stuck, nothing_is_lost, one_list_is_under_way,
    so_many_steps_are_left,
};

#[cfg(test)]
mod tests;
