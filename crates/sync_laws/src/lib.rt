//! What a runner stands for, and when all runners of a network stand as a whole: from the start each step keeps it so, and
//! then each log begins that of the global run, and is that log where all have ended.
#![tactic(auto)]

pub mod in_a_row;
pub mod standing;
pub mod to_come;
pub mod whole;

pub use in_a_row::{events_in_a_row_keep_it_standing, what_stands_is_ready_throughout};
pub use standing::{
    a_new_runner_stands, a_receipt_keeps_it_standing, a_send_keeps_it_standing,
    an_event_keeps_it_standing, what_stands_is_ready, what_stands_may_send,
};
pub use to_come::{
    a_receipt_lowers_what_is_left, a_send_lowers_what_is_left, an_event_lowers_what_is_left,
    nothing_is_left_in_the_end,
};
pub use whole::{
    a_receipt_keeps_the_whole, a_send_keeps_the_whole, a_start_is_whole,
    a_whole_begins_the_global_run, an_ended_whole_is_the_global_run, an_event_keeps_the_whole,
    some_component_can_go_on,
};
