//! What carries a channel's messages in a mesh: a queue, or two queues and a byte stream between them.
#![tactic(auto)]

pub mod carrier;
mod laws;

pub use carrier::Carrier;
pub use laws::{
    a_step_that_is_refused_leads_nowhere, each_step_keeps_what_a_carrier_carries,
    each_step_leads_to_one_carrier, no_carrier_is_stuck, one_list_is_under_way_on_a_carrier,
    so_many_inner_steps_are_left,
};

#[cfg(test)]
mod tests;
