//! A component on a worker: its runner and its ends of channels, and the turns that drive it.
#![tactic(auto)]

pub mod driver;
pub mod laws;
mod make;
mod tries;
pub mod turn;

pub use driver::Driver;
pub use laws::{
    a_failed_turn_leaves_its_ends_standing, a_new_driver_stands, a_turn_keeps_it_standing,
    a_turn_keeps_its_plans, a_turn_tries_each_end_once,
};
pub use turn::{Turn, Why};

#[cfg(test)]
mod tests;
