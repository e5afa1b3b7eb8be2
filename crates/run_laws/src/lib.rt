//! The laws of co-simulation: what runs of single components have to do with the run of all of them. They
//! speak of definitions alone, so each is the contract of a function that does nothing.
#![tactic(auto)]

pub mod by_channel;
pub mod converse;
pub mod examples;
pub mod lift;
pub mod one_event;
pub mod prefix;
pub mod rising;
pub mod whole;
