//! Members of three sorts on the same workers: components, and the sending and receiving ends of channels that go over byte
//! streams. What rounds of all of them are for the members of one sort.
#![tactic(auto)]

pub mod hand;
pub mod laws;
pub mod staffing;

pub use hand::Hand;
pub use laws::{
    a_fault_was_met_by_one, rounds_of_components, rounds_of_receiving_ends, rounds_of_sending_ends,
};
pub use staffing::{enlist, staffed};
