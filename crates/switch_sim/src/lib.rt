//! The learning switch, after IEEE 802.1D.
#![tactic(auto)]

mod chains;
mod entry;
pub mod laws;
mod least_tree;
mod parts;
mod relay;
mod switch;
mod table;

pub use entry::Entry;
pub use parts::SwitchParts;
pub use relay::Relay;
pub use switch::Switch;

#[cfg(test)]
mod tests;
