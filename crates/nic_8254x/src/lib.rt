//! An adapter of the Intel 8254x family: registers, a receive and a transmit ring of legacy descriptors, and direct
//! memory accesses, in the profile that docs/DEFINITIONS.md tells.
#![tactic(auto)]

mod access;
mod arrival;
mod checksum;
mod device;
mod frames;
mod nic;
mod parts;
mod receiving;
mod sending;
mod standing;
mod state;

pub use nic::Nic;
pub use parts::NicParts;
pub use state::{RxStep, TxStep};
