//! The registers of an Ethernet controller of the Intel 8254x family, in the profile that docs/FORMATS.md states. No
//! call takes memory.
#![tactic(auto)]

mod bits;
mod parts;
mod register;
mod regs;
#[cfg(test)]
mod tests;

pub use parts::RegsParts;
pub use regs::{RegAct, Regs};
