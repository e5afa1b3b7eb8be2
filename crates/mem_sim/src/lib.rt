//! The memory device: bytes that hosts read and write over memory links.
#![tactic(auto)]

mod memory;

pub use memory::{Memory, MemoryParts};

#[cfg(test)]
mod tests;
