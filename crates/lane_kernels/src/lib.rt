//! Kernels over bytes by lanes: the ones' complement sum of the Internet checksum (RFC 1071), and the first
//! place at which two texts differ. Neither takes memory.
#![tactic(auto)]

mod checksum;
mod compare;
pub mod differ;
#[cfg(test)]
mod tests;

pub use checksum::ones_sum;
pub use compare::first_difference;
pub use differ::Differ;
