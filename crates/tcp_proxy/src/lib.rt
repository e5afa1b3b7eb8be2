//! The two ends of a channel that goes over a byte stream, which keep what they sent and what came, and the comparison
//! of the two.
#![tactic(auto)]

mod asking;
pub mod comparing;
mod giving;
pub mod hop;
mod laws;
pub mod proxy_in;
pub mod proxy_out;
mod taking;

pub use comparing::compare;
pub use hop::{Hop, ProxyBad};
pub use lane_kernels::differ::Differ;
pub use laws::what_was_pushed_was_popped;
pub use proxy_in::ProxyIn;
pub use proxy_out::ProxyOut;

#[cfg(test)]
mod tests;
