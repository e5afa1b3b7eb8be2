//! A device of any kind, and the devices of a topology at their start.
//!
//! A new kind of device is added here alone: a variant and a line in each `match`.
#![tactic(auto)]

mod any_device;
mod images;
mod start_bad;
mod starts;

pub use any_device::AnyDevice;
pub use images::image_names;
pub use start_bad::StartBad;
pub use starts::start;

#[cfg(test)]
mod tests;
