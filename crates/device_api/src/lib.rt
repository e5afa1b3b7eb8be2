//! What a device is, what a run of devices is, and the beacon.
#![tactic(auto)]

pub mod beacon;
pub mod component;
pub mod counts;
pub mod device;
pub mod effects;
pub mod laws;
pub mod line_text;
pub mod logs;
pub mod parts_bad;

pub use beacon::{Beacon, BeaconParts};
pub use component::{Component, log_all};
pub use counts::{Count, Outcome};
pub use device::Device;
pub use effects::Effects;
pub use line_text::LineText;
pub use logs::{Line, Logs};
pub use parts_bad::PartsBad;

#[cfg(test)]
mod tests;
