//! A host: an RV32IM processor with RAM, a console, and ports to PCIe devices and to memory devices.
#![tactic(auto)]

mod accesses;
mod arrivals;
mod console;
mod device;
mod host;
mod levels;
mod parts;
mod standing;
mod state;
#[cfg(test)]
mod tests;

pub use host::Host;
pub use parts::HostParts;
pub use state::HostState;
