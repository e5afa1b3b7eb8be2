//! The messages of PCIe links.
#![tactic(auto)]

pub mod bar;
pub mod from_device;
pub mod from_host;
pub mod pcie_bad;
mod reading;

pub use bar::Bar;
pub use from_device::DevMsg;
pub use from_host::HostMsg;
pub use pcie_bad::PcieBad;
pub use reading::{read_dev, read_host};
