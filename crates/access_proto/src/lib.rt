//! Reads and writes of bytes at addresses as messages: what the protocols of memory and PCIe links share.
#![tactic(auto)]

pub mod access;
pub mod access_bad;
pub mod data;
mod fields;
pub mod length;
mod reading;

pub use access::{Access, Operation};
pub use access_bad::AccessBad;
pub use data::Data;
pub use fields::{bytes_fields, id_fields, request_fields};
pub use length::Length;
pub use reading::read;
