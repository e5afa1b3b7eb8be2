//! The topology file: a TOML document that says which components a system has and how they are joined.
#![tactic(auto)]

mod build;
mod component;
mod components;
mod config;
mod entry_writer;
mod faults;
mod fields;
mod form;
mod free_ports;
mod joined;
mod key;
mod laws;
mod link;
mod links;
mod mac;
mod ports;
mod printer;
mod reader;
mod reason;
mod reason_text;
mod seats;
mod table;
mod topology;
mod type_laws;
mod written;

pub use component::Component;
pub use config::Config;
pub use laws::one_topology;
pub use ports::kinds_of;
pub use printer::print;
pub use reader::read;
pub use reason::{Entry, TopoBad, TopoReason};
pub use topology::Topology;
