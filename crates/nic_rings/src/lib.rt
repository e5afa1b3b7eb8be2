//! The descriptor rings of the Intel 8254x family of Ethernet controllers, and its legacy descriptors of 16 bytes.
#![tactic(auto)]

mod ring;
mod rx_desc;
#[cfg(test)]
mod tests;
mod tx_desc;

pub use ring::Ring;
pub use rx_desc::RxDesc;
pub use tx_desc::TxDesc;
