//! Headers of fixed size: little-endian numbers at fixed places, and zeros at all others.
#![tactic(auto)]

mod read;
mod write;

pub use read::{u8_at, u16_at, u32_at, u64_at};
pub use write::{put_u8, put_u16, put_u32, put_u64};
