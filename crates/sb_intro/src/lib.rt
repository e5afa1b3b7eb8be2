//! Introductions: the first message of each channel.
#![tactic(auto)]

pub mod bytes;
pub mod intro;
pub mod intro_bad;
pub mod make;

pub use bytes::read;
pub use intro::Intro;
pub use intro_bad::IntroBad;
pub use make::expected;
