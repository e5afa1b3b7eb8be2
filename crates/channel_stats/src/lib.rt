//! The statistics of a run: how many messages went on each channel.
#![tactic(auto)]

mod statistics;

pub use statistics::channel_lines;

#[cfg(test)]
mod tests;
