//! Topology files: what is read of them, for what they are refused, and what is printed.
#![tactic(auto)]

#[cfg(test)]
mod tests;
