//! The base: values from outside, and what no clause says.
#![tactic(auto)]

#[cfg(test)]
mod tests;
