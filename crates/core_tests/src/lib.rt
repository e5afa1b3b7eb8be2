//! The core of a host: words as the GNU assembler writes them, and what they leave.
#![tactic(auto)]

#[cfg(test)]
mod tests;
