//! The adapter: tables of what comes in and what it does.
#![tactic(auto)]

#[cfg(test)]
mod tests;
