//! The moments at which components have something to do next: a tree of one key a component, of which the root is
//! the first.
#![tactic(auto)]

mod agenda;
mod keys;

pub use agenda::{Agenda, Moment};

#[cfg(test)]
mod tests;
