//! The steps of a mesh, and the schedules that spell them, a line for each step.
#![tactic(auto)]

mod laws;
mod number;
mod read;
mod step;

pub use laws::a_line_is_one_step;
pub use read::read_step;
pub use step::Step;

#[cfg(test)]
mod tests;
