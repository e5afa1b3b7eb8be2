//! Whole commands over files, outputs, wires and programs that fail, end and lie: tables of what they answer.
#![tactic(auto)]

#[cfg(test)]
mod tests;
