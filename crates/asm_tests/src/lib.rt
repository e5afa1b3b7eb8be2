//! The assembler: its lines and its sources, against the GNU assembler's words.
#![tactic(auto)]

#[cfg(test)]
mod lines;
#[cfg(test)]
mod sources;
