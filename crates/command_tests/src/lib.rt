//! Whole commands, over files, sinks and pipes in memory: tables of what each answers, writes and says.
#![tactic(auto)]

#[cfg(test)]
mod tests;
