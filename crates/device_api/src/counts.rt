use crate::logs::Logs;
use cs_base::items::Items;

/// How many messages went on a channel. A number above 2^64 - 1 stands as 2^64 - 1.
#[derive(Clone, Copy, Debug, PartialEq, Eq)]
pub struct Count {
    /// Null messages.
    pub syncs: u64,
    /// Events.
    pub sends: u64,
}

/// What a run leaves.
#[derive(Debug, Drop)]
pub struct Outcome {
    /// What the components logged.
    pub logs: Logs,
    /// What went on the channels, by their numbers.
    pub counts: Items<Count>,
}
