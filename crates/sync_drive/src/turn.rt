/// What a turn did.
#[derive(Clone, Copy, Debug, PartialEq, Eq)]
pub enum Turn {
    /// A message was sent or received, or an event was processed.
    Moved,
    /// Nothing moved, and more is to come.
    Idle(Why),
    /// Nothing moved, and the component has ended.
    Ended,
}

/// Why nothing moved.
#[derive(Clone, Copy, Debug, PartialEq, Eq)]
pub enum Why {
    /// The channel out of a port is full.
    Full { port: u32 },
    /// A message may still come in at a port before the next event, or before the end.
    Bound { port: u32 },
}
