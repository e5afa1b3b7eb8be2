use cs_base::time::Time;

/// What a component does next.
#[derive(Clone, Copy, Debug, PartialEq, Eq)]
pub enum Next {
    /// It makes a null message for a port.
    Sync { port: usize, at: Time },
    /// Its device takes the first message that waits at a port.
    Take { port: usize, at: Time },
    /// Its device is due.
    Tick { at: Time },
}
