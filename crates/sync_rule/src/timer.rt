use cs_base::time::Time;

/// A time at which something is due at a port.
#[derive(Clone, Copy, Debug, PartialEq, Eq)]
pub struct Timer {
    pub at: Time,
    pub port: usize,
}
