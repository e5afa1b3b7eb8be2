use crate::port_kind::Via;
use crate::time::Time;

/// A link between two ports. Components and ports are counted from 0. The link is two channels, one from
/// `a` to `b` and one back, both of its latency and its interval.
#[derive(Clone, Copy, Debug, PartialEq, Eq, PartialOrd, Ord, Hash)]
pub struct Link {
    /// The component at the first end.
    pub a: u32,
    /// The port of `a`.
    pub a_port: u32,
    /// The component at the second end.
    pub b: u32,
    /// The port of `b`.
    pub b_port: u32,
    /// How long a message travels.
    pub latency: Time,
    /// The longest time without a message: after it a null message is due.
    pub interval: Time,
    /// How many messages a queue of the link holds.
    pub slots: u32,
    /// How the link's messages travel.
    pub via: Via,
}
