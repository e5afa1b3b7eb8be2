use cs_base::port_kind::PortKind;
use cs_base::time::Time;

/// A port of a component, and the two channels of its link.
#[derive(Clone, Copy, Debug, PartialEq, Eq)]
pub struct PortPlan {
    /// What the port speaks.
    pub kind: PortKind,
    /// How long a message travels: at most 10^12 picoseconds.
    pub latency: Time,
    /// The longest time without a message: 1 picosecond at least, and the latency at most.
    pub interval: Time,
}
