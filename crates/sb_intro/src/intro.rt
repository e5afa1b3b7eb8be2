ghost use Rattle.std.specs.Prelude.{◌≡◌};

use cs_base::port_kind::PortKind;

/// What a port says of itself and of its channel before all else.
#[derive(Clone, Copy, Debug, PartialEq, Eq)]
pub struct Intro {
    /// The version of the protocol, 1.
    pub version: u32,
    /// The sender's kind.
    pub kind: PortKind,
    /// The channel's latency in picoseconds.
    pub latency: u64,
    /// The channel's interval in picoseconds.
    pub interval: u64,
    /// How many bytes of registers the sender offers.
    pub bar_len: u64,
    pub ghost current: { version ≡ 1 },
}
