ghost use Rattle.std.specs.Prelude.{◌≡◌, ◌↔◌, IsTrue};

/// What a port speaks, and at which side of its link it stands.
#[derive(Clone, Copy, Debug, PartialEq, Eq, PartialOrd, Ord, Hash)]
pub enum PortKind {
    /// Ethernet frames, both ways.
    Eth,
    /// The device's side of a PCIe link.
    PcieDev,
    /// The host's side of a PCIe link.
    PcieHost,
    /// The device's side of a memory link.
    MemDev,
    /// The host's side of a memory link.
    MemHost,
}

impl PortKind {
    ghost use Rattle.cs_base.specs.Plan.{partner, joins};

    /// The kind that the other end of a link has.
    pub fn partner(self) -> PortKind
        ensures { result ≡ partner self }
    {
        match self {
            PortKind::Eth => PortKind::Eth,
            PortKind::PcieDev => PortKind::PcieHost,
            PortKind::PcieHost => PortKind::PcieDev,
            PortKind::MemDev => PortKind::MemHost,
            PortKind::MemHost => PortKind::MemDev,
        }
    }

    /// Whether a link may join a port of this kind to one of the other.
    pub fn joins(self, other: PortKind) -> bool
        ensures joins { result ≡ joins self other }
        ensures partner { IsTrue result ↔ (other ≡ partner self) }
    {
        self.partner() == other
    }
}

/// How the messages of a link travel.
#[derive(Clone, Copy, Debug, PartialEq, Eq, PartialOrd, Ord, Hash)]
pub enum Via {
    /// By a slot queue in memory.
    Queue,
    /// By a pair of proxies over a byte stream.
    Proxy,
}
