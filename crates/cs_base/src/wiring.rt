ghost use Rattle.cs_base.specs.Plan.{IsPlan};

use crate::items::Items;
use crate::link::Link;
use crate::port_kind::PortKind;
use crate::time::Time;

/// How the components of a system are joined, and for how long they run. There are 1 to 64 components of at
/// most 32 ports, and each port is in exactly one link, at whose other end a port of the partner's kind stands.
#[derive(Debug, Drop)]
pub struct Wiring {
    /// The events before this time are processed: 1 to 10^15 picoseconds.
    pub end: Time,
    /// The kinds of each component's ports.
    pub kinds: Items<Items<PortKind>>,
    /// At most 1,024 links.
    pub links: Items<Link>,
    pub ghost valid: { IsPlan end kinds links },
}
