ghost use Rattle.topology_file.specs.Ports.{IsTopology};

use crate::component::Component;
use cs_base::{Items, Wiring};

/// The components of a system and how they are joined. The names of the components differ, and the kinds of the
/// wiring are those of the ports that the components are set up with.
#[derive(Debug, Drop)]
pub struct Topology {
    /// The components, numbered from 0.
    pub components: Items<Component>,
    pub wiring: Wiring,
    pub ghost valid: { IsTopology components wiring.kinds },
}
