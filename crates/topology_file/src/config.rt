use cs_base::{BeaconConfig, HostConfig, MemoryConfig, NicConfig, SwitchConfig};

/// What a component is, and how it is set up.
#[derive(Debug, Drop)]
pub enum Config {
    Beacon(BeaconConfig),
    Switch(SwitchConfig),
    Memory(MemoryConfig),
    Host(HostConfig),
    Nic(NicConfig),
}
