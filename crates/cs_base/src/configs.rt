ghost use Rattle.std.specs.Prelude.{◌≡◌, true};
ghost use Rattle.cs_base.specs.Names.{is_individual};
ghost use Rattle.cs_base.specs.Configs.{IsSwitch, IsMemory, IsHost};

use crate::mac::Mac;
use crate::text::Text;
use crate::time::Time;

/// A learning switch.
#[derive(Clone, Copy, Debug, PartialEq, Eq)]
pub struct SwitchConfig {
    /// How many Ethernet ports it has: at most 32.
    pub ports: u32,
    /// How long an address is remembered after a frame from it: 1 to 10^15 picoseconds.
    pub age: Time,
    pub ghost valid: { IsSwitch ports age },
}

/// A memory device.
#[derive(Clone, Copy, Debug, PartialEq, Eq)]
pub struct MemoryConfig {
    /// How many bytes it holds: 1 to 16,777,216.
    pub size: u32,
    pub ghost valid: { IsMemory size },
}

/// A host with one processor.
#[derive(Debug, Drop)]
pub struct HostConfig {
    /// How many bytes of RAM it has: 65,536 to 16,777,216, a multiple of 4.
    pub ram: u32,
    /// The time from instruction to instruction: 1 to 10^9 picoseconds.
    pub cycle: Time,
    /// How many PCIe ports it has; with the memory ports at most 32.
    pub pcie: u32,
    /// How many memory ports it has.
    pub mem: u32,
    /// The number that its processor reads in the register mhartid.
    pub hart: u32,
    /// The name of the file with its program: 1 to 255 bytes.
    pub image: Text,
    pub ghost valid: { IsHost ram cycle pcie mem image },
}

/// A network adapter.
#[derive(Clone, Copy, Debug, PartialEq, Eq)]
pub struct NicConfig {
    /// Its own, individual address.
    pub mac: Mac,
    pub ghost individual: { is_individual mac ≡ true },
}
