ghost use Rattle.std.specs.Prelude.{◌≡◌};
ghost use Rattle.ram_map.specs.Sizes.{IsMap};

use crate::bars::{BAR_STEP, bar};
use crate::place::Place;

const RAM: u32 = 0x8000_0000;

const CONSOLE: u32 = 0x1000_0000;

const HALT: u32 = 0x1000_0004;

const CYCLES: u32 = 0x1000_0008;

// The first BAR.
const BARS: u32 = 0x4000_0000;

// The first memory window, and the bytes of each.
const WINDOWS: u32 = 0x6000_0000;

const WINDOW_LEN: u32 = 0x100_0000;

/// The sizes that a host's address map depends on.
#[derive(Clone, Copy, Debug, PartialEq, Eq)]
pub struct Map {
    /// The bytes of RAM, which begin at 0x8000_0000: at most 16,777,216.
    pub ram: u32,
    /// How many PCIe ports there are, each with a BAR: at most 32.
    pub pcie: u32,
    /// How many memory ports there are, each with a window: at most 32.
    pub mem: u32,
    pub ghost valid: { IsMap ram pcie mem },
}

impl Map {
    ghost use Rattle.ram_map.specs.Places.{placed, device_place};

    /// What an address leads to.
    #[inline(always)]
    pub fn place(&self, addr: u32) -> Place
        ensures { result ≡ placed self.now addr }
    {
        if addr >= RAM && addr - RAM < self.ram {
            return Place::Ram(addr - RAM);
        }
        self.device_at(addr)
    }

    #[inline(never)]
    fn device_at(&self, addr: u32) -> Place
        ensures { result ≡ device_place self.now addr }
    {
        if addr >= BARS && addr - BARS < self.pcie * BAR_STEP {
            return bar(addr - BARS);
        }
        if addr >= WINDOWS && addr - WINDOWS < self.mem * WINDOW_LEN {
            let offset = addr - WINDOWS;
            return Place::Window {
                port: self.pcie + offset / WINDOW_LEN,
                offset: offset % WINDOW_LEN,
            };
        }
        match addr {
            CONSOLE => Place::Console,
            HALT => Place::Halt,
            CYCLES => Place::Cycles,
            _ => Place::Nowhere,
        }
    }
}
