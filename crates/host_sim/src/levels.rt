ghost use Rattle.std.specs.Prelude.{◌≡◌, false, replicate, slice_set, length, IfOk};
ghost use Rattle.host_sim.specs.Arrivals.{is_any_high};

use cs_base::items::Items;
use cs_base::no_memory::NoMemory;
use std::alloc::Global;
use std::marker::Model;

/// The levels of the interrupt lines, one for each PCIe port; true is high.
#[derive(Debug, Drop)]
pub(crate) struct Levels {
    high: Vec<bool>,
}

impl Model for Levels {
    ghost use Rattle.std.specs.Prelude.{List, Bool};

    ghost Value = { List Bool };

    ghost view = { λ levels. levels.high.items };
}

impl Levels {
    /// All low.
    pub(crate) fn new(alloc: Global, ports: u32) -> Result<Levels, NoMemory>
        ensures { IfOk result (λ levels. levels ≡ replicate ports false) }
    {
        let mut high = Vec::new(alloc);
        high.resize(ports as usize, false)?;
        Ok(Levels { high })
    }

    pub(crate) fn from_items(levels: Items<bool>) -> Levels
        ensures { result ≡ levels }
    {
        Levels {
            high: levels.into_vec(),
        }
    }

    pub(crate) fn into_items(self) -> Items<bool>
        ensures { result ≡ self }
    {
        let Levels { high } = self;
        Items::from_vec(high)
    }

    pub(crate) fn len(&self) -> usize
        ensures { result ≡ length self.now }
    {
        self.high.len()
    }

    /// Sets the level of a port; of another number nothing.
    pub(crate) fn set(&mut self, port: u32, high: bool)
        ensures { self.new ≡ slice_set self.old port high }
    {
        let port = port as usize;
        if port < self.high.len() {
            self.high[port] = high;
        }
    }

    pub(crate) fn is_any_high(&self) -> bool
        ensures { result ≡ is_any_high self.now }
    {
        self.high.iter().any(|high| *high)
    }
}
