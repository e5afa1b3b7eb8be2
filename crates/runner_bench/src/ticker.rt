//! A device that ticks alone.

use cs_base::no_memory::NoMemory;
use cs_base::port_kind::PortKind;
use cs_base::time::Time;
use device_api::{Device, Effects};
use sb_message::Body;
use std::alloc::Global;

/// Picoseconds from tick to tick.
pub const PERIOD: u64 = 1000;

/// A device of one port or none that is due again and again, sends nothing and logs nothing.
#[derive(Drop)]
pub struct Ticker {
    pub port: Option<PortKind>,
    pub next: Time,
}

impl Device for Ticker {
    ghost use Rattle.runner_bench.specs.Ticker.{ticker, IsSettledTicker};
    ghost use Rattle.runner_bench.specs.TickerLaws.{ticker_lawful};

    ghost behaviour = { ticker };

    ghost settled = { IsSettledTicker };

    fn ports(&self) -> u32 {
        match self.port {
            None => 0,
            Some(_) => 1,
        }
    }

    fn kind(&self, _port: u32) -> PortKind {
        match self.port {
            None => PortKind::Eth,
            Some(kind) => kind,
        }
    }

    fn due(&self) -> Option<Time> {
        Some(self.next)
    }

    fn take(
        &mut self,
        _alloc: Global,
        _t: Time,
        _port: u32,
        _body: Body,
        _out: &mut Effects,
    ) -> Result<(), NoMemory> {
        Ok(())
    }

    fn tick(&mut self, _alloc: Global, t: Time, _out: &mut Effects) -> Result<(), NoMemory> {
        self.next = Time(t.picoseconds() + PERIOD);
        Ok(())
    }

    ghost lawful = { ticker_lawful };
}
