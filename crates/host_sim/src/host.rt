ghost use Rattle.std.specs.Prelude.{◌≡◌, ◌≤◌, ◌<◌, ◌^◌, ◌++◌, length, IfOk, OnOk, IsTrue};
ghost use Rattle.rv32_core.specs.declared.pending.Pending.TheVariants as access;
ghost use Rattle.rv32_core.specs.Execution.{takes_interrupt};
ghost use Rattle.host_sim.specs.Machine.{started_with, map_of, due_after};
ghost use Rattle.host_sim.specs.Parts.{IsOf};
ghost use Rattle.host_sim.specs.Host.{fetched, instructs, interrupts, runs, ticks_once, IsSettledHost};

use crate::levels::Levels;
use crate::state::HostState;
use cs_base::configs::HostConfig;
use cs_base::items::Octets;
use cs_base::no_memory::NoMemory;
use cs_base::time::Time;
use device_api::Effects;
use ram_map::{Map, Ram};
use rv32_core::Core;
use std::alloc::Global;
use std::marker::Model;

/// Where RAM begins.
const RAM: u32 = 0x8000_0000;

/// The external interrupt's cause.
const EXTERNAL: u32 = 0x8000_000B;

pub(crate) fn sizes_of(config: &HostConfig) -> Map
    ensures { result ≡ map_of config.now }
{
    Map {
        ram: config.ram,
        pcie: config.pcie,
        mem: config.mem,
    }
}

/// A host with one processor.
#[derive(Debug, Drop)]
pub struct Host {
    pub(crate) core: Core,
    pub(crate) ram: Ram,
    pub(crate) kept: Octets,
    pub(crate) ticks: u64,
    pub(crate) next_id: u64,
    pub(crate) phase: HostState,
    pub(crate) levels: Levels,
    pub(crate) cycle: Time,
    pub(crate) map: Map,
}

impl Model for Host {
    ghost use Rattle.std.specs.Prelude.{◌≤◌, ◌^◌};
    ghost use Rattle.host_sim.specs.Machine.{Machine};

    ghost Value = { Machine };

    ghost view = { λ h. record {
      core = h.core;
      ram = h.ram;
      kept = h.kept;
      ticks = h.ticks;
      next_id = h.next_id;
      phase = h.phase;
      levels = h.levels;
      cycle = h.cycle;
      map = h.map;
    } };

    ghost invariant = { λ h. h.cycle ≤ 10 ^ 9 };
}

impl Host {
    /// A host that is due at 0, with the image at the beginning of its RAM.
    #[tactic(auto, using(crate::specs::HostKeeps::started_sound))]
    pub fn start(alloc: Global, config: &HostConfig, image: &[u8]) -> Result<Host, NoMemory>
        requires { length image.now ≤ config.now.ram }
        ensures state { IfOk result (λ host. host ≡ started_with config.now image.now) }
        ensures of_config { IfOk result (λ host. IsOf config.now host) }
        ensures at_start { IfOk result (λ host. IsSettledHost host 0) }
    {
        Ok(Host {
            core: Core::new(config.hart),
            ram: Ram::new(alloc, config.ram, image)?,
            kept: Octets::new(alloc),
            ticks: 0,
            next_id: 0,
            phase: HostState::Due(Time(0)),
            levels: Levels::new(alloc, config.pcie)?,
            cycle: config.cycle,
            map: sizes_of(config),
        })
    }

    /// The host is due one cycle after `t`.
    #[inline(always)]
    pub(crate) fn due_after(&mut self, t: Time)
        requires { t < 10 ^ 15 }
        ensures { self.new ≡ due_after self.old t }
    {
        self.phase = HostState::Due(Time(t.picoseconds() + self.cycle.picoseconds()));
    }

    #[inline(always)]
    fn fetch(&self) -> Option<u32>
        ensures { result ≡ fetched self.now.ram self.now.core.pc }
    {
        let pc = self.core.pc();
        if pc < RAM {
            return None;
        }
        self.ram.load(u64::from(pc - RAM), 4)
    }

    #[tactic(auto, unfolding(crate::specs::Host::instructs))]
    #[inline(always)]
    fn instruct(&mut self, alloc: Global, out: &mut Effects) -> Result<(), NoMemory>
        requires free { self.old.core.pending ≡ access.Nothing }
        ensures state { OnOk result (self.new ≡ (instructs self.old).state) }
        ensures sends { OnOk result (out.new.sends ≡ out.old.sends ++ (instructs self.old).sends) }
        ensures lines { OnOk result (out.new.lines ≡ out.old.lines ++ (instructs self.old).lines) }
    {
        let word = self.fetch();
        let act = self.core.step(word);
        let _pending = self.core.pending();
        self.act(alloc, act, out)
    }

    #[tactic(auto, unfolding(crate::specs::Host::interrupts))]
    #[cold]
    #[inline(never)]
    fn interrupt(&mut self, alloc: Global, out: &mut Effects) -> Result<(), NoMemory>
        requires takes { IsTrue (takes_interrupt self.old.core) }
        requires free { self.old.core.pending ≡ access.Nothing }
        ensures state { OnOk result (self.new ≡ (interrupts self.old).state) }
        ensures sends { OnOk result (out.new.sends ≡ out.old.sends ++ (interrupts self.old).sends) }
        ensures lines { OnOk result (out.new.lines ≡ out.old.lines ++ (interrupts self.old).lines) }
    {
        self.core.interrupt();
        self.trap(alloc, EXTERNAL, out)
    }

    #[tactic(auto, unfolding(crate::specs::Host::runs))]
    #[inline(always)]
    fn run(&mut self, alloc: Global, out: &mut Effects) -> Result<(), NoMemory>
        requires free { self.old.core.pending ≡ access.Nothing }
        ensures state { OnOk result (self.new ≡ (runs self.old).state) }
        ensures sends { OnOk result (out.new.sends ≡ out.old.sends ++ (runs self.old).sends) }
        ensures lines { OnOk result (out.new.lines ≡ out.old.lines ++ (runs self.old).lines) }
    {
        if self.core.takes_interrupt() {
            self.interrupt(alloc, out)
        } else {
            self.instruct(alloc, out)
        }
    }

    #[tactic(auto, unfolding(crate::specs::Host::ticks_once))]
    #[inline(always)]
    pub(crate) fn tick_once(
        &mut self,
        alloc: Global,
        t: Time,
        out: &mut Effects,
    ) -> Result<(), NoMemory>
        requires free { self.old.core.pending ≡ access.Nothing }
        requires in_run { t < 10 ^ 15 }
        ensures state { OnOk result (self.new ≡ (ticks_once self.old t).state) }
        ensures sends { OnOk result (out.new.sends
            ≡ out.old.sends ++ (ticks_once self.old t).sends) }
        ensures lines { OnOk result (out.new.lines
            ≡ out.old.lines ++ (ticks_once self.old t).lines) }
    {
        self.due_after(t);
        self.run(alloc, out)?;
        self.ticks = self.ticks.wrapping_add(1);
        Ok(())
    }
}
