ghost use Rattle.std.specs.Prelude.{◌≡◌, ◌≤◌, ◌^◌, ◌↔◌, ℕ, IfOk, IsOk, Ok, Err};
ghost use Rattle.cs_base.specs.declared.configs.HostConfig.{HostConfig};
ghost use Rattle.device_api.specs.Behaviour.{IsNotPast};
ghost use Rattle.device_api.specs.declared.parts_bad.PartsBad.TheVariants.{Invalid};
ghost use Rattle.host_sim.specs.Host.{IsSettledHost};
ghost use Rattle.host_sim.specs.Machine.{due_of, map_of};
ghost use Rattle.host_sim.specs.Parts.{resumed, host_parts, IsValidAt, IsOf};

use crate::host::{Host, sizes_of};
use crate::levels::Levels;
use crate::state::HostState;
use cs_base::configs::HostConfig;
use cs_base::items::{Items, Octets};
use cs_base::no_memory::NoMemory;
use cs_base::time::Time;
use device_api::PartsBad;
use ram_map::Ram;
use rv32_core::{Core, CoreParts};

/// What is kept of a host beside its configuration, so that it can be made again.
///
/// The parts are valid before all events at a time where the core's are; where RAM has the configured size, there is a
/// level for each PCIe port, and the core's external line is high where one of them is; where the console has fewer than
/// 120 bytes, none of them a line feed; and where the state fits: the host is not due before that time; an access is
/// pending exactly in the state Access, goes to a BAR or window of its port, and has an id below `next_id`; the host is
/// asleep only where no interrupt wakes it; and a halted host's console is empty.
#[derive(Debug, Drop)]
pub struct HostParts {
    pub core: CoreParts,
    /// All bytes of RAM.
    pub ram: Octets,
    /// How many ticks the host has run, modulo 2^64.
    pub ticks: u64,
    /// The id of the next access to a device.
    pub next_id: u64,
    pub state: HostState,
    /// The levels of the interrupt lines, one for each PCIe port; true is high.
    pub levels: Items<bool>,
    /// What the console has kept.
    pub console: Octets,
}

impl Host {
    /// Keeps the host as parts, as it stands before any event at `at` or later. It takes no memory.
    pub fn into_parts(self, _at: Time) -> Result<HostParts, NoMemory>
        requires settled_then { IsSettledHost self _at }
        requires not_past { IsNotPast _at (due_of self.phase) }
        requires in_run { _at ≤ 10 ^ 15 }
        ensures value { result ≡ Ok (host_parts self) }
        // With the configuration that the host was started with, its parts are valid, and make the same host again.
        ensures valid { (config : HostConfig) → IsOf config self
            → IsValidAt config _at (host_parts self) }
        ensures again { (config : HostConfig) → IsOf config self
            → resumed config (host_parts self) ≡ self }
    {
        let Host {
            core,
            ram,
            kept,
            ticks,
            next_id,
            phase,
            levels,
            ..
        } = self;
        Ok(HostParts {
            core: core.into_parts(),
            ram: ram.into_octets(),
            ticks,
            next_id,
            state: phase,
            levels: levels.into_items(),
            console: kept,
        })
    }

    /// The host that the parts make, before any event at `at` or later. It takes no memory: the parts are Invalid
    /// exactly where they are not valid then.
    #[tactic(auto, unfolding(rv32_core::specs::Parts::core_of))]
    pub fn from_parts(config: &HostConfig, at: Time, parts: HostParts) -> Result<Host, PartsBad>
        requires { at ≤ 10 ^ 15 }
        ensures state { IfOk result (λ host. host ≡ resumed config.now parts) }
        ensures of_config { IfOk result (λ host. IsOf config.now host) }
        ensures settled { IfOk result (λ host. (x : ℕ) → at ≤ x → IsSettledHost host x) }
        ensures valid { IsOk result ↔ IsValidAt config.now at parts }
        ensures invalid { (result ≡ Err Invalid) ↔ (¬ IsValidAt config.now at parts) }
    {
        let Some(core) = Core::from_parts(config.hart, parts.core) else {
            return Err(PartsBad::Invalid);
        };
        let host = Host {
            core,
            ram: Ram::from_octets(parts.ram),
            kept: parts.console,
            ticks: parts.ticks,
            next_id: parts.next_id,
            phase: parts.state,
            levels: Levels::from_items(parts.levels),
            cycle: config.cycle,
            map: sizes_of(config),
        };
        if host.stands_at(at) {
            Ok(host)
        } else {
            Err(PartsBad::Invalid)
        }
    }
}
