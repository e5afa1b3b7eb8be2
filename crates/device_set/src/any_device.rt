ghost use Rattle.std.specs.Prelude.{◌≡◌, ◌+◌, ◌^◌, ◌<◌, Some, OnOk};
ghost use Rattle.device_api.specs.Gives.{Gives};

use cs_base::{NoMemory, PortKind, Time};
use device_api::{Beacon, Device, Effects};
use host_sim::Host;
use mem_sim::Memory;
use nic_8254x::Nic;
use sb_message::Body;
use std::alloc::Global;
use switch_sim::Switch;

/// A device of any kind.
#[derive(Debug, Drop)]
pub enum AnyDevice {
    Beacon(Beacon),
    Switch(Switch),
    Memory(Memory),
    Host(Host),
    Nic(Nic),
}

impl Device for AnyDevice {
    ghost use Rattle.device_set.specs.AnyKind.{any_device, IsSettledDevice};
    ghost use Rattle.device_set.specs.AnyKindLaws.{any_lawful};

    ghost behaviour = { any_device };

    ghost settled = { IsSettledDevice };

    fn ports(&self) -> u32 {
        match self {
            AnyDevice::Beacon(beacon) => beacon.ports(),
            AnyDevice::Switch(switch) => switch.ports(),
            AnyDevice::Memory(memory) => memory.ports(),
            AnyDevice::Host(host) => host.ports(),
            AnyDevice::Nic(nic) => nic.ports(),
        }
    }

    fn kind(&self, port: u32) -> PortKind {
        match self {
            AnyDevice::Beacon(beacon) => beacon.kind(port),
            AnyDevice::Switch(switch) => switch.kind(port),
            AnyDevice::Memory(memory) => memory.kind(port),
            AnyDevice::Host(host) => host.kind(port),
            AnyDevice::Nic(nic) => nic.kind(port),
        }
    }

    /// A host is asked first, since it is due at each of its instructions.
    #[inline(always)]
    fn due(&self) -> Option<Time> {
        match self {
            AnyDevice::Host(host) => host.due(),
            device => device.due_by_kind(),
        }
    }

    fn take(
        &mut self,
        alloc: Global,
        t: Time,
        port: u32,
        body: Body,
        out: &mut Effects,
    ) -> Result<(), NoMemory> {
        match self {
            AnyDevice::Beacon(beacon) => beacon.take(alloc, t, port, body, out),
            AnyDevice::Switch(switch) => switch.take(alloc, t, port, body, out),
            AnyDevice::Memory(memory) => memory.take(alloc, t, port, body, out),
            AnyDevice::Host(host) => host.take(alloc, t, port, body, out),
            AnyDevice::Nic(nic) => nic.take(alloc, t, port, body, out),
        }
    }

    /// A host is looked for first, since it ticks at each of its instructions.
    #[inline(always)]
    fn tick(&mut self, alloc: Global, t: Time, out: &mut Effects) -> Result<(), NoMemory> {
        match self {
            AnyDevice::Host(host) => host.tick(alloc, t, out),
            device => device.tick_by_kind(alloc, t, out),
        }
    }

    ghost lawful = { any_lawful };
}

impl AnyDevice {
    ghost use Rattle.device_set.specs.AnyKind.{any_due, any_tick, IsSettledDevice};

    #[inline(never)]
    fn due_by_kind(&self) -> Option<Time>
        ensures { result ≡ any_due self.now }
    {
        match self {
            AnyDevice::Beacon(beacon) => beacon.due(),
            AnyDevice::Switch(switch) => switch.due(),
            AnyDevice::Memory(memory) => memory.due(),
            AnyDevice::Host(host) => host.due(),
            AnyDevice::Nic(nic) => nic.due(),
        }
    }

    #[inline(never)]
    fn tick_by_kind(&mut self, alloc: Global, t: Time, out: &mut Effects) -> Result<(), NoMemory>
        requires due_now { any_due self.old ≡ Some t }
        requires in_run { t < 10 ^ 15 }
        requires settled_then { IsSettledDevice self.old (t + 1) }
        ensures { OnOk result (Gives (any_tick self.old t) self.new out.old out.new) }
    {
        match self {
            AnyDevice::Beacon(beacon) => beacon.tick(alloc, t, out),
            AnyDevice::Switch(switch) => switch.tick(alloc, t, out),
            AnyDevice::Memory(memory) => memory.tick(alloc, t, out),
            AnyDevice::Host(host) => host.tick(alloc, t, out),
            AnyDevice::Nic(nic) => nic.tick(alloc, t, out),
        }
    }
}
