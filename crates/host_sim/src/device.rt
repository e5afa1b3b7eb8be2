ghost use Rattle.std.specs.Prelude.{◌≡◌, ◌<◌, ◌^◌, ◌++◌, OnOk};
ghost use Rattle.host_sim.specs.Host.{takes};

use crate::host::Host;
use cs_base::no_memory::NoMemory;
use cs_base::port_kind::PortKind;
use cs_base::time::Time;
use device_api::{Device, Effects};
use sb_message::Body;
use std::alloc::Global;

impl Host {
    #[tactic(auto, unfolding(crate::specs::Host::takes))]
    pub(crate) fn take_body(
        &mut self,
        alloc: Global,
        t: Time,
        port: u32,
        body: Body,
        out: &mut Effects,
    ) -> Result<(), NoMemory>
        requires { t < 10 ^ 15 }
        ensures state { OnOk result (self.new ≡ (takes self.old t port body).state) }
        ensures sends { OnOk result (out.new.sends
            ≡ out.old.sends ++ (takes self.old t port body).sends) }
        ensures lines { OnOk result (out.new.lines
            ≡ out.old.lines ++ (takes self.old t port body).lines) }
    {
        match body {
            Body::Dev(message) => self.take_dev(alloc, t, port, message, out),
            Body::Mem(message) => self.take_mem(alloc, t, port, message, out),
            _ => Ok(()),
        }
    }
}

impl Device for Host {
    ghost use Rattle.host_sim.specs.Host.{host, IsSettledHost};
    ghost use Rattle.host_sim.specs.HostLaws.{host_lawful};

    ghost behaviour = { host };

    ghost settled = { IsSettledHost };

    /// The PCIe ports and the memory ports.
    #[tactic(auto, using(crate::specs::HostLaws::ports_count))]
    fn ports(&self) -> u32 {
        self.map.pcie + self.map.mem
    }

    /// The PCIe ports come first.
    #[tactic(auto, using(crate::specs::HostLaws::kind_below, crate::specs::HostLaws::kind_from, crate::specs::HostLaws::ports_count))]
    fn kind(&self, port: u32) -> PortKind {
        if port < self.map.pcie {
            PortKind::PcieHost
        } else {
            PortKind::MemHost
        }
    }

    #[inline(always)]
    fn due(&self) -> Option<Time> {
        self.phase.due()
    }

    fn take(
        &mut self,
        alloc: Global,
        t: Time,
        port: u32,
        body: Body,
        out: &mut Effects,
    ) -> Result<(), NoMemory> {
        self.take_body(alloc, t, port, body, out)
    }

    #[tactic(auto, using(crate::specs::HostLaws::due_free))]
    #[inline(always)]
    fn tick(&mut self, alloc: Global, t: Time, out: &mut Effects) -> Result<(), NoMemory> {
        self.tick_once(alloc, t, out)
    }

    ghost lawful = { host_lawful };
}
