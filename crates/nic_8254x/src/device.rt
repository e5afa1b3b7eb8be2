ghost use Rattle.std.specs.Prelude.{◌≡◌, ◌++◌, OnOk};
ghost use Rattle.device_api.specs.Gives.{Gives};
ghost use Rattle.nic_8254x.specs.Adapter.{adapter, hears, feels, takes};

use crate::nic::{Nic, PCIE};
use cs_base::{NoMemory, PortKind, Time};
use device_api::{Device, Effects};
use pcie_proto::HostMsg;
use sb_message::Body;
use std::alloc::Global;

impl Nic {
    /// What the host says: an access to a register, or a completion.
    #[tactic(auto, unfolding(crate::specs::Adapter::hears))]
    fn hear(&mut self, alloc: Global, message: HostMsg, out: &mut Effects) -> Result<(), NoMemory>
        ensures state { OnOk result (self.new ≡ (hears self.old message).state) }
        ensures sends { OnOk result (out.new.sends
            ≡ out.old.sends ++ (hears self.old message).sends) }
        ensures lines { OnOk result (out.new.lines
            ≡ out.old.lines ++ (hears self.old message).lines) }
    {
        match message {
            HostMsg::Read {
                id,
                offset,
                len,
                ..
            } => self.read(alloc, id, offset, len, out),
            HostMsg::Write {
                id,
                offset,
                bytes,
                ..
            } => self.write(alloc, id, offset, bytes.as_slice(), out),
            HostMsg::ReadDone { id, bytes } => {
                self.finish_tx_read(alloc, id, bytes.as_slice(), out)?;
                self.finish_rx_read(alloc, id, bytes.as_slice(), out)
            }
            HostMsg::WriteDone { id } => {
                self.finish_tx_write(id);
                self.finish_rx_write(alloc, id, out)
            }
        }
    }

    #[tactic(auto, unfolding(crate::specs::Adapter::feels))]
    fn feel(&mut self, alloc: Global, body: Body, out: &mut Effects) -> Result<(), NoMemory>
        ensures state { OnOk result (self.new ≡ (feels self.old body).state) }
        ensures sends { OnOk result (out.new.sends ≡ out.old.sends ++ (feels self.old body).sends) }
        ensures lines { OnOk result (out.new.lines ≡ out.old.lines ++ (feels self.old body).lines) }
    {
        match body {
            Body::Host(message) => self.hear(alloc, message, out),
            Body::Eth(frame) => self.arrive(frame, out),
            _ => Ok(()),
        }
    }

    /// First what arrives has its effect; then both engines go on, and the line is told.
    #[tactic(auto, unfolding(crate::specs::Adapter::takes))]
    pub(crate) fn take_body(
        &mut self,
        alloc: Global,
        t: Time,
        port: u32,
        body: Body,
        out: &mut Effects,
    ) -> Result<(), NoMemory>
        ensures state { OnOk result (self.new ≡ (takes self.old t port body).state) }
        ensures sends { OnOk result (out.new.sends
            ≡ out.old.sends ++ (takes self.old t port body).sends) }
        ensures lines { OnOk result (out.new.lines
            ≡ out.old.lines ++ (takes self.old t port body).lines) }
    {
        self.feel(alloc, body, out)?;
        self.start_sending(out)?;
        self.start_receiving(out)?;
        self.tell(out)
    }
}

impl Device for Nic {
    ghost use Rattle.nic_8254x.specs.Adapter.{adapter};
    ghost use Rattle.nic_8254x.specs.Sound.{IsSettledAdapter};
    ghost use Rattle.nic_8254x.specs.AdapterLaws.{adapter_lawful};

    ghost behaviour = { adapter };

    ghost settled = { IsSettledAdapter };

    /// The PCIe port and the Ethernet port.
    fn ports(&self) -> u32 {
        2
    }

    fn kind(&self, port: u32) -> PortKind {
        if port == PCIE {
            PortKind::PcieDev
        } else {
            PortKind::Eth
        }
    }

    /// It is never due by itself.
    fn due(&self) -> Option<Time> {
        None
    }

    /// It takes whatever comes in whatever state, so that this asks less than other devices do.
    fn take(
        &mut self,
        alloc: Global,
        t: Time,
        port: u32,
        body: Body,
        out: &mut Effects,
    ) -> Result<(), NoMemory>
        ensures { OnOk result (Gives (adapter.take self.old t port body) self.new out.old out.new) }
    {
        self.take_body(alloc, t, port, body, out)
    }

    /// An adapter is never due, so that this asks less than other devices do, and does nothing.
    fn tick(&mut self, _alloc: Global, _t: Time, _out: &mut Effects) -> Result<(), NoMemory>
        ensures { OnOk result (Gives (adapter.tick self.old _t) self.new _out.old _out.new) }
    {
        Ok(())
    }

    ghost lawful = { adapter_lawful };
}
