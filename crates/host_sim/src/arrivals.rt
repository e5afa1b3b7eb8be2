//! What comes from devices: completions, levels of interrupt lines, and reads and writes of RAM.

ghost use Rattle.std.specs.Prelude.{◌≡◌, ◌≤◌, ◌<◌, ◌^◌, ◌++◌, length, OnOk, IfOk};
ghost use Rattle.access_proto.specs.Lengths.{IsLength};
ghost use Rattle.host_sim.specs.Arrivals.{is_load_of, is_store, read_done, write_done, sets_level, is_ram, fault_lines, bytes_read, dma_read, ram_written, dma_write, takes_dev, takes_mem};

use crate::host::Host;
use access_proto::{Data, Length};
use cs_base::items::Octets;
use cs_base::no_memory::NoMemory;
use cs_base::time::Time;
use device_api::{Effects, LineText};
use mem_proto::MemMsg;
use pcie_proto::{DevMsg, HostMsg};
use ram_map::number_at;
use rv32_core::Pending;
use sb_message::Body;
use std::alloc::Global;

/// Where RAM begins, as devices see it.
const RAM: u64 = 0x8000_0000;

/// Whether a load of so many bytes is pending.
fn is_load_of(pending: Pending, bytes: usize) -> bool
    ensures { result ≡ is_load_of pending bytes }
{
    match pending {
        Pending::Load { size, .. } => size as usize == bytes,
        _ => false,
    }
}

fn is_store(pending: Pending) -> bool
    ensures { result ≡ is_store pending }
{
    matches!(pending, Pending::Store { .. })
}

impl Host {
    /// The completion of the load that the host waits for ends it; any other changes nothing.
    #[tactic(auto, unfolding(crate::specs::Arrivals::read_done))]
    fn take_read_done(
        &mut self,
        alloc: Global,
        t: Time,
        port: u32,
        id: u64,
        bytes: &[u8],
        out: &mut Effects,
    ) -> Result<(), NoMemory>
        requires { t < 10 ^ 15 }
        ensures state { OnOk result (self.new ≡ (read_done self.old t port id bytes.now).state) }
        ensures sends { OnOk result (out.new.sends
            ≡ out.old.sends ++ (read_done self.old t port id bytes.now).sends) }
        ensures lines { OnOk result (out.new.lines
            ≡ out.old.lines ++ (read_done self.old t port id bytes.now).lines) }
    {
        let pending = self.core.pending();
        if self.phase.awaits(port, id) && is_load_of(pending, bytes.len()) {
            let value = number_at(bytes, 0, bytes.len() as u32);
            self.due_after(t);
            self.finish_load(alloc, Some(value), out)
        } else {
            Ok(())
        }
    }

    #[tactic(auto, unfolding(crate::specs::Arrivals::write_done))]
    fn take_write_done(
        &mut self,
        alloc: Global,
        t: Time,
        port: u32,
        id: u64,
        out: &mut Effects,
    ) -> Result<(), NoMemory>
        requires { t < 10 ^ 15 }
        ensures state { OnOk result (self.new ≡ (write_done self.old t port id).state) }
        ensures sends { OnOk result (out.new.sends
            ≡ out.old.sends ++ (write_done self.old t port id).sends) }
        ensures lines { OnOk result (out.new.lines
            ≡ out.old.lines ++ (write_done self.old t port id).lines) }
    {
        let pending = self.core.pending();
        if self.phase.awaits(port, id) && is_store(pending) {
            self.due_after(t);
            self.finish_store(alloc, true, out)
        } else {
            Ok(())
        }
    }

    /// Sets the level of a port's interrupt line, and wakes the host where its core wakes.
    #[tactic(auto, unfolding(crate::specs::Arrivals::sets_level))]
    fn take_level(&mut self, t: Time, port: u32, high: bool)
        requires { t < 10 ^ 15 }
        ensures { self.new ≡ (sets_level self.old t port high).state }
    {
        self.levels.set(port, high);
        let external = self.levels.is_any_high();
        self.core.set_external(external);
        if self.phase.is_asleep() && self.core.wakes() {
            self.due_after(t);
        }
    }

    fn is_ram(&self, addr: u64, len: u32) -> bool
        ensures { result ≡ is_ram self.now addr len }
    {
        addr >= RAM && self.ram.holds(addr - RAM, len)
    }

    #[cold]
    #[inline(never)]
    fn log_fault(
        &self,
        alloc: Global,
        addr: u64,
        len: u32,
        out: &mut Effects,
    ) -> Result<(), NoMemory>
        ensures sends { OnOk result (out.new.sends ≡ out.old.sends) }
        ensures lines { OnOk result (out.new.lines
            ≡ out.old.lines ++ fault_lines self.now addr len) }
    {
        if self.is_ram(addr, len) {
            return Ok(());
        }
        let mut line = LineText::new(alloc);
        line.append(b"dma fault ")?;
        line.hexadecimal(addr)?;
        out.line_text(line)
    }

    /// RAM's bytes, or zeros.
    fn bytes_for(&self, alloc: Global, addr: u64, len: u32) -> Result<Octets, NoMemory>
        ensures { IfOk result (λ bytes. bytes ≡ bytes_read self.now addr len) }
    {
        if !self.is_ram(addr, len) {
            let mut zeros = Vec::new(alloc);
            zeros.resize(len as usize, 0)?;
            return Ok(Octets::from_vec(zeros));
        }
        let mut bytes = Octets::new(alloc);
        self.ram.copy_out(addr - RAM, len, &mut bytes)?;
        Ok(bytes)
    }

    #[tactic(auto, unfolding(crate::specs::Arrivals::dma_read))]
    fn take_read(
        &mut self,
        alloc: Global,
        port: u32,
        id: u64,
        addr: u64,
        len: Length,
        out: &mut Effects,
    ) -> Result<(), NoMemory>
        ensures state { OnOk result (self.new ≡ (dma_read self.old port id addr len).state) }
        ensures sends { OnOk result (out.new.sends
            ≡ out.old.sends ++ (dma_read self.old port id addr len).sends) }
        ensures lines { OnOk result (out.new.lines
            ≡ out.old.lines ++ (dma_read self.old port id addr len).lines) }
    {
        let len = len.bytes();
        let bytes = Data::new(self.bytes_for(alloc, addr, len)?).unwrap();
        out.send(port, Body::Host(HostMsg::ReadDone { id, bytes }))?;
        self.log_fault(alloc, addr, len, out)
    }

    fn write_ram(&mut self, addr: u64, bytes: &[u8])
        requires { length bytes.now < 2 ^ 32 }
        ensures { self.new ≡ record self.old { ram = ram_written self.old addr bytes.now } }
    {
        if self.is_ram(addr, bytes.len() as u32) {
            self.ram.copy_in(addr - RAM, bytes);
        }
    }

    #[tactic(auto, unfolding(crate::specs::Arrivals::dma_write))]
    fn take_write(
        &mut self,
        alloc: Global,
        port: u32,
        id: u64,
        addr: u64,
        bytes: Data,
        out: &mut Effects,
    ) -> Result<(), NoMemory>
        ensures state { OnOk result (self.new ≡ (dma_write self.old port id addr bytes).state) }
        ensures sends { OnOk result (out.new.sends
            ≡ out.old.sends ++ (dma_write self.old port id addr bytes).sends) }
        ensures lines { OnOk result (out.new.lines
            ≡ out.old.lines ++ (dma_write self.old port id addr bytes).lines) }
    {
        let bytes = bytes.into_bytes();
        let len = bytes.len() as u32;
        out.send(port, Body::Host(HostMsg::WriteDone { id }))?;
        self.log_fault(alloc, addr, len, out)?;
        self.write_ram(addr, bytes.as_slice());
        Ok(())
    }

    #[tactic(auto, unfolding(crate::specs::Arrivals::takes_dev, crate::specs::Arrivals::sets_level))]
    pub(crate) fn take_dev(
        &mut self,
        alloc: Global,
        t: Time,
        port: u32,
        message: DevMsg,
        out: &mut Effects,
    ) -> Result<(), NoMemory>
        requires { t < 10 ^ 15 }
        ensures state { OnOk result (self.new ≡ (takes_dev self.old t port message).state) }
        ensures sends { OnOk result (out.new.sends
            ≡ out.old.sends ++ (takes_dev self.old t port message).sends) }
        ensures lines { OnOk result (out.new.lines
            ≡ out.old.lines ++ (takes_dev self.old t port message).lines) }
    {
        match message {
            DevMsg::Read { id, addr, len } => self.take_read(alloc, port, id, addr, len, out),
            DevMsg::Write { id, addr, bytes } => self.take_write(alloc, port, id, addr, bytes, out),
            DevMsg::Level { high } => {
                self.take_level(t, port, high);
                Ok(())
            }
            DevMsg::ReadDone { id, bytes } => {
                self.take_read_done(alloc, t, port, id, bytes.as_slice(), out)
            }
            DevMsg::WriteDone { id } => self.take_write_done(alloc, t, port, id, out),
        }
    }

    #[tactic(auto, unfolding(crate::specs::Arrivals::takes_mem))]
    pub(crate) fn take_mem(
        &mut self,
        alloc: Global,
        t: Time,
        port: u32,
        message: MemMsg,
        out: &mut Effects,
    ) -> Result<(), NoMemory>
        requires { t < 10 ^ 15 }
        ensures state { OnOk result (self.new ≡ (takes_mem self.old t port message).state) }
        ensures sends { OnOk result (out.new.sends
            ≡ out.old.sends ++ (takes_mem self.old t port message).sends) }
        ensures lines { OnOk result (out.new.lines
            ≡ out.old.lines ++ (takes_mem self.old t port message).lines) }
    {
        match message {
            MemMsg::ReadDone { id, bytes } => {
                self.take_read_done(alloc, t, port, id, bytes.as_slice(), out)
            }
            MemMsg::WriteDone { id } => self.take_write_done(alloc, t, port, id, out),
            _ => Ok(()),
        }
    }
}
