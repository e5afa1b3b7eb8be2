//! An instruction's access to memory: to RAM and the host's own words at once, to devices by a message.

ghost use Rattle.std.specs.Prelude.{◌≡◌, ◌++◌, ◌<◌, ◌-◌, ◌^◌, OnOk, IfOk, IfSome, length};
ghost use Rattle.access_proto.specs.Lengths.{IsLength};
ghost use Rattle.std.specs.Int.{bytes_low_first};
ghost use Rattle.rv32_core.specs.CoreState.{IsSize, IsAccess};
ghost use Rattle.rv32_core.specs.Execution.{Awaits, IsLoad, IsStore, passed};
ghost use Rattle.host_sim.specs.Accesses.{finishes, after_load, after_store, asks, asks_load, asks_store, cycles, loads_at, loads, stored_done, stores_console, stores_halt, stores_ram, stores_at, stores, acts};

use crate::host::Host;
use crate::state::HostState;
use access_proto::{Data, Length};
use cs_base::items::Octets;
use cs_base::no_memory::NoMemory;
use device_api::Effects;
use mem_proto::MemMsg;
use pcie_proto::{Bar, HostMsg};
use ram_map::Place;
use rv32_core::Act;
use sb_message::Body;
use std::alloc::Global;

fn length_of(size: u32) -> Length
    requires { IsSize size }
    ensures { result ≡ size }
{
    Length::new(size).unwrap()
}

fn copied(alloc: Global, bytes: &[u8]) -> Result<Data, NoMemory>
    requires { IsLength (length bytes.now) }
    ensures { IfOk result (λ copied. copied ≡ bytes.now) }
{
    Ok(Data::new(Octets::from_slice(alloc, bytes)?).unwrap())
}

/// The low bytes of a value, the lowest first.
fn data_of(alloc: Global, size: u32, value: u32) -> Result<Data, NoMemory>
    requires { IsSize size }
    ensures { IfOk result (λ bytes. bytes ≡ bytes_low_first 0 size value) }
{
    match size {
        1 => copied(alloc, &[(value & 0xFF) as u8]),
        2 => copied(alloc, &((value & 0xFFFF) as u16).to_le_bytes()),
        _ => copied(alloc, &value.to_le_bytes()),
    }
}

impl Host {
    /// An access has ended, in a trap or not.
    #[tactic(auto, unfolding(crate::specs::Accesses::finishes))]
    #[inline(always)]
    fn finish(&mut self, alloc: Global, act: Act, out: &mut Effects) -> Result<(), NoMemory>
        ensures state { OnOk result (self.new ≡ (finishes self.old act).state) }
        ensures sends { OnOk result (out.new.sends
            ≡ out.old.sends ++ (finishes self.old act).sends) }
        ensures lines { OnOk result (out.new.lines
            ≡ out.old.lines ++ (finishes self.old act).lines) }
    {
        match act {
            Act::Trapped(cause) => self.trap(alloc, cause, out),
            _ => Ok(()),
        }
    }

    #[tactic(auto, unfolding(crate::specs::Accesses::after_load))]
    #[inline(always)]
    pub(crate) fn finish_load(
        &mut self,
        alloc: Global,
        value: Option<u32>,
        out: &mut Effects,
    ) -> Result<(), NoMemory>
        requires { IsLoad self.old.core.pending }
        ensures state { OnOk result (self.new ≡ (after_load self.old value).state) }
        ensures sends { OnOk result (out.new.sends
            ≡ out.old.sends ++ (after_load self.old value).sends) }
        ensures lines { OnOk result (out.new.lines
            ≡ out.old.lines ++ (after_load self.old value).lines) }
    {
        let act = self.core.finish_load(value);
        self.finish(alloc, act, out)
    }

    #[tactic(auto, unfolding(crate::specs::Accesses::after_store))]
    #[inline(always)]
    pub(crate) fn finish_store(
        &mut self,
        alloc: Global,
        stored: bool,
        out: &mut Effects,
    ) -> Result<(), NoMemory>
        requires { IsStore self.old.core.pending }
        ensures state { OnOk result (self.new ≡ (after_store self.old stored).state) }
        ensures sends { OnOk result (out.new.sends
            ≡ out.old.sends ++ (after_store self.old stored).sends) }
        ensures lines { OnOk result (out.new.lines
            ≡ out.old.lines ++ (after_store self.old stored).lines) }
    {
        let act = self.core.finish_store(stored);
        self.finish(alloc, act, out)
    }

    /// Sends a message with the next id, and waits for its completion.
    #[tactic(auto, unfolding(crate::specs::Accesses::asks))]
    fn ask(&mut self, port: u32, message: Body, out: &mut Effects) -> Result<(), NoMemory>
        requires { self.old.next_id < 2 ^ 64 - 1 }
        ensures state { OnOk result (self.new ≡ (asks self.old port message).state) }
        ensures sends { OnOk result (out.new.sends
            ≡ out.old.sends ++ (asks self.old port message).sends) }
        ensures lines { OnOk result (out.new.lines
            ≡ out.old.lines ++ (asks self.old port message).lines) }
    {
        let id = self.next_id;
        out.send(port, message)?;
        self.phase = HostState::Access { port, id };
        self.next_id = id + 1;
        Ok(())
    }

    #[tactic(auto, unfolding(crate::specs::Accesses::asks_load))]
    fn ask_load(
        &mut self,
        alloc: Global,
        port: u32,
        message: Body,
        out: &mut Effects,
    ) -> Result<(), NoMemory>
        requires { IsLoad self.old.core.pending }
        ensures state { OnOk result (self.new ≡ (asks_load self.old port message).state) }
        ensures sends { OnOk result (out.new.sends
            ≡ out.old.sends ++ (asks_load self.old port message).sends) }
        ensures lines { OnOk result (out.new.lines
            ≡ out.old.lines ++ (asks_load self.old port message).lines) }
    {
        if self.next_id == u64::MAX {
            return self.finish_load(alloc, None, out);
        }
        self.ask(port, message, out)
    }

    #[tactic(auto, unfolding(crate::specs::Accesses::asks_store))]
    fn ask_store(
        &mut self,
        alloc: Global,
        port: u32,
        message: Body,
        out: &mut Effects,
    ) -> Result<(), NoMemory>
        requires { IsStore self.old.core.pending }
        ensures state { OnOk result (self.new ≡ (asks_store self.old port message).state) }
        ensures sends { OnOk result (out.new.sends
            ≡ out.old.sends ++ (asks_store self.old port message).sends) }
        ensures lines { OnOk result (out.new.lines
            ≡ out.old.lines ++ (asks_store self.old port message).lines) }
    {
        if self.next_id == u64::MAX {
            return self.finish_store(alloc, false, out);
        }
        self.ask(port, message, out)
    }

    fn cycles(&self, size: u32) -> Option<u32>
        ensures { result ≡ cycles self.now size }
    {
        if size == 4 {
            Some((self.ticks & 0xFFFF_FFFF) as u32)
        } else {
            None
        }
    }

    #[tactic(auto, unfolding(crate::specs::Accesses::loads, crate::specs::Accesses::loads_at))]
    #[inline(always)]
    fn load(
        &mut self,
        alloc: Global,
        addr: u32,
        size: u32,
        out: &mut Effects,
    ) -> Result<(), NoMemory>
        requires load { IsLoad self.old.core.pending }
        requires size { IsSize size }
        ensures state { OnOk result (self.new ≡ (loads self.old addr size).state) }
        ensures sends { OnOk result (out.new.sends
            ≡ out.old.sends ++ (loads self.old addr size).sends) }
        ensures lines { OnOk result (out.new.lines
            ≡ out.old.lines ++ (loads self.old addr size).lines) }
    {
        match self.map.place(addr) {
            Place::Ram(offset) => {
                let value = self.ram.load(u64::from(offset), size);
                self.finish_load(alloc, value, out)
            }
            place => self.load_device(alloc, place, size, out),
        }
    }

    #[tactic(auto, unfolding(crate::specs::Accesses::loads_at))]
    #[cold]
    #[inline(never)]
    fn load_device(
        &mut self,
        alloc: Global,
        place: Place,
        size: u32,
        out: &mut Effects,
    ) -> Result<(), NoMemory>
        requires load { IsLoad self.old.core.pending }
        requires size { IsSize size }
        ensures state { OnOk result (self.new ≡ (loads_at self.old size place).state) }
        ensures sends { OnOk result (out.new.sends
            ≡ out.old.sends ++ (loads_at self.old size place).sends) }
        ensures lines { OnOk result (out.new.lines
            ≡ out.old.lines ++ (loads_at self.old size place).lines) }
    {
        let id = self.next_id;
        match place {
            Place::Ram(offset) => {
                let value = self.ram.load(u64::from(offset), size);
                self.finish_load(alloc, value, out)
            }
            Place::Cycles => {
                let value = self.cycles(size);
                self.finish_load(alloc, value, out)
            }
            Place::Bar { port, offset } => {
                let bar = Bar::first();
                let offset = u64::from(offset);
                let len = length_of(size);
                let message = Body::Host(HostMsg::Read {
                    id,
                    bar,
                    offset,
                    len,
                });
                self.ask_load(alloc, port, message, out)
            }
            Place::Window { port, offset } => {
                let addr = u64::from(offset);
                let len = length_of(size);
                let message = Body::Mem(MemMsg::Read { id, addr, len });
                self.ask_load(alloc, port, message, out)
            }
            _ => self.finish_load(alloc, None, out),
        }
    }

    #[tactic(auto, unfolding(crate::specs::Accesses::stores_ram))]
    #[inline(always)]
    fn store_ram(
        &mut self,
        alloc: Global,
        offset: u32,
        size: u32,
        value: u32,
        out: &mut Effects,
    ) -> Result<(), NoMemory>
        requires store { IsStore self.old.core.pending }
        requires size { IsSize size }
        ensures state { OnOk result (self.new ≡ (stores_ram self.old offset size value).state) }
        ensures sends { OnOk result (out.new.sends
            ≡ out.old.sends ++ (stores_ram self.old offset size value).sends) }
        ensures lines { OnOk result (out.new.lines
            ≡ out.old.lines ++ (stores_ram self.old offset size value).lines) }
    {
        let stored = self.ram.store(u64::from(offset), size, value);
        self.finish_store(alloc, stored, out)
    }

    /// The store is done, and its instruction has run.
    fn pass_store(&mut self)
        requires { IsStore self.old.core.pending }
        ensures { self.new ≡ stored_done self.old }
    {
        self.core.finish_store(true);
    }

    #[tactic(auto, unfolding(crate::specs::Accesses::stores_console))]
    fn store_console(
        &mut self,
        alloc: Global,
        size: u32,
        value: u32,
        out: &mut Effects,
    ) -> Result<(), NoMemory>
        requires { IsStore self.old.core.pending }
        ensures state { OnOk result (self.new ≡ (stores_console self.old size value).state) }
        ensures sends { OnOk result (out.new.sends
            ≡ out.old.sends ++ (stores_console self.old size value).sends) }
        ensures lines { OnOk result (out.new.lines
            ≡ out.old.lines ++ (stores_console self.old size value).lines) }
    {
        if size != 1 {
            return self.finish_store(alloc, false, out);
        }
        self.pass_store();
        self.print(alloc, (value % 256) as u8, out)
    }

    #[tactic(auto, unfolding(crate::specs::Accesses::stores_halt))]
    fn store_halt(
        &mut self,
        alloc: Global,
        size: u32,
        value: u32,
        out: &mut Effects,
    ) -> Result<(), NoMemory>
        requires { IsStore self.old.core.pending }
        ensures state { OnOk result (self.new ≡ (stores_halt self.old size value).state) }
        ensures sends { OnOk result (out.new.sends
            ≡ out.old.sends ++ (stores_halt self.old size value).sends) }
        ensures lines { OnOk result (out.new.lines
            ≡ out.old.lines ++ (stores_halt self.old size value).lines) }
    {
        if size != 4 {
            return self.finish_store(alloc, false, out);
        }
        self.pass_store();
        self.halt(alloc, value, out)
    }

    #[tactic(auto, unfolding(crate::specs::Accesses::stores, crate::specs::Accesses::stores_at))]
    #[inline(always)]
    fn store(
        &mut self,
        alloc: Global,
        addr: u32,
        size: u32,
        value: u32,
        out: &mut Effects,
    ) -> Result<(), NoMemory>
        requires store { IsStore self.old.core.pending }
        requires size { IsSize size }
        ensures state { OnOk result (self.new ≡ (stores self.old addr size value).state) }
        ensures sends { OnOk result (out.new.sends
            ≡ out.old.sends ++ (stores self.old addr size value).sends) }
        ensures lines { OnOk result (out.new.lines
            ≡ out.old.lines ++ (stores self.old addr size value).lines) }
    {
        match self.map.place(addr) {
            Place::Ram(offset) => self.store_ram(alloc, offset, size, value, out),
            place => self.store_device(alloc, place, size, value, out),
        }
    }

    #[tactic(auto, unfolding(crate::specs::Accesses::stores_at))]
    #[cold]
    #[inline(never)]
    fn store_device(
        &mut self,
        alloc: Global,
        place: Place,
        size: u32,
        value: u32,
        out: &mut Effects,
    ) -> Result<(), NoMemory>
        requires store { IsStore self.old.core.pending }
        requires size { IsSize size }
        ensures state { OnOk result (self.new ≡ (stores_at self.old size value place).state) }
        ensures sends { OnOk result (out.new.sends
            ≡ out.old.sends ++ (stores_at self.old size value place).sends) }
        ensures lines { OnOk result (out.new.lines
            ≡ out.old.lines ++ (stores_at self.old size value place).lines) }
    {
        let id = self.next_id;
        match place {
            Place::Ram(offset) => self.store_ram(alloc, offset, size, value, out),
            Place::Console => self.store_console(alloc, size, value, out),
            Place::Halt => self.store_halt(alloc, size, value, out),
            Place::Bar { port, offset } => {
                let bar = Bar::first();
                let offset = u64::from(offset);
                let bytes = data_of(alloc, size, value)?;
                let message = Body::Host(HostMsg::Write {
                    id,
                    bar,
                    offset,
                    bytes,
                });
                self.ask_store(alloc, port, message, out)
            }
            Place::Window { port, offset } => {
                let addr = u64::from(offset);
                let bytes = data_of(alloc, size, value)?;
                let message = Body::Mem(MemMsg::Write { id, addr, bytes });
                self.ask_store(alloc, port, message, out)
            }
            _ => self.finish_store(alloc, false, out),
        }
    }

    /// What a step has done or asks for.
    #[tactic(auto, using(crate::proofs::Awaited::load_awaited, crate::proofs::Awaited::load_size, crate::proofs::Awaited::store_awaited, crate::proofs::Awaited::store_size), unfolding(crate::specs::Accesses::acts))]
    #[inline(always)]
    pub(crate) fn act(&mut self, alloc: Global, act: Act, out: &mut Effects) -> Result<(), NoMemory>
        requires awaits { Awaits act self.old.core.pending }
        requires access { IsAccess self.old.core.pending }
        ensures state { OnOk result (self.new ≡ (acts self.old act).state) }
        ensures sends { OnOk result (out.new.sends ≡ out.old.sends ++ (acts self.old act).sends) }
        ensures lines { OnOk result (out.new.lines ≡ out.old.lines ++ (acts self.old act).lines) }
    {
        match act {
            Act::Done => Ok(()),
            Act::Load { addr, size } => self.load(alloc, addr, size, out),
            Act::Store { addr, size, value } => self.store(alloc, addr, size, value, out),
            Act::Wait => {
                self.phase = HostState::Asleep;
                Ok(())
            }
            Act::Trapped(cause) => self.trap(alloc, cause, out),
        }
    }
}
