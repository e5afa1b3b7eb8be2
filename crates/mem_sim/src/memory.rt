ghost use Rattle.std.specs.Prelude.{◌≡◌, ◌≤◌, ◌^◌, ◌↔◌, ◌∷◌, ◌++◌, [], length, replicate, IfOk, IsOk, OnOk, Ok, Err};
ghost use Rattle.access_proto.specs.Lengths.{IsLength};
ghost use Rattle.cs_base.specs.declared.configs.MemoryConfig.{MemoryConfig};
ghost use Rattle.device_api.specs.Gives.{Gives};
ghost use Rattle.device_api.specs.declared.parts_bad.PartsBad.TheVariants.{Invalid};
ghost use Rattle.mem_sim.specs.Memory.{started, access_line, fault_line, reads, writes, takes, memory, IsSettledMemory};

use access_proto::{Data, Length};
use cs_base::configs::MemoryConfig;
use cs_base::items::Octets;
use cs_base::no_memory::NoMemory;
use cs_base::port_kind::PortKind;
use cs_base::time::Time;
use device_api::{Device, Effects, LineText, PartsBad};
use mem_proto::MemMsg;
use ram_map::Ram;
use sb_message::Body;
use std::alloc::Global;
use std::marker::Model;

/// A memory device, seen as the list of its bytes.
#[derive(Debug, Drop)]
pub struct Memory {
    ram: Ram,
}

/// What is kept of a memory device beside its configuration, so that it can be made again.
#[derive(Debug, Drop)]
pub struct MemoryParts {
    /// All its bytes.
    pub bytes: Octets,
}

impl Model for Memory {
    ghost use Rattle.std.specs.Prelude.{List, ℕ};

    ghost Value = { List ℕ };

    ghost view = { λ memory. memory.ram };
}

impl Memory {
    /// A memory device that holds zeros.
    pub fn start(alloc: Global, config: &MemoryConfig) -> Result<Memory, NoMemory>
        ensures state { IfOk result (λ memory. memory ≡ started config.now) }
        ensures at_start { IfOk result (λ memory. IsSettledMemory memory 0) }
    {
        Ok(Memory {
            ram: Ram::new(alloc, config.size, &[])?,
        })
    }

    /// Keeps the device as parts, as it stands before any event at `at` or later.
    pub fn into_parts(self, _at: Time) -> Result<MemoryParts, NoMemory>
        requires settled_then { IsSettledMemory self _at }
        requires in_run { _at ≤ 10 ^ 15 }
        ensures { result ≡ Ok (record { bytes = self }) }
    {
        let Memory { ram } = self;
        Ok(MemoryParts {
            bytes: ram.into_octets(),
        })
    }

    /// The device that the parts make: they are valid where they have as many bytes as is configured.
    pub fn from_parts(
        config: &MemoryConfig,
        at: Time,
        parts: MemoryParts,
    ) -> Result<Memory, PartsBad>
        requires { at ≤ 10 ^ 15 }
        ensures state { IfOk result (λ memory. memory ≡ parts.bytes) }
        ensures settled { IfOk result (λ memory. IsSettledMemory memory at) }
        ensures valid { IsOk result ↔ (length parts.bytes ≡ config.now.size) }
        ensures invalid { (result ≡ Err Invalid) ↔ (¬ (length parts.bytes ≡ config.now.size)) }
    {
        if parts.bytes.len() != config.size as usize {
            return Err(PartsBad::Invalid);
        }
        let MemoryParts { bytes } = parts;
        Ok(Memory {
            ram: Ram::from_octets(bytes),
        })
    }

    /// Answers a read. One that isn't wholly inside is answered with zeros.
    fn read(
        &self,
        alloc: Global,
        id: u64,
        address: u64,
        size: Length,
        out: &mut Effects,
    ) -> Result<(), NoMemory>
        ensures { OnOk result (Gives (reads self.now id address size) self.now out.old out.new) }
    {
        let len = size.bytes();
        let mut bytes = Octets::new(alloc);
        if self.ram.copy_out(address, len, &mut bytes)? {
            log_access(alloc, b"read ", address, len, out)?;
            let bytes = data_of(bytes);
            out.send(0, Body::Mem(MemMsg::ReadDone { id, bytes }))
        } else {
            log_fault(alloc, address, out)?;
            let bytes = zeros(alloc, size)?;
            out.send(0, Body::Mem(MemMsg::ReadDone { id, bytes }))
        }
    }

    /// Answers a write. Of one that isn't wholly inside nothing is stored.
    fn write(
        &mut self,
        alloc: Global,
        id: u64,
        address: u64,
        written: Data,
        out: &mut Effects,
    ) -> Result<(), NoMemory>
        ensures { OnOk result (Gives (writes self.old id address written) self.new out.old out.new) }
    {
        let len = written.len().bytes();
        if self.ram.copy_in(address, written.as_slice()) {
            log_access(alloc, b"write ", address, len, out)?;
        } else {
            log_fault(alloc, address, out)?;
        }
        out.send(0, Body::Mem(MemMsg::WriteDone { id }))
    }

    /// Answers a message of the link.
    fn take_message(
        &mut self,
        alloc: Global,
        message: MemMsg,
        out: &mut Effects,
    ) -> Result<(), NoMemory>
        ensures { OnOk result (Gives (takes self.old message) self.new out.old out.new) }
    {
        match message {
            MemMsg::Read { id, addr, len } => self.read(alloc, id, addr, len, out),
            MemMsg::Write { id, addr, bytes } => self.write(alloc, id, addr, bytes, out),
            _ => Ok(()),
        }
    }
}

/// The bytes of an answer: 1 to 2,048.
fn data_of(bytes: Octets) -> Data
    requires { IsLength (length bytes) }
    ensures { result ≡ bytes }
{
    Data::new(bytes).unwrap()
}

/// So many zeros.
fn zeros(alloc: Global, size: Length) -> Result<Data, NoMemory>
    ensures { IfOk result (λ zeros. zeros ≡ replicate size 0) }
{
    let len = size.bytes() as usize;
    let mut bytes = Vec::with_capacity(alloc, len)?;
    bytes.resize(len, 0)?;
    Ok(data_of(Octets::from_vec(bytes)))
}

/// Logs an access: a word, the address and the number of bytes.
fn log_access(
    alloc: Global,
    word: &[u8],
    address: u64,
    size: u32,
    out: &mut Effects,
) -> Result<(), NoMemory>
    ensures lines { OnOk result (out.new.lines ≡ out.old.lines ++ access_line word.now address size ∷ []) }
    ensures sends { out.new.sends ≡ out.old.sends }
{
    let mut line = LineText::new(alloc);
    line.append(word)?;
    line.hexadecimal(address)?;
    line.append(b" ")?;
    line.decimal(u64::from(size))?;
    out.line_text(line)
}

/// Logs an access that isn't wholly inside.
fn log_fault(alloc: Global, address: u64, out: &mut Effects) -> Result<(), NoMemory>
    ensures lines { OnOk result (out.new.lines ≡ out.old.lines ++ fault_line address ∷ []) }
    ensures sends { out.new.sends ≡ out.old.sends }
{
    let mut line = LineText::new(alloc);
    line.append(b"fault ")?;
    line.hexadecimal(address)?;
    out.line_text(line)
}

impl Device for Memory {
    ghost use Rattle.std.specs.Prelude.{OnOk};
    ghost use Rattle.device_api.specs.Gives.{Gives};
    ghost use Rattle.mem_sim.specs.Memory.{memory, IsSettledMemory};
    ghost use Rattle.mem_sim.specs.MemoryLaws.{memory_lawful};

    ghost behaviour = { memory };

    ghost settled = { IsSettledMemory };

    fn ports(&self) -> u32 {
        1
    }

    fn kind(&self, _port: u32) -> PortKind {
        PortKind::MemDev
    }

    fn due(&self) -> Option<Time> {
        None
    }

    fn take(
        &mut self,
        alloc: Global,
        _t: Time,
        _port: u32,
        body: Body,
        out: &mut Effects,
    ) -> Result<(), NoMemory> {
        match body {
            Body::Mem(message) => self.take_message(alloc, message, out),
            _ => Ok(()),
        }
    }

    /// A memory device is never due, so that this asks less than other devices do, and does nothing.
    fn tick(&mut self, _alloc: Global, _t: Time, _out: &mut Effects) -> Result<(), NoMemory>
        ensures { OnOk result (Gives (memory.tick self.old _t) self.new _out.old _out.new) }
    {
        Ok(())
    }

    ghost lawful = { memory_lawful };
}
