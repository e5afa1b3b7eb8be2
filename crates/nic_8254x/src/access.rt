ghost use Rattle.std.specs.Prelude.{◌≡◌, ◌++◌, replicate, OnOk, IfOk};
ghost use Rattle.nic_regs.specs.Table.{register_at};
ghost use Rattle.nic_8254x.specs.Access.{reads, writes, stores};

use crate::nic::{Nic, PCIE};
use access_proto::{Data, Length};
use cs_base::{NoMemory, Octets};
use device_api::Effects;
use nic_regs::RegAct;
use pcie_proto::DevMsg;
use sb_message::Body;
use std::alloc::Global;

fn zeros(alloc: Global, len: u32) -> Result<Octets, NoMemory>
    ensures { IfOk result (λ bytes. bytes ≡ replicate len 0) }
{
    let mut zeros = Vec::new(alloc);
    zeros.resize(len as usize, 0)?;
    Ok(Octets::from_vec(zeros))
}

/// An offset with the same register, of 32 bits: at 2^32 and beyond there is none, as at 1.
#[tactic(auto, using(crate::proofs::Beyond::beyond))]
fn small_offset(offset: u64) -> u32
    ensures { register_at result ≡ register_at offset }
{
    if offset <= u64::from(u32::MAX) {
        offset as u32
    } else {
        1
    }
}

impl Nic {
    /// The host reads a register; zeros are read by any other length than four bytes.
    #[tactic(auto, unfolding(crate::specs::Access::reads))]
    pub(crate) fn read(
        &mut self,
        alloc: Global,
        id: u64,
        offset: u64,
        len: Length,
        out: &mut Effects,
    ) -> Result<(), NoMemory>
        ensures state { OnOk result (self.new ≡ (reads self.old id offset len).state) }
        ensures sends { OnOk result (out.new.sends
            ≡ out.old.sends ++ (reads self.old id offset len).sends) }
        ensures lines { OnOk result (out.new.lines
            ≡ out.old.lines ++ (reads self.old id offset len).lines) }
    {
        let len = len.bytes();
        let bytes = if len == 4 {
            let value = self.regs.read(small_offset(offset));
            Octets::from_slice(alloc, &value.to_le_bytes())?
        } else {
            zeros(alloc, len)?
        };
        let bytes = Data::new(bytes).unwrap();
        out.send(PCIE, Body::Dev(DevMsg::ReadDone { id, bytes }))
    }

    fn store(&mut self, alloc: Global, offset: u64, value: u32)
        ensures { self.new ≡ stores self.old offset value }
    {
        match self.regs.write(small_offset(offset), value) {
            RegAct::Stored => {}
            RegAct::Reset => self.drop_all(alloc),
        }
    }

    /// The host writes a register; any other length than four bytes changes nothing.
    #[tactic(auto, unfolding(crate::specs::Access::writes))]
    pub(crate) fn write(
        &mut self,
        alloc: Global,
        id: u64,
        offset: u64,
        bytes: &[u8],
        out: &mut Effects,
    ) -> Result<(), NoMemory>
        ensures state { OnOk result (self.new ≡ (writes self.old id offset bytes.now).state) }
        ensures sends { OnOk result (out.new.sends
            ≡ out.old.sends ++ (writes self.old id offset bytes.now).sends) }
        ensures lines { OnOk result (out.new.lines
            ≡ out.old.lines ++ (writes self.old id offset bytes.now).lines) }
    {
        if bytes.len() == 4 {
            let mut value = [0; 4];
            value.copy_from_slice(bytes);
            self.store(alloc, offset, u32::from_le_bytes(value));
        }
        out.send(PCIE, Body::Dev(DevMsg::WriteDone { id }))
    }
}
