ghost use Rattle.std.specs.Prelude.{◌≡◌, ◌==◌, ◌↔◌, IsTrue, bit_and};
ghost use Rattle.std.specs.List.{list_all};
ghost use Rattle.nic_regs.specs.Parts.{rah_stored};

use crate::bits::{
    BASE_STORED, CAUSES, CTRL_STORED, FULL_DUPLEX, LENGTH_STORED, LINK_UP, PCSS_STORED,
    PLACE_STORED, RAH_STORED, SLU,
};
use crate::register::Register;

/// All that the registers hold, so that it can be kept and made registers again.
///
/// The parts are valid where no bit is set that the register doesn't store: of `ctrl` bit 26; of `causes` and `mask` all
/// but bits 0, 1, 2, 4, 6 and 7; of `rdbal` and `tdbal` bits 3 to 0; of `rdlen` and `tdlen` all but bits 19 to 7; of heads
/// and tails all but bits 15 to 0; of `pcss` all but bits 7 to 0; of each `rah` all but bits 31 and 15 to 0.
#[derive(Clone, Copy, Debug, PartialEq, Eq)]
pub struct RegsParts {
    pub ctrl: u32,
    /// The causes of interrupts that ICR gives.
    pub causes: u32,
    /// The mask of IMS and IMC.
    pub mask: u32,
    pub rctl: u32,
    pub tctl: u32,
    pub rdbal: u32,
    pub rdbah: u32,
    pub rdlen: u32,
    pub rdh: u32,
    pub rdt: u32,
    pub tdbal: u32,
    pub tdbah: u32,
    pub tdlen: u32,
    pub tdh: u32,
    pub tdt: u32,
    /// RXCSUM.PCSS, where the packet checksum starts.
    pub pcss: u32,
    /// RAL(0) to RAL(15).
    pub ral: [u32; 16],
    /// RAH(0) to RAH(15).
    pub rah: [u32; 16],
}

/// Whether each has no bit that RAH doesn't store.
fn are_addresses(rah: &[u32]) -> bool
    ensures { result ≡ list_all (λ high. bit_and high rah_stored == high) rah.now }
{
    rah.iter().all(|high| high & RAH_STORED == *high)
}

impl RegsParts {
    ghost use Rattle.nic_regs.specs.Table.{IsThere, read_by, stored_by};
    ghost use Rattle.nic_regs.specs.Parts.{IsValid};

    /// Whether the parts are valid.
    pub fn is_valid(&self) -> bool
        ensures { IsTrue result ↔ IsValid self.now }
    {
        self.ctrl & CTRL_STORED == self.ctrl
            && self.causes & CAUSES == self.causes
            && self.mask & CAUSES == self.mask
            && self.rdbal & BASE_STORED == self.rdbal
            && self.rdlen & LENGTH_STORED == self.rdlen
            && self.rdh & PLACE_STORED == self.rdh
            && self.rdt & PLACE_STORED == self.rdt
            && self.tdbal & BASE_STORED == self.tdbal
            && self.tdlen & LENGTH_STORED == self.tdlen
            && self.tdh & PLACE_STORED == self.tdh
            && self.tdt & PLACE_STORED == self.tdt
            && self.pcss & PCSS_STORED == self.pcss
            && are_addresses(&self.rah)
    }

    /// What a register reads.
    pub(crate) fn read_by(&self, register: Register) -> u32
        requires { IsThere register }
        ensures { result ≡ read_by self.now register }
    {
        match register {
            Register::Ctrl => self.ctrl,
            Register::Status => {
                if self.ctrl & SLU == 0 {
                    FULL_DUPLEX
                } else {
                    FULL_DUPLEX + LINK_UP
                }
            }
            Register::Icr => self.causes,
            Register::Ics => 0,
            Register::Ims => self.mask,
            Register::Imc => 0,
            Register::Rctl => self.rctl,
            Register::Tctl => self.tctl,
            Register::Rdbal => self.rdbal,
            Register::Rdbah => self.rdbah,
            Register::Rdlen => self.rdlen,
            Register::Rdh => self.rdh,
            Register::Rdt => self.rdt,
            Register::Tdbal => self.tdbal,
            Register::Tdbah => self.tdbah,
            Register::Tdlen => self.tdlen,
            Register::Tdh => self.tdh,
            Register::Tdt => self.tdt,
            Register::Rxcsum => self.pcss,
            Register::Ral(number) => self.ral[number as usize],
            Register::Rah(number) => self.rah[number as usize],
        }
    }

    /// What is stored by a write that isn't a reset.
    pub(crate) fn store_by(&mut self, register: Register, value: u32)
        requires { IsThere register }
        ensures { self.new ≡ stored_by self.old register value }
    {
        match register {
            Register::Ctrl => self.ctrl = value & CTRL_STORED,
            Register::Status => {}
            Register::Icr => self.causes &= !value,
            Register::Ics => self.causes = (self.causes | value) & CAUSES,
            Register::Ims => self.mask = (self.mask | value) & CAUSES,
            Register::Imc => self.mask &= !value,
            Register::Rctl => self.rctl = value,
            Register::Tctl => self.tctl = value,
            Register::Rdbal => self.rdbal = value & BASE_STORED,
            Register::Rdbah => self.rdbah = value,
            Register::Rdlen => self.rdlen = value & LENGTH_STORED,
            Register::Rdh => self.rdh = value & PLACE_STORED,
            Register::Rdt => self.rdt = value & PLACE_STORED,
            Register::Tdbal => self.tdbal = value & BASE_STORED,
            Register::Tdbah => self.tdbah = value,
            Register::Tdlen => self.tdlen = value & LENGTH_STORED,
            Register::Tdh => self.tdh = value & PLACE_STORED,
            Register::Tdt => self.tdt = value & PLACE_STORED,
            Register::Rxcsum => self.pcss = value & PCSS_STORED,
            Register::Ral(number) => self.ral[number as usize] = value,
            Register::Rah(number) => self.rah[number as usize] = value & RAH_STORED,
        }
    }
}
