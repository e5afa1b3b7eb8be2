ghost use Rattle.std.specs.Prelude.{◌≡◌, ◌↔◌, IsTrue};

use crate::csrs::{
    external_bit, external_enabled, interrupts_enabled, mstatus, previously_enabled,
};
use crate::pending::Pending;

/// All that a core holds but its hart's number, so that it can be kept and made a core again.
///
/// The parts are valid where the pc, `mtvec` and `mepc` are multiples of 4, register 0 is 0, the bits of `mstatus` and
/// `mie` that always read 0 or 3 do so, and the pending access is aligned, of 1, 2 or 4 bytes, into a register below 32,
/// not signed where it loads a word, and with a value of no more than its bytes where it stores.
#[derive(Clone, Copy, Debug, PartialEq, Eq)]
pub struct CoreParts {
    pub pc: u32,
    pub regs: [u32; 32],
    pub mstatus: u32,
    pub mie: u32,
    pub mtvec: u32,
    pub mscratch: u32,
    pub mepc: u32,
    pub mcause: u32,
    pub mtval: u32,
    /// Whether the external interrupt line is high.
    pub external: bool,
    pub pending: Pending,
}

impl CoreParts {
    ghost use Rattle.rv32_core.specs.Parts.{IsValid};

    /// Whether the parts are valid.
    pub fn is_valid(&self) -> bool
        ensures { IsTrue result ↔ IsValid self.now }
    {
        let enabled = interrupts_enabled(self.mstatus);
        let previously = previously_enabled(self.mstatus);
        self.pc % 4 == 0
            && self.regs[0] == 0
            && self.mstatus == mstatus(enabled, previously)
            && self.mie == external_bit(external_enabled(self.mie))
            && self.mtvec % 4 == 0
            && self.mepc % 4 == 0
            && self.pending.is_valid()
    }
}
