ghost use Rattle.std.specs.Prelude.{◌≡◌, ◌%◌, ◌<◌, IsTrue, SomeIff, slice_index};

use crate::csrs;
use crate::parts::CoreParts;
use crate::pending::Pending;
use std::marker::Model;

/// A core: 32 registers of which register 0 is 0, the pc, the CSRs of the machine-mode profile, the external interrupt
/// line, and the access to memory that an instruction waits for, if one does.
#[derive(Debug, Drop)]
pub struct Core {
    pub(crate) pc: u32,
    pub(crate) registers: [u32; 32],
    hart: u32,
    pub(crate) interrupts_enabled: bool,
    pub(crate) previously_enabled: bool,
    external_enabled: bool,
    pub(crate) mtvec: u32,
    mscratch: u32,
    pub(crate) mepc: u32,
    pub(crate) mcause: u32,
    pub(crate) mtval: u32,
    external: bool,
    pub(crate) pending: Pending,
}

impl Model for Core {
    ghost use Rattle.rv32_core.specs.CoreState.{CoreState, IsCore};

    ghost Value = { CoreState };

    ghost view = { λ c. record {
      pc = c.pc;
      registers = c.registers;
      hart = c.hart;
      interrupts_enabled = c.interrupts_enabled;
      previously_enabled = c.previously_enabled;
      external_enabled = c.external_enabled;
      mtvec = c.mtvec;
      mscratch = c.mscratch;
      mepc = c.mepc;
      mcause = c.mcause;
      mtval = c.mtval;
      external = c.external;
      pending = c.pending;
    } };

    ghost invariant = { λ c. IsCore c.pc c.mtvec c.mepc c.registers c.pending };
}

impl Core {
    ghost use Rattle.rv32_core.specs.CoreState.{started, IsAccess};
    ghost use Rattle.rv32_core.specs.Csr.{csr_of, with_csr};
    ghost use Rattle.rv32_core.specs.Execution.{wakes, takes_interrupt};
    ghost use Rattle.rv32_core.specs.Parts.{IsValid, core_of, parts_of};

    /// A core whose registers are 0 and whose pc is 0x8000_0000. `mstatus` reads 0x1800, `mhartid` reads `hart`, and all
    /// other CSRs are 0; the external line is low.
    pub fn new(hart: u32) -> Core
        ensures { result ≡ started hart }
    {
        Core {
            pc: 0x8000_0000,
            registers: [0; 32],
            hart,
            interrupts_enabled: false,
            previously_enabled: false,
            external_enabled: false,
            mtvec: 0,
            mscratch: 0,
            mepc: 0,
            mcause: 0,
            mtval: 0,
            external: false,
            pending: Pending::Nothing,
        }
    }

    /// The address of the next instruction; while an access is pending, that of its instruction.
    pub fn pc(&self) -> u32
        ensures value { result ≡ self.now.pc }
        ensures aligned { result % 4 ≡ 0 }
    {
        self.pc
    }

    /// The access that an instruction waits for, if one does.
    pub fn pending(&self) -> Pending
        ensures value { result ≡ self.now.pending }
        ensures access { IsAccess result }
    {
        self.pending
    }

    /// The number in register `n`, which is below 32.
    pub fn reg(&self, n: u32) -> u32
        requires { n < 32 }
        ensures value { result ≡ slice_index self.now.registers n }
        ensures zero { n ≡ 0 → result ≡ 0 }
    {
        self.registers[n as usize]
    }

    /// What a CSR reads; `None` exactly where the profile has no CSR of that number.
    #[tactic(auto, unfolding(crate::specs::Csr::csr_of))]
    pub fn csr(&self, n: u32) -> Option<u32>
        ensures { result ≡ csr_of self.now n }
    {
        match n {
            csrs::MSTATUS => Some(csrs::mstatus(self.interrupts_enabled, self.previously_enabled)),
            csrs::MIE => Some(csrs::external_bit(self.external_enabled)),
            csrs::MTVEC => Some(self.mtvec),
            csrs::MSCRATCH => Some(self.mscratch),
            csrs::MEPC => Some(self.mepc),
            csrs::MCAUSE => Some(self.mcause),
            csrs::MTVAL => Some(self.mtval),
            csrs::MIP => Some(csrs::external_bit(self.external)),
            csrs::MHARTID => Some(self.hart),
            _ => None,
        }
    }

    #[tactic(auto, unfolding(crate::specs::Csr::with_csr))]
    pub(crate) fn write_csr(&mut self, number: u32, value: u32)
        ensures { self.new ≡ with_csr self.old number value }
    {
        match number {
            csrs::MSTATUS => {
                self.interrupts_enabled = csrs::interrupts_enabled(value);
                self.previously_enabled = csrs::previously_enabled(value);
            }
            csrs::MIE => self.external_enabled = csrs::external_enabled(value),
            csrs::MTVEC => self.mtvec = csrs::aligned(value),
            csrs::MSCRATCH => self.mscratch = value,
            csrs::MEPC => self.mepc = csrs::aligned(value),
            csrs::MCAUSE => self.mcause = value,
            csrs::MTVAL => self.mtval = value,
            _ => {}
        }
    }

    /// Sets the external interrupt line.
    pub fn set_external(&mut self, high: bool)
        ensures { self.new ≡ record self.old { external = high } }
    {
        self.external = high;
    }

    /// Whether the external interrupt line is high.
    pub fn is_external_high(&self) -> bool
        ensures { result ≡ self.now.external }
    {
        self.external
    }

    /// Whether an interrupt that is enabled in `mie` is pending, whatever `mstatus` says.
    #[inline(always)]
    pub fn wakes(&self) -> bool
        ensures { result ≡ wakes self.now }
    {
        self.external_enabled & self.external
    }

    /// Whether the core takes an interrupt before the next instruction.
    #[inline(always)]
    pub fn takes_interrupt(&self) -> bool
        ensures { result ≡ takes_interrupt self.now }
    {
        self.interrupts_enabled & self.wakes()
    }

    /// The core's parts, which are valid.
    #[tactic(auto, unfolding(crate::specs::Parts::core_of, crate::specs::Parts::parts_of))]
    pub fn into_parts(self) -> CoreParts
        ensures value { result ≡ parts_of self }
        ensures valid { IsValid result }

        // `from_parts` makes the same core of them.
        ensures undone { core_of self.hart result ≡ self }
    {
        let regs = self.registers;
        CoreParts {
            pc: self.pc,
            regs,
            mstatus: csrs::mstatus(self.interrupts_enabled, self.previously_enabled),
            mie: csrs::external_bit(self.external_enabled),
            mtvec: self.mtvec,
            mscratch: self.mscratch,
            mepc: self.mepc,
            mcause: self.mcause,
            mtval: self.mtval,
            external: self.external,
            pending: self.pending,
        }
    }

    /// The core of a hart with these parts; `None` exactly where they are not valid.
    pub fn from_parts(hart: u32, parts: CoreParts) -> Option<Core>
        ensures { SomeIff result (IsValid parts) (core_of hart parts) }
    {
        if !parts.is_valid() {
            return None;
        }
        let registers = parts.regs;
        Some(Core {
            pc: parts.pc,
            registers,
            hart,
            interrupts_enabled: csrs::interrupts_enabled(parts.mstatus),
            previously_enabled: csrs::previously_enabled(parts.mstatus),
            external_enabled: csrs::external_enabled(parts.mie),
            mtvec: parts.mtvec,
            mscratch: parts.mscratch,
            mepc: parts.mepc,
            mcause: parts.mcause,
            mtval: parts.mtval,
            external: parts.external,
            pending: parts.pending,
        })
    }
}
