//! The instruction that an operation makes of its operands.
ghost use Rattle.std.specs.Prelude.{◌≡◌};
ghost use Rattle.asm_syntax.specs.Instructions.{computed, computed_immediate, shifted, loaded, stored, upper_loaded, accessed, accessed_immediate};

use crate::operation::{Computation, CsrAccess, ImmediateComputation, Load, Shift, Store, Upper};
use rv32_isa::Instr;

impl Computation {
    pub fn instruction(self, rd: u32, rs1: u32, rs2: u32) -> Instr
        ensures { result ≡ computed self rd rs1 rs2 }
    {
        match self {
            Computation::Add => Instr::Add { rd, rs1, rs2 },
            Computation::Sub => Instr::Sub { rd, rs1, rs2 },
            Computation::Sll => Instr::Sll { rd, rs1, rs2 },
            Computation::Slt => Instr::Slt { rd, rs1, rs2 },
            Computation::Sltu => Instr::Sltu { rd, rs1, rs2 },
            Computation::Xor => Instr::Xor { rd, rs1, rs2 },
            Computation::Srl => Instr::Srl { rd, rs1, rs2 },
            Computation::Sra => Instr::Sra { rd, rs1, rs2 },
            Computation::Or => Instr::Or { rd, rs1, rs2 },
            Computation::And => Instr::And { rd, rs1, rs2 },
            Computation::Mul => Instr::Mul { rd, rs1, rs2 },
            Computation::Mulh => Instr::Mulh { rd, rs1, rs2 },
            Computation::Mulhsu => Instr::Mulhsu { rd, rs1, rs2 },
            Computation::Mulhu => Instr::Mulhu { rd, rs1, rs2 },
            Computation::Div => Instr::Div { rd, rs1, rs2 },
            Computation::Divu => Instr::Divu { rd, rs1, rs2 },
            Computation::Rem => Instr::Rem { rd, rs1, rs2 },
            Computation::Remu => Instr::Remu { rd, rs1, rs2 },
        }
    }
}

impl ImmediateComputation {
    pub fn instruction(self, rd: u32, rs1: u32, imm: i32) -> Instr
        ensures { result ≡ computed_immediate self rd rs1 imm }
    {
        match self {
            ImmediateComputation::Addi => Instr::Addi { rd, rs1, imm },
            ImmediateComputation::Slti => Instr::Slti { rd, rs1, imm },
            ImmediateComputation::Sltiu => Instr::Sltiu { rd, rs1, imm },
            ImmediateComputation::Xori => Instr::Xori { rd, rs1, imm },
            ImmediateComputation::Ori => Instr::Ori { rd, rs1, imm },
            ImmediateComputation::Andi => Instr::Andi { rd, rs1, imm },
        }
    }
}

impl Shift {
    pub fn instruction(self, rd: u32, rs1: u32, imm: i32) -> Instr
        ensures { result ≡ shifted self rd rs1 imm }
    {
        match self {
            Shift::Slli => Instr::Slli { rd, rs1, imm },
            Shift::Srli => Instr::Srli { rd, rs1, imm },
            Shift::Srai => Instr::Srai { rd, rs1, imm },
        }
    }
}

impl Load {
    pub fn instruction(self, rd: u32, rs1: u32, imm: i32) -> Instr
        ensures { result ≡ loaded self rd rs1 imm }
    {
        match self {
            Load::Jalr => Instr::Jalr { rd, rs1, imm },
            Load::Lb => Instr::Lb { rd, rs1, imm },
            Load::Lh => Instr::Lh { rd, rs1, imm },
            Load::Lw => Instr::Lw { rd, rs1, imm },
            Load::Lbu => Instr::Lbu { rd, rs1, imm },
            Load::Lhu => Instr::Lhu { rd, rs1, imm },
        }
    }
}

impl Store {
    pub fn instruction(self, rs1: u32, rs2: u32, imm: i32) -> Instr
        ensures { result ≡ stored self rs1 rs2 imm }
    {
        match self {
            Store::Sb => Instr::Sb { rs1, rs2, imm },
            Store::Sh => Instr::Sh { rs1, rs2, imm },
            Store::Sw => Instr::Sw { rs1, rs2, imm },
        }
    }
}

impl Upper {
    pub fn instruction(self, rd: u32, imm: i32) -> Instr
        ensures { result ≡ upper_loaded self rd imm }
    {
        match self {
            Upper::Lui => Instr::Lui { rd, imm },
            Upper::Auipc => Instr::Auipc { rd, imm },
        }
    }
}

impl CsrAccess {
    pub fn instruction(self, rd: u32, rs1: u32, csr: u32) -> Instr
        ensures { result ≡ accessed self rd rs1 csr }
    {
        match self {
            CsrAccess::Write => Instr::Csrrw { rd, rs1, csr },
            CsrAccess::Set => Instr::Csrrs { rd, rs1, csr },
            CsrAccess::Clear => Instr::Csrrc { rd, rs1, csr },
        }
    }

    pub fn immediate_instruction(self, rd: u32, imm: i32, csr: u32) -> Instr
        ensures { result ≡ accessed_immediate self rd imm csr }
    {
        match self {
            CsrAccess::Write => Instr::Csrrwi { rd, imm, csr },
            CsrAccess::Set => Instr::Csrrsi { rd, imm, csr },
            CsrAccess::Clear => Instr::Csrrci { rd, imm, csr },
        }
    }
}
