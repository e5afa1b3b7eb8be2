//! What the name of a statement asks for.
use crate::statement::Condition;
use rv32_isa::Instr;

/// What the name of a statement asks for, and with it the form of its operands.
#[derive(Clone, Copy, Debug)]
pub(crate) enum Operation {
    /// `name rd, rs1, rs2`.
    Computation(Computation),
    /// `name rd, rs1, imm`.
    Immediate(ImmediateComputation),
    /// `name rd, rs1, shamt`.
    Shift(Shift),
    /// `name rd, imm(rs1)`.
    Load(Load),
    /// `name rs2, imm(rs1)`.
    Store(Store),
    /// `name rs1, rs2, label`.
    Branch(Condition),
    /// `name rd, imm`.
    Upper(Upper),
    /// `name rd, csr, rs1`.
    Csr(CsrAccess),
    /// `name rd, csr, imm`.
    CsrImmediate(CsrAccess),
    /// `name`, which stands for one instruction.
    Alone(Instr),
    /// `jal rd, label`.
    JumpAndLink,
    /// `j label`.
    Jump,
    /// `mv rd, rs`.
    Move,
    /// `li rd, n`.
    LoadImmediate,
    /// `la rd, label`.
    LoadAddress,
    /// `.word n` or `.word label`.
    Word,
    /// `.byte n`.
    Byte,
    /// `.space n`.
    Space,
}

/// The computations with two registers.
#[derive(Clone, Copy, Debug)]
pub(crate) enum Computation {
    Add,
    Sub,
    Sll,
    Slt,
    Sltu,
    Xor,
    Srl,
    Sra,
    Or,
    And,
    Mul,
    Mulh,
    Mulhsu,
    Mulhu,
    Div,
    Divu,
    Rem,
    Remu,
}

/// The computations with an immediate.
#[derive(Clone, Copy, Debug)]
pub(crate) enum ImmediateComputation {
    Addi,
    Slti,
    Sltiu,
    Xori,
    Ori,
    Andi,
}

/// The shifts by an immediate amount.
#[derive(Clone, Copy, Debug)]
pub(crate) enum Shift {
    Slli,
    Srli,
    Srai,
}

/// What reads from rs1 plus an immediate.
#[derive(Clone, Copy, Debug)]
pub(crate) enum Load {
    Jalr,
    Lb,
    Lh,
    Lw,
    Lbu,
    Lhu,
}

#[derive(Clone, Copy, Debug)]
pub(crate) enum Store {
    Sb,
    Sh,
    Sw,
}

/// What takes the upper twenty bits of a word.
#[derive(Clone, Copy, Debug)]
pub(crate) enum Upper {
    Lui,
    Auipc,
}

/// What an instruction does to a CSR.
#[derive(Clone, Copy, Debug)]
pub(crate) enum CsrAccess {
    Write,
    Set,
    Clear,
}
