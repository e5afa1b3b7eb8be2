use cs_base::Octets;
use rv32_isa::Instr;

/// When a branch is taken.
#[derive(Clone, Copy, Debug, PartialEq, Eq)]
pub enum Condition {
    /// `beq`: rs1 equals rs2.
    Equal,
    /// `bne`: rs1 differs from rs2.
    NotEqual,
    /// `blt`: rs1 is less than rs2, signed.
    Less,
    /// `bge`: rs1 is not less than rs2, signed.
    NotLess,
    /// `bltu`: rs1 is less than rs2, unsigned.
    LessUnsigned,
    /// `bgeu`: rs1 is not less than rs2, unsigned.
    NotLessUnsigned,
}

/// What a line asks for, with its numbers in their ranges. Registers are 0 to 31; a label is its bytes.
#[derive(Debug, Drop)]
pub enum Statement {
    /// One instruction whose fields all stand in the line; `nop`, `mv` and `ret` are such too.
    Instruction(Instr),
    /// A branch to a label.
    Branch {
        condition: Condition,
        rs1: u32,
        rs2: u32,
        to: Octets,
    },
    /// A jump to a label; of `j` the register is x0.
    Jump {
        rd: u32,
        to: Octets,
    },
    /// `li`: rd is a value, -2^31 to 2^32 - 1.
    LoadImmediate {
        rd: u32,
        value: i64,
    },
    /// `la`: rd is the address of a label.
    LoadAddress {
        rd: u32,
        to: Octets,
    },
    /// `.word`: four bytes of a value, -2^31 to 2^32 - 1.
    Word(i64),
    /// `.word`: the address of a label.
    WordOf(Octets),
    /// `.byte`: one byte of a value, -128 to 255.
    Byte(i64),
    /// `.space`: that many zeros, 0 to 16,777,216.
    Space(u32),
}
