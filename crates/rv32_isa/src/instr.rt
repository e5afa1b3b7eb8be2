//! The instructions.

/// An instruction of RV32I, M, Zicsr or Zifencei, or one of MRET and WFI.
///
/// Registers are 0 to 31 and a CSR's number is 0 to 4,095. An immediate is the number that is added or compared, sign and
/// all: -2,048 to 2,047 in computations, loads, stores and JALR; even and -4,096 to 4,094 in branches; even and
/// -1,048,576 to 1,048,574 in JAL. The immediate of LUI and AUIPC is bits 31 to 12, as 0 to 0xF_FFFF; that of a shift and
/// of a CSR instruction is 0 to 31. A fence's `bits` are its word with bits 14 to 12 and 6 to 0 cleared.
#[derive(Clone, Copy, Debug, PartialEq, Eq)]
pub enum Instr {
    /// rd is `imm << 12`.
    Lui { rd: u32, imm: i32 },
    /// rd is the pc plus `imm << 12`.
    Auipc { rd: u32, imm: i32 },
    /// rd is the next pc, and the pc moves by `imm`.
    Jal { rd: u32, imm: i32 },
    /// rd is the next pc, and the pc is rs1 plus `imm`, with bit 0 cleared.
    Jalr { rd: u32, rs1: u32, imm: i32 },
    /// The pc moves by `imm` where rs1 equals rs2.
    Beq { rs1: u32, rs2: u32, imm: i32 },
    /// The pc moves by `imm` where rs1 differs from rs2.
    Bne { rs1: u32, rs2: u32, imm: i32 },
    /// The pc moves by `imm` where rs1 is less than rs2, signed.
    Blt { rs1: u32, rs2: u32, imm: i32 },
    /// The pc moves by `imm` where rs1 is not less than rs2, signed.
    Bge { rs1: u32, rs2: u32, imm: i32 },
    /// The pc moves by `imm` where rs1 is less than rs2, unsigned.
    Bltu { rs1: u32, rs2: u32, imm: i32 },
    /// The pc moves by `imm` where rs1 is not less than rs2, unsigned.
    Bgeu { rs1: u32, rs2: u32, imm: i32 },
    /// Loads a signed byte from rs1 plus `imm`.
    Lb { rd: u32, rs1: u32, imm: i32 },
    /// Loads a signed halfword.
    Lh { rd: u32, rs1: u32, imm: i32 },
    /// Loads a word.
    Lw { rd: u32, rs1: u32, imm: i32 },
    /// Loads an unsigned byte.
    Lbu { rd: u32, rs1: u32, imm: i32 },
    /// Loads an unsigned halfword.
    Lhu { rd: u32, rs1: u32, imm: i32 },
    /// Stores the low byte of rs2 at rs1 plus `imm`.
    Sb { rs1: u32, rs2: u32, imm: i32 },
    /// Stores the low halfword of rs2.
    Sh { rs1: u32, rs2: u32, imm: i32 },
    /// Stores rs2.
    Sw { rs1: u32, rs2: u32, imm: i32 },
    /// rd is rs1 plus `imm`.
    Addi { rd: u32, rs1: u32, imm: i32 },
    /// rd is 1 where rs1 is less than `imm`, signed, else 0.
    Slti { rd: u32, rs1: u32, imm: i32 },
    /// rd is 1 where rs1 is less than `imm`, unsigned, else 0.
    Sltiu { rd: u32, rs1: u32, imm: i32 },
    /// rd is rs1 xor `imm`.
    Xori { rd: u32, rs1: u32, imm: i32 },
    /// rd is rs1 or `imm`.
    Ori { rd: u32, rs1: u32, imm: i32 },
    /// rd is rs1 and `imm`.
    Andi { rd: u32, rs1: u32, imm: i32 },
    /// rd is rs1 shifted left by `imm`.
    Slli { rd: u32, rs1: u32, imm: i32 },
    /// rd is rs1 shifted right by `imm`, filled with zeros.
    Srli { rd: u32, rs1: u32, imm: i32 },
    /// rd is rs1 shifted right by `imm`, filled with its sign.
    Srai { rd: u32, rs1: u32, imm: i32 },
    /// rd is rs1 plus rs2.
    Add { rd: u32, rs1: u32, rs2: u32 },
    /// rd is rs1 minus rs2.
    Sub { rd: u32, rs1: u32, rs2: u32 },
    /// rd is rs1 shifted left by the low 5 bits of rs2.
    Sll { rd: u32, rs1: u32, rs2: u32 },
    /// rd is 1 where rs1 is less than rs2, signed, else 0.
    Slt { rd: u32, rs1: u32, rs2: u32 },
    /// rd is 1 where rs1 is less than rs2, unsigned, else 0.
    Sltu { rd: u32, rs1: u32, rs2: u32 },
    /// rd is rs1 xor rs2.
    Xor { rd: u32, rs1: u32, rs2: u32 },
    /// rd is rs1 shifted right by the low 5 bits of rs2, filled with zeros.
    Srl { rd: u32, rs1: u32, rs2: u32 },
    /// rd is rs1 shifted right by the low 5 bits of rs2, filled with its sign.
    Sra { rd: u32, rs1: u32, rs2: u32 },
    /// rd is rs1 or rs2.
    Or { rd: u32, rs1: u32, rs2: u32 },
    /// rd is rs1 and rs2.
    And { rd: u32, rs1: u32, rs2: u32 },
    /// rd is the low word of rs1 times rs2.
    Mul { rd: u32, rs1: u32, rs2: u32 },
    /// rd is the high word of the signed product.
    Mulh { rd: u32, rs1: u32, rs2: u32 },
    /// rd is the high word of signed rs1 times unsigned rs2.
    Mulhsu { rd: u32, rs1: u32, rs2: u32 },
    /// rd is the high word of the unsigned product.
    Mulhu { rd: u32, rs1: u32, rs2: u32 },
    /// rd is the signed quotient, rounded towards zero.
    Div { rd: u32, rs1: u32, rs2: u32 },
    /// rd is the unsigned quotient.
    Divu { rd: u32, rs1: u32, rs2: u32 },
    /// rd is the signed remainder, of the dividend's sign.
    Rem { rd: u32, rs1: u32, rs2: u32 },
    /// rd is the unsigned remainder.
    Remu { rd: u32, rs1: u32, rs2: u32 },
    /// Orders memory accesses.
    Fence { bits: u32 },
    /// Orders stores and fetches.
    FenceI { bits: u32 },
    /// Traps to the environment.
    Ecall,
    /// Traps to a debugger.
    Ebreak,
    /// Returns from a trap.
    Mret,
    /// Waits for an interrupt.
    Wfi,
    /// rd is the CSR, and the CSR becomes rs1.
    Csrrw { rd: u32, rs1: u32, csr: u32 },
    /// rd is the CSR, and rs1's bits are set in it.
    Csrrs { rd: u32, rs1: u32, csr: u32 },
    /// rd is the CSR, and rs1's bits are cleared in it.
    Csrrc { rd: u32, rs1: u32, csr: u32 },
    /// As CSRRW, with `imm` in place of rs1.
    Csrrwi { rd: u32, imm: i32, csr: u32 },
    /// As CSRRS, with `imm` in place of rs1.
    Csrrsi { rd: u32, imm: i32, csr: u32 },
    /// As CSRRC, with `imm` in place of rs1.
    Csrrci { rd: u32, imm: i32, csr: u32 },
    /// A word that is no instruction.
    Illegal,
}
