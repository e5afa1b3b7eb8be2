//! From an instruction to its word.

ghost use Rattle.std.specs.Prelude.{◌≡◌, ◌<◌, ◌≤◌, ◌+◌, ◌*◌, ◌^◌, IfSome};
ghost use Rattle.rv32_isa.specs.Bits.{is_signed, is_unsigned};
ghost use Rattle.rv32_isa.specs.Formats.{is_register, is_even, r_type, i_type, shift_type, s_type, b_type, u_type, j_type, csr_type, csr_immediate_type, fence_type};
ghost use Rattle.rv32_isa.specs.Table.{encoded, encoded_computation, decoded};

use crate::instr::Instr;
use crate::opcode::{AUIPC, BRANCH, JAL, JALR, LOAD, LUI, MISC_MEM, OP, OP_IMM, STORE, SYSTEM};
use crate::word::Word;

/// The word that stands for an instruction.
///
/// `None` comes exactly for [`Instr::Illegal`] and for a field out of its range (the fields of [`Instr`] say which): a
/// register of 32 or more, an immediate that its format has no bits for, an odd offset of a branch or of JAL, a CSR's
/// number of 4,096 or more, or a bit of a fence that is not free.
pub fn encode(instr: &Instr) -> Option<u32>
    ensures value { result ≡ encoded instr.now }

    // The instruction that the word stands for is this one.
    ensures decodes_back { IfSome result (λ word. decoded word ≡ instr.now) }
{
    word(*instr)
}

#[tactic(auto, unfolding(crate::specs::Table::encoded))]
fn word(instr: Instr) -> Option<u32>
    ensures { result ≡ encoded instr }
{
    match instr {
        Instr::Lui { rd, imm } => u_type(LUI, rd, imm),
        Instr::Auipc { rd, imm } => u_type(AUIPC, rd, imm),
        Instr::Jal { rd, imm } => j_type(JAL, rd, imm),
        Instr::Jalr { rd, rs1, imm } => i_type(JALR, 0b000, rd, rs1, imm),
        Instr::Beq { rs1, rs2, imm } => b_type(BRANCH, 0b000, rs1, rs2, imm),
        Instr::Bne { rs1, rs2, imm } => b_type(BRANCH, 0b001, rs1, rs2, imm),
        Instr::Blt { rs1, rs2, imm } => b_type(BRANCH, 0b100, rs1, rs2, imm),
        Instr::Bge { rs1, rs2, imm } => b_type(BRANCH, 0b101, rs1, rs2, imm),
        Instr::Bltu { rs1, rs2, imm } => b_type(BRANCH, 0b110, rs1, rs2, imm),
        Instr::Bgeu { rs1, rs2, imm } => b_type(BRANCH, 0b111, rs1, rs2, imm),
        Instr::Lb { rd, rs1, imm } => i_type(LOAD, 0b000, rd, rs1, imm),
        Instr::Lh { rd, rs1, imm } => i_type(LOAD, 0b001, rd, rs1, imm),
        Instr::Lw { rd, rs1, imm } => i_type(LOAD, 0b010, rd, rs1, imm),
        Instr::Lbu { rd, rs1, imm } => i_type(LOAD, 0b100, rd, rs1, imm),
        Instr::Lhu { rd, rs1, imm } => i_type(LOAD, 0b101, rd, rs1, imm),
        Instr::Sb { rs1, rs2, imm } => s_type(STORE, 0b000, rs1, rs2, imm),
        Instr::Sh { rs1, rs2, imm } => s_type(STORE, 0b001, rs1, rs2, imm),
        Instr::Sw { rs1, rs2, imm } => s_type(STORE, 0b010, rs1, rs2, imm),
        Instr::Fence { bits } => fence_type(MISC_MEM, 0b000, bits),
        Instr::FenceI { bits } => fence_type(MISC_MEM, 0b001, bits),
        Instr::Ecall => Some(0x0000_0073),
        Instr::Ebreak => Some(0x0010_0073),
        Instr::Mret => Some(0x3020_0073),
        Instr::Wfi => Some(0x1050_0073),
        Instr::Csrrwi { rd, imm, csr } => csr_immediate_type(SYSTEM, 0b101, rd, imm, csr),
        Instr::Csrrsi { rd, imm, csr } => csr_immediate_type(SYSTEM, 0b110, rd, imm, csr),
        Instr::Csrrci { rd, imm, csr } => csr_immediate_type(SYSTEM, 0b111, rd, imm, csr),
        Instr::Csrrw { rd, rs1, csr } => csr_type(SYSTEM, 0b001, rd, rs1, csr),
        Instr::Csrrs { rd, rs1, csr } => csr_type(SYSTEM, 0b010, rd, rs1, csr),
        Instr::Csrrc { rd, rs1, csr } => csr_type(SYSTEM, 0b011, rd, rs1, csr),
        _ => computation(instr),
    }
}

#[tactic(auto, unfolding(crate::specs::Table::encoded_computation))]
fn computation(instr: Instr) -> Option<u32>
    ensures { result ≡ encoded_computation instr }
{
    match instr {
        Instr::Addi { rd, rs1, imm } => i_type(OP_IMM, 0b000, rd, rs1, imm),
        Instr::Slti { rd, rs1, imm } => i_type(OP_IMM, 0b010, rd, rs1, imm),
        Instr::Sltiu { rd, rs1, imm } => i_type(OP_IMM, 0b011, rd, rs1, imm),
        Instr::Xori { rd, rs1, imm } => i_type(OP_IMM, 0b100, rd, rs1, imm),
        Instr::Ori { rd, rs1, imm } => i_type(OP_IMM, 0b110, rd, rs1, imm),
        Instr::Andi { rd, rs1, imm } => i_type(OP_IMM, 0b111, rd, rs1, imm),
        Instr::Slli { rd, rs1, imm } => shift_type(OP_IMM, 0b001, 0b0000000, rd, rs1, imm),
        Instr::Srli { rd, rs1, imm } => shift_type(OP_IMM, 0b101, 0b0000000, rd, rs1, imm),
        Instr::Srai { rd, rs1, imm } => shift_type(OP_IMM, 0b101, 0b0100000, rd, rs1, imm),
        Instr::Add { rd, rs1, rs2 } => r_type(OP, 0b000, 0b0000000, rd, rs1, rs2),
        Instr::Sub { rd, rs1, rs2 } => r_type(OP, 0b000, 0b0100000, rd, rs1, rs2),
        Instr::Sll { rd, rs1, rs2 } => r_type(OP, 0b001, 0b0000000, rd, rs1, rs2),
        Instr::Slt { rd, rs1, rs2 } => r_type(OP, 0b010, 0b0000000, rd, rs1, rs2),
        Instr::Sltu { rd, rs1, rs2 } => r_type(OP, 0b011, 0b0000000, rd, rs1, rs2),
        Instr::Xor { rd, rs1, rs2 } => r_type(OP, 0b100, 0b0000000, rd, rs1, rs2),
        Instr::Srl { rd, rs1, rs2 } => r_type(OP, 0b101, 0b0000000, rd, rs1, rs2),
        Instr::Sra { rd, rs1, rs2 } => r_type(OP, 0b101, 0b0100000, rd, rs1, rs2),
        Instr::Or { rd, rs1, rs2 } => r_type(OP, 0b110, 0b0000000, rd, rs1, rs2),
        Instr::And { rd, rs1, rs2 } => r_type(OP, 0b111, 0b0000000, rd, rs1, rs2),
        Instr::Mul { rd, rs1, rs2 } => r_type(OP, 0b000, 0b0000001, rd, rs1, rs2),
        Instr::Mulh { rd, rs1, rs2 } => r_type(OP, 0b001, 0b0000001, rd, rs1, rs2),
        Instr::Mulhsu { rd, rs1, rs2 } => r_type(OP, 0b010, 0b0000001, rd, rs1, rs2),
        Instr::Mulhu { rd, rs1, rs2 } => r_type(OP, 0b011, 0b0000001, rd, rs1, rs2),
        Instr::Div { rd, rs1, rs2 } => r_type(OP, 0b100, 0b0000001, rd, rs1, rs2),
        Instr::Divu { rd, rs1, rs2 } => r_type(OP, 0b101, 0b0000001, rd, rs1, rs2),
        Instr::Rem { rd, rs1, rs2 } => r_type(OP, 0b110, 0b0000001, rd, rs1, rs2),
        Instr::Remu { rd, rs1, rs2 } => r_type(OP, 0b111, 0b0000001, rd, rs1, rs2),
        _ => None,
    }
}

fn is_register(number: u32) -> bool
    ensures { result ≡ is_register number }
{
    number < 32
}

// The number is one of those that so many bits represent in two's complement.
fn is_signed(number: i32, width: u32) -> bool
    requires some { 0 < width }
    requires at_most_31 { width ≤ 31 }
    ensures { result ≡ is_signed width number }
{
    number.cast_unsigned().wrapping_add(1 << (width - 1)) < 1 << width
}

// The number is one of those that so many bits represent without a sign.
fn is_unsigned(number: i32, width: u32) -> bool
    requires { width ≤ 31 }
    ensures { result ≡ is_unsigned width number }
{
    number.cast_unsigned() < 1 << width
}

fn is_even(number: i32) -> bool
    ensures { result ≡ is_even number }
{
    number & 1 == 0
}

// The word of bits 31 to 20 and the fields below them.
fn assembled(top: u32, rs1: u32, funct3: u32, rd: u32, opcode: u32) -> u32
    requires top { top < 2 ^ 12 }
    requires rs1 { rs1 < 2 ^ 5 }
    requires funct3 { funct3 < 2 ^ 3 }
    requires rd { rd < 2 ^ 5 }
    requires opcode { opcode < 2 ^ 7 }
    ensures { result ≡ top * 2 ^ 20 + rs1 * 2 ^ 15 + funct3 * 2 ^ 12 + rd * 2 ^ 7 + opcode }
{
    top << 20 | rs1 << 15 | funct3 << 12 | rd << 7 | opcode
}

// The word of bits 31 to 12 and the fields below them.
fn assembled_upper(top: u32, rd: u32, opcode: u32) -> u32
    requires top { top < 2 ^ 20 }
    requires rd { rd < 2 ^ 5 }
    requires opcode { opcode < 2 ^ 7 }
    ensures { result ≡ top * 2 ^ 12 + rd * 2 ^ 7 + opcode }
{
    top << 12 | rd << 7 | opcode
}

fn r_type(opcode: u32, funct3: u32, funct7: u32, rd: u32, rs1: u32, rs2: u32) -> Option<u32>
    requires opcode { opcode < 2 ^ 7 }
    requires funct3 { funct3 < 2 ^ 3 }
    requires funct7 { funct7 < 2 ^ 7 }
    ensures { result ≡ r_type opcode funct3 funct7 rd rs1 rs2 }
{
    if !is_register(rd) || !is_register(rs1) || !is_register(rs2) {
        return None;
    }
    Some(assembled(funct7 << 5 | rs2, rs1, funct3, rd, opcode))
}

fn i_type(opcode: u32, funct3: u32, rd: u32, rs1: u32, imm: i32) -> Option<u32>
    requires opcode { opcode < 2 ^ 7 }
    requires funct3 { funct3 < 2 ^ 3 }
    ensures { result ≡ i_type opcode funct3 rd rs1 imm }
{
    if !is_register(rd) || !is_register(rs1) || !is_signed(imm, 12) {
        return None;
    }
    Some(assembled(imm.cast_unsigned() & 0xFFF, rs1, funct3, rd, opcode))
}

fn shift_type(opcode: u32, funct3: u32, funct7: u32, rd: u32, rs1: u32, imm: i32) -> Option<u32>
    requires opcode { opcode < 2 ^ 7 }
    requires funct3 { funct3 < 2 ^ 3 }
    requires funct7 { funct7 < 2 ^ 7 }
    ensures { result ≡ shift_type opcode funct3 funct7 rd rs1 imm }
{
    if !is_register(rd) || !is_register(rs1) || !is_unsigned(imm, 5) {
        return None;
    }
    Some(assembled(
        funct7 << 5 | imm.cast_unsigned() & 0x1F,
        rs1,
        funct3,
        rd,
        opcode,
    ))
}

fn s_type(opcode: u32, funct3: u32, rs1: u32, rs2: u32, imm: i32) -> Option<u32>
    requires opcode { opcode < 2 ^ 7 }
    requires funct3 { funct3 < 2 ^ 3 }
    ensures { result ≡ s_type opcode funct3 rs1 rs2 imm }
{
    if !is_register(rs1) || !is_register(rs2) || !is_signed(imm, 12) {
        return None;
    }
    let imm = imm.cast_unsigned();
    let high = imm >> 5 & 0x7F;
    let low = imm & 0x1F;
    Some(assembled(high << 5 | rs2, rs1, funct3, low, opcode))
}

fn b_type(opcode: u32, funct3: u32, rs1: u32, rs2: u32, imm: i32) -> Option<u32>
    requires opcode { opcode < 2 ^ 7 }
    requires funct3 { funct3 < 2 ^ 3 }
    ensures { result ≡ b_type opcode funct3 rs1 rs2 imm }
{
    if !is_register(rs1) || !is_register(rs2) || !is_signed(imm, 13) || !is_even(imm) {
        return None;
    }
    let imm = imm.cast_unsigned();
    let high = (imm >> 12 & 1) << 6 | imm >> 5 & 0x3F;
    let low = (imm >> 1 & 0xF) << 1 | imm >> 11 & 1;
    Some(assembled(high << 5 | rs2, rs1, funct3, low, opcode))
}

fn u_type(opcode: u32, rd: u32, imm: i32) -> Option<u32>
    requires { opcode < 2 ^ 7 }
    ensures { result ≡ u_type opcode rd imm }
{
    if !is_register(rd) || !is_unsigned(imm, 20) {
        return None;
    }
    Some(assembled_upper(imm.cast_unsigned() & 0xF_FFFF, rd, opcode))
}

fn j_type(opcode: u32, rd: u32, imm: i32) -> Option<u32>
    requires { opcode < 2 ^ 7 }
    ensures { result ≡ j_type opcode rd imm }
{
    if !is_register(rd) || !is_signed(imm, 21) || !is_even(imm) {
        return None;
    }
    let imm = imm.cast_unsigned();
    let high = (imm >> 20 & 1) << 10 | imm >> 1 & 0x3FF;
    let low = (imm >> 11 & 1) << 8 | imm >> 12 & 0xFF;
    Some(assembled_upper(high << 9 | low, rd, opcode))
}

fn csr_type(opcode: u32, funct3: u32, rd: u32, rs1: u32, csr: u32) -> Option<u32>
    requires opcode { opcode < 2 ^ 7 }
    requires funct3 { funct3 < 2 ^ 3 }
    ensures { result ≡ csr_type opcode funct3 rd rs1 csr }
{
    if !is_register(rd) || !is_register(rs1) || csr >= 4096 {
        return None;
    }
    Some(assembled(csr, rs1, funct3, rd, opcode))
}

fn csr_immediate_type(opcode: u32, funct3: u32, rd: u32, imm: i32, csr: u32) -> Option<u32>
    requires opcode { opcode < 2 ^ 7 }
    requires funct3 { funct3 < 2 ^ 3 }
    ensures { result ≡ csr_immediate_type opcode funct3 rd imm csr }
{
    if !is_register(rd) || !is_unsigned(imm, 5) || csr >= 4096 {
        return None;
    }
    Some(assembled(csr, imm.cast_unsigned() & 0x1F, funct3, rd, opcode))
}

fn fence_type(opcode: u32, funct3: u32, bits: u32) -> Option<u32>
    requires opcode { opcode < 2 ^ 7 }
    requires funct3 { funct3 < 2 ^ 3 }
    ensures { result ≡ fence_type opcode funct3 bits }
{
    let fields = Word(bits);
    if fields.funct3() != 0 || fields.opcode() != 0 {
        return None;
    }
    Some(assembled(fields.csr(), fields.rs1(), funct3, fields.rd(), opcode))
}
