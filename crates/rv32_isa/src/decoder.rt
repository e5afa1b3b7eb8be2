//! From a word to its instruction.

ghost use Rattle.std.specs.Prelude.{◌≡◌, ◌≢◌};
ghost use Rattle.rv32_isa.specs.Formats.{funct3_in, funct7_in, rd_in, rs1_in, rs2_in, csr_in, fence_bits_in, i_immediate_in, s_immediate_in, b_immediate_in, shift_amount_in, csr_immediate_in};
ghost use Rattle.rv32_isa.specs.Table.{encoded, decoded, select, jalr_rows, branch_rows, load_rows, store_rows, immediate_rows, left_shift_rows, right_shift_rows, register_rows, base_rows, alternate_rows, multiply_rows, fence_rows, privileged_rows, system_rows};

use crate::instr::Instr;
use crate::opcode::{AUIPC, BRANCH, JAL, JALR, LOAD, LUI, MISC_MEM, OP, OP_IMM, STORE, SYSTEM};
use crate::word::Word;

/// The instruction that a word stands for; [`Instr::Illegal`] for a word that stands for none.
///
/// The listings of RV32I, RV32M, Zicsr and Zifencei in the RISC-V unprivileged ISA say which word is which; MRET and WFI
/// are of the privileged ISA. FENCE and FENCE.I are read whatever their other bits are.
#[inline(always)]
pub fn decode(word: u32) -> Instr
    ensures value { result ≡ decoded word }

    // The word of a legal instruction is the one that it was read from.
    ensures encodes_back { result ≢ Instr.Illegal → encoded result ≡ Some word }
{
    instruction(Word(word))
}

#[tactic(auto, unfolding(crate::specs::Table::decoded, crate::specs::Table::opcode_rows))]
#[inline(always)]
fn instruction(word: Word) -> Instr
    ensures { result ≡ decoded word.0 }
{
    match word.opcode() {
        LUI => Instr::Lui {
            rd: word.rd(),
            imm: word.u_immediate(),
        },
        AUIPC => Instr::Auipc {
            rd: word.rd(),
            imm: word.u_immediate(),
        },
        JAL => Instr::Jal {
            rd: word.rd(),
            imm: word.j_immediate(),
        },
        JALR => jalr(word),
        BRANCH => branch(word),
        LOAD => load(word),
        STORE => store(word),
        OP_IMM => immediate(word),
        OP => register(word),
        MISC_MEM => fence(word),
        SYSTEM => system(word),
        _ => Instr::Illegal,
    }
}

#[tactic(auto, unfolding(crate::specs::Table::jalr_rows))]
#[inline(always)]
fn jalr(word: Word) -> Instr
    ensures { result ≡ select (funct3_in word.0)
        (jalr_rows (rd_in word.0) (rs1_in word.0) (i_immediate_in word.0)) }
{
    match word.funct3() {
        0b000 => Instr::Jalr {
            rd: word.rd(),
            rs1: word.rs1(),
            imm: word.i_immediate(),
        },
        _ => Instr::Illegal,
    }
}

#[tactic(auto, unfolding(crate::specs::Table::branch_rows))]
#[inline(always)]
fn branch(word: Word) -> Instr
    ensures { result ≡ select (funct3_in word.0)
        (branch_rows (rs1_in word.0) (rs2_in word.0) (b_immediate_in word.0)) }
{
    let rs1 = word.rs1();
    let rs2 = word.rs2();
    let imm = word.b_immediate();
    match word.funct3() {
        0b000 => Instr::Beq { rs1, rs2, imm },
        0b001 => Instr::Bne { rs1, rs2, imm },
        0b100 => Instr::Blt { rs1, rs2, imm },
        0b101 => Instr::Bge { rs1, rs2, imm },
        0b110 => Instr::Bltu { rs1, rs2, imm },
        0b111 => Instr::Bgeu { rs1, rs2, imm },
        _ => Instr::Illegal,
    }
}

#[tactic(auto, unfolding(crate::specs::Table::load_rows))]
#[inline(always)]
fn load(word: Word) -> Instr
    ensures { result ≡ select (funct3_in word.0)
        (load_rows (rd_in word.0) (rs1_in word.0) (i_immediate_in word.0)) }
{
    let rd = word.rd();
    let rs1 = word.rs1();
    let imm = word.i_immediate();
    match word.funct3() {
        0b000 => Instr::Lb { rd, rs1, imm },
        0b001 => Instr::Lh { rd, rs1, imm },
        0b010 => Instr::Lw { rd, rs1, imm },
        0b100 => Instr::Lbu { rd, rs1, imm },
        0b101 => Instr::Lhu { rd, rs1, imm },
        _ => Instr::Illegal,
    }
}

#[tactic(auto, unfolding(crate::specs::Table::store_rows))]
#[inline(always)]
fn store(word: Word) -> Instr
    ensures { result ≡ select (funct3_in word.0)
        (store_rows (rs1_in word.0) (rs2_in word.0) (s_immediate_in word.0)) }
{
    let rs1 = word.rs1();
    let rs2 = word.rs2();
    let imm = word.s_immediate();
    match word.funct3() {
        0b000 => Instr::Sb { rs1, rs2, imm },
        0b001 => Instr::Sh { rs1, rs2, imm },
        0b010 => Instr::Sw { rs1, rs2, imm },
        _ => Instr::Illegal,
    }
}

#[tactic(auto, unfolding(crate::specs::Table::immediate_rows))]
#[inline(always)]
fn immediate(word: Word) -> Instr
    ensures { result ≡ select (funct3_in word.0)
        (immediate_rows (funct7_in word.0) (rd_in word.0) (rs1_in word.0) (i_immediate_in word.0)
        (shift_amount_in word.0)) }
{
    let rd = word.rd();
    let rs1 = word.rs1();
    let imm = word.i_immediate();
    match word.funct3() {
        0b000 => Instr::Addi { rd, rs1, imm },
        0b010 => Instr::Slti { rd, rs1, imm },
        0b011 => Instr::Sltiu { rd, rs1, imm },
        0b100 => Instr::Xori { rd, rs1, imm },
        0b110 => Instr::Ori { rd, rs1, imm },
        0b111 => Instr::Andi { rd, rs1, imm },
        0b001 => left_shift(word),
        0b101 => right_shift(word),
        _ => Instr::Illegal,
    }
}

#[tactic(auto, unfolding(crate::specs::Table::left_shift_rows))]
#[inline(always)]
fn left_shift(word: Word) -> Instr
    ensures { result ≡ select (funct7_in word.0)
        (left_shift_rows (rd_in word.0) (rs1_in word.0) (shift_amount_in word.0)) }
{
    match word.funct7() {
        0b0000000 => Instr::Slli {
            rd: word.rd(),
            rs1: word.rs1(),
            imm: word.shift_amount(),
        },
        _ => Instr::Illegal,
    }
}

#[tactic(auto, unfolding(crate::specs::Table::right_shift_rows))]
#[inline(always)]
fn right_shift(word: Word) -> Instr
    ensures { result ≡ select (funct7_in word.0)
        (right_shift_rows (rd_in word.0) (rs1_in word.0) (shift_amount_in word.0)) }
{
    let rd = word.rd();
    let rs1 = word.rs1();
    let imm = word.shift_amount();
    match word.funct7() {
        0b0000000 => Instr::Srli { rd, rs1, imm },
        0b0100000 => Instr::Srai { rd, rs1, imm },
        _ => Instr::Illegal,
    }
}

#[tactic(auto, unfolding(crate::specs::Table::register_rows))]
#[inline(always)]
fn register(word: Word) -> Instr
    ensures { result ≡ select (funct7_in word.0)
        (register_rows (funct3_in word.0) (rd_in word.0) (rs1_in word.0) (rs2_in word.0)) }
{
    match word.funct7() {
        0b0000000 => base(word),
        0b0100000 => alternate(word),
        0b0000001 => multiply(word),
        _ => Instr::Illegal,
    }
}

#[tactic(auto, unfolding(crate::specs::Table::base_rows))]
#[inline(always)]
fn base(word: Word) -> Instr
    ensures { result ≡ select (funct3_in word.0)
        (base_rows (rd_in word.0) (rs1_in word.0) (rs2_in word.0)) }
{
    let rd = word.rd();
    let rs1 = word.rs1();
    let rs2 = word.rs2();
    match word.funct3() {
        0b000 => Instr::Add { rd, rs1, rs2 },
        0b001 => Instr::Sll { rd, rs1, rs2 },
        0b010 => Instr::Slt { rd, rs1, rs2 },
        0b011 => Instr::Sltu { rd, rs1, rs2 },
        0b100 => Instr::Xor { rd, rs1, rs2 },
        0b101 => Instr::Srl { rd, rs1, rs2 },
        0b110 => Instr::Or { rd, rs1, rs2 },
        0b111 => Instr::And { rd, rs1, rs2 },
        _ => Instr::Illegal,
    }
}

#[tactic(auto, unfolding(crate::specs::Table::alternate_rows))]
#[inline(always)]
fn alternate(word: Word) -> Instr
    ensures { result ≡ select (funct3_in word.0)
        (alternate_rows (rd_in word.0) (rs1_in word.0) (rs2_in word.0)) }
{
    let rd = word.rd();
    let rs1 = word.rs1();
    let rs2 = word.rs2();
    match word.funct3() {
        0b000 => Instr::Sub { rd, rs1, rs2 },
        0b101 => Instr::Sra { rd, rs1, rs2 },
        _ => Instr::Illegal,
    }
}

#[tactic(auto, unfolding(crate::specs::Table::multiply_rows))]
#[inline(always)]
fn multiply(word: Word) -> Instr
    ensures { result ≡ select (funct3_in word.0)
        (multiply_rows (rd_in word.0) (rs1_in word.0) (rs2_in word.0)) }
{
    let rd = word.rd();
    let rs1 = word.rs1();
    let rs2 = word.rs2();
    match word.funct3() {
        0b000 => Instr::Mul { rd, rs1, rs2 },
        0b001 => Instr::Mulh { rd, rs1, rs2 },
        0b010 => Instr::Mulhsu { rd, rs1, rs2 },
        0b011 => Instr::Mulhu { rd, rs1, rs2 },
        0b100 => Instr::Div { rd, rs1, rs2 },
        0b101 => Instr::Divu { rd, rs1, rs2 },
        0b110 => Instr::Rem { rd, rs1, rs2 },
        0b111 => Instr::Remu { rd, rs1, rs2 },
        _ => Instr::Illegal,
    }
}

#[tactic(auto, unfolding(crate::specs::Table::fence_rows))]
#[inline(always)]
fn fence(word: Word) -> Instr
    ensures { result ≡ select (funct3_in word.0)
        (fence_rows (fence_bits_in word.0)) }
{
    let bits = word.fence_bits();
    match word.funct3() {
        0b000 => Instr::Fence { bits },
        0b001 => Instr::FenceI { bits },
        _ => Instr::Illegal,
    }
}

#[tactic(auto, unfolding(crate::specs::Table::privileged_rows))]
#[inline(always)]
fn privileged(word: Word) -> Instr
    ensures { result ≡ select word.0 privileged_rows }
{
    match word.0 {
        0x0000_0073 => Instr::Ecall,
        0x0010_0073 => Instr::Ebreak,
        0x3020_0073 => Instr::Mret,
        0x1050_0073 => Instr::Wfi,
        _ => Instr::Illegal,
    }
}

#[tactic(auto, unfolding(crate::specs::Table::system_rows))]
#[inline(always)]
fn system(word: Word) -> Instr
    ensures { result ≡ select (funct3_in word.0)
        (system_rows word.0 (rd_in word.0) (rs1_in word.0) (csr_immediate_in word.0)
        (csr_in word.0)) }
{
    let rd = word.rd();
    let csr = word.csr();
    match word.funct3() {
        0b000 => privileged(word),
        0b001 => Instr::Csrrw {
            rd,
            rs1: word.rs1(),
            csr,
        },
        0b010 => Instr::Csrrs {
            rd,
            rs1: word.rs1(),
            csr,
        },
        0b011 => Instr::Csrrc {
            rd,
            rs1: word.rs1(),
            csr,
        },
        0b101 => Instr::Csrrwi {
            rd,
            imm: word.csr_immediate(),
            csr,
        },
        0b110 => Instr::Csrrsi {
            rd,
            imm: word.csr_immediate(),
            csr,
        },
        0b111 => Instr::Csrrci {
            rd,
            imm: word.csr_immediate(),
            csr,
        },
        _ => Instr::Illegal,
    }
}

#[cfg(test)]
mod tests {
    use super::*;
    use crate::encoder::encode;

    // Words as the GNU assembler writes them.
    const KNOWN: [(u32, Instr); 12] = [
        (
            0x0220_C1B3,
            Instr::Div {
                rd: 3,
                rs1: 1,
                rs2: 2,
            },
        ),
        (
            0x0050_0093,
            Instr::Addi {
                rd: 1,
                rs1: 0,
                imm: 5,
            },
        ),
        (
            0xFFF0_0093,
            Instr::Addi {
                rd: 1,
                rs1: 0,
                imm: -1,
            },
        ),
        (
            0x8000_02B7,
            Instr::Lui {
                rd: 5,
                imm: 0x8_0000,
            },
        ),
        (0x0060_00EF, Instr::Jal { rd: 1, imm: 6 }),
        (0xFFDF_F06F, Instr::Jal { rd: 0, imm: -4 }),
        (
            0xFE20_8EE3,
            Instr::Beq {
                rs1: 1,
                rs2: 2,
                imm: -4,
            },
        ),
        (
            0x0062_A223,
            Instr::Sw {
                rs1: 5,
                rs2: 6,
                imm: 4,
            },
        ),
        (
            0x41F1_5093,
            Instr::Srai {
                rd: 1,
                rs1: 2,
                imm: 31,
            },
        ),
        (
            0xF140_20F3,
            Instr::Csrrs {
                rd: 1,
                rs1: 0,
                csr: 0xF14,
            },
        ),
        (0x0FF0_000F, Instr::Fence { bits: 0x0FF0_0000 }),
        (0x3020_0073, Instr::Mret),
    ];

    #[test]
    fn reads_and_writes_known_words(rt: HostRuntime) {
        for (word, instr) in KNOWN {
            assert!(rt; decode(word) == instr, "{word}");
            assert_eq!(rt; encode(&instr), Some(word));
        }
        assert!(rt; decode(0) == Instr::Illegal);
        assert_eq!(rt; encode(&Instr::Illegal), None);
        assert_eq!(rt; encode(&Instr::Jal { rd: 1, imm: 5 }), None);
    }
}
