ghost use Rattle.std.specs.Prelude.{◌≡◌, ℕ, ◌^◌, ℤ, pos, ◌*ℤ◌, ◌+ℤ◌, IfSome, IfNone, false, map, ◌∷◌, [], Some, None};
ghost use Rattle.rv32_isa.specs.Bits.{is_signed, word_of};
ghost use Rattle.rv32_isa.specs.Table.{encoded};
ghost use Rattle.rv32_asm.specs.LabelMap.{place_in};
ghost use Rattle.rv32_asm.specs.Meaning.{offset, lower, upper, branch, instructions, load_word, load_address};
ghost use Rattle.rv32_asm.specs.WordsSeen.{seen};

use crate::labels::Labels;
use asm_syntax::{Condition, Statement};
use rv32_isa::{Instr, encode};

/// The words of a statement's instructions; None for an instruction that has no word.
#[derive(Clone, Copy)]
pub(crate) enum Words {
    Zero,
    One(Option<u32>),
    Two(Option<u32>, Option<u32>),
}

/// The words of the instructions that a statement at an address stands for.
pub(crate) fn words_of(labels: &Labels, at: u128, statement: &Statement) -> Words
    ensures { seen result ≡ map encoded (instructions (place_in labels.now) at statement.now) }
{
    match statement {
        Statement::Instruction(instr) => Words::One(encode(instr)),
        Statement::Branch {
            condition,
            rs1,
            rs2,
            to,
        } => match labels.place(to.as_slice()) {
            Some(target) => Words::One(branch_word(*condition, *rs1, *rs2, at, target)),
            None => Words::Zero,
        },
        Statement::Jump { rd, to } => match labels.place(to.as_slice()) {
            Some(target) => Words::One(jump_word(*rd, at, target)),
            None => Words::Zero,
        },
        Statement::LoadImmediate { rd, value } => load_word(*rd, low_word(*value)),
        Statement::LoadAddress { rd, to } => match labels.place(to.as_slice()) {
            Some(target) => load_address(*rd, offset_word(at, target)),
            None => Words::Zero,
        },
        Statement::Word(_) | Statement::WordOf(_) | Statement::Byte(_) | Statement::Space(_) => {
            Words::Zero
        }
    }
}

fn branch_word(condition: Condition, rs1: u32, rs2: u32, at: u128, to: u128) -> Option<u32>
    ensures { result ≡ encoded (branch condition rs1 rs2 (offset at to)) }
{
    encode(&branch(condition, rs1, rs2, near_offset(at, to)?))
}

fn jump_word(rd: u32, at: u128, to: u128) -> Option<u32>
    ensures { result ≡ encoded (Instr.Jal rd (offset at to)) }
{
    encode(&Instr::Jal {
        rd,
        imm: near_offset(at, to)?,
    })
}

fn branch(condition: Condition, rs1: u32, rs2: u32, imm: i32) -> Instr
    ensures { result ≡ branch condition rs1 rs2 imm }
{
    match condition {
        Condition::Equal => Instr::Beq { rs1, rs2, imm },
        Condition::NotEqual => Instr::Bne { rs1, rs2, imm },
        Condition::Less => Instr::Blt { rs1, rs2, imm },
        Condition::NotLess => Instr::Bge { rs1, rs2, imm },
        Condition::LessUnsigned => Instr::Bltu { rs1, rs2, imm },
        Condition::NotLessUnsigned => Instr::Bgeu { rs1, rs2, imm },
    }
}

// The way to an address, where a jump could go it.
fn near_offset(at: u128, to: u128) -> Option<i32>
    ensures near { IfSome result (λ way. way ≡ offset at to) }
    ensures far { IfNone result (is_signed 21 (offset at to) ≡ false) }
{
    const REACH: u128 = 1 << 20;
    if at <= to && to - at <= REACH {
        Some((to - at) as i32)
    } else if to <= at && at - to <= REACH {
        Some(-((at - to) as i32))
    } else {
        None
    }
}

// The low 32 bits of a number.
pub(crate) fn low_word(value: i64) -> u32
    ensures { result ≡ word_of value }
{
    (value.cast_unsigned() & 0xFFFF_FFFF) as u32
}

// The low 32 bits of the way from an address to another.
fn offset_word(at: u128, to: u128) -> u32
    ensures { result ≡ word_of (offset at to) }
{
    (to.wrapping_sub(at) & 0xFFFF_FFFF) as u32
}

fn load_word(rd: u32, word: u32) -> Words
    ensures { seen result ≡ map encoded (load_word rd word) }
{
    Words::Two(
        encode(&Instr::Lui {
            rd,
            imm: upper(word),
        }),
        encode(&Instr::Addi {
            rd,
            rs1: rd,
            imm: lower(word),
        }),
    )
}

fn load_address(rd: u32, word: u32) -> Words
    ensures { seen result ≡ map encoded (load_address rd word) }
{
    Words::Two(
        encode(&Instr::Auipc {
            rd,
            imm: upper(word),
        }),
        encode(&Instr::Addi {
            rd,
            rs1: rd,
            imm: lower(word),
        }),
    )
}

// The low 12 bits as a signed number.
fn lower(word: u32) -> i32
    ensures { result ≡ lower word }
{
    (word << 20).cast_signed() >> 20
}

// The bits above them, with a carry where that number is negative.
fn upper(word: u32) -> i32
    ensures value { result ≡ upper word }

    // As LUI or AUIPC and ADDI add the two up, modulo 2^32, they make the word.
    ensures sum { word_of ((pos (2 ^ 12) *ℤ result) +ℤ lower word) ≡ word }
{
    (word.wrapping_add(0x800) >> 12).cast_signed()
}
