use cs_base::Octets;
use rv32_asm::{AsmBad, AsmReason, assemble};
use std::alloc::Global;
use std::process::Abort;
use std::test::Fail;

/// A source of one statement and its word, by the formats of the RISC-V unprivileged ISA.
#[derive(Clone, Copy)]
struct Word {
    source: &'static str,
    word: u32,
}

#[derive(Clone, Copy)]
struct Bytes {
    source: &'static str,
    bytes: &'static [u8],
}

#[derive(Clone, Copy)]
struct Fault {
    source: &'static str,
    line: u64,
    reason: AsmReason,
}

#[derive(Clone, Copy)]
struct Length {
    source: &'static str,
    len: usize,
}

fn assembled(alloc: Global, source: &str) -> Result<Octets, AsmBad> {
    assemble(alloc, source.as_bytes())
}

fn check_words(rt: &impl Abort, alloc: Global, rows: &[Word]) -> Result<(), AsmBad> {
    for row in rows {
        let bytes = assembled(alloc, row.source)?;
        assert_eq!(rt; bytes.as_slice(), row.word.to_le_bytes().as_slice());
    }
    Ok(())
}

const JUMPS_LOADS_AND_STORES: [Word; 18] = [
    Word {
        source: "lui x31, 0xFFFFF",
        word: 0xFFFF_FFB7,
    },
    Word {
        source: "auipc x1, 1",
        word: 0x0000_1097,
    },
    Word {
        source: "a: jal ra, a",
        word: 0x0000_00EF,
    },
    Word {
        source: "jalr x1, -4(x2)",
        word: 0xFFC1_00E7,
    },
    Word {
        source: "a: beq x1, x2, a",
        word: 0x0020_8063,
    },
    Word {
        source: "a: bne x1, x2, a",
        word: 0x0020_9063,
    },
    Word {
        source: "a: blt x1, x2, a",
        word: 0x0020_C063,
    },
    Word {
        source: "a: bge x1, x2, a",
        word: 0x0020_D063,
    },
    Word {
        source: "a: bltu x1, x2, a",
        word: 0x0020_E063,
    },
    Word {
        source: "a: bgeu x1, x2, a",
        word: 0x0020_F063,
    },
    Word {
        source: "lb x5, 2047(x6)",
        word: 0x7FF3_0283,
    },
    Word {
        source: "lh x5, 2047(x6)",
        word: 0x7FF3_1283,
    },
    Word {
        source: "lw x5, 2047(x6)",
        word: 0x7FF3_2283,
    },
    Word {
        source: "lbu x5, 2047(x6)",
        word: 0x7FF3_4283,
    },
    Word {
        source: "lhu x5, 2047(x6)",
        word: 0x7FF3_5283,
    },
    Word {
        source: "sb x5, -2048(x6)",
        word: 0x8053_0023,
    },
    Word {
        source: "sh x5, -2048(x6)",
        word: 0x8053_1023,
    },
    Word {
        source: "sw x5, -2048(x6)",
        word: 0x8053_2023,
    },
];

const COMPUTATIONS: [Word; 27] = [
    Word {
        source: "addi x7, x8, -1",
        word: 0xFFF4_0393,
    },
    Word {
        source: "slti x7, x8, -1",
        word: 0xFFF4_2393,
    },
    Word {
        source: "sltiu x7, x8, -1",
        word: 0xFFF4_3393,
    },
    Word {
        source: "xori x7, x8, -1",
        word: 0xFFF4_4393,
    },
    Word {
        source: "ori x7, x8, -1",
        word: 0xFFF4_6393,
    },
    Word {
        source: "andi x7, x8, -1",
        word: 0xFFF4_7393,
    },
    Word {
        source: "slli x7, x8, 31",
        word: 0x01F4_1393,
    },
    Word {
        source: "srli x7, x8, 1",
        word: 0x0014_5393,
    },
    Word {
        source: "srai x7, x8, 31",
        word: 0x41F4_5393,
    },
    Word {
        source: "add x9, x10, x11",
        word: 0x00B5_04B3,
    },
    Word {
        source: "sub x9, x10, x11",
        word: 0x40B5_04B3,
    },
    Word {
        source: "sll x9, x10, x11",
        word: 0x00B5_14B3,
    },
    Word {
        source: "slt x9, x10, x11",
        word: 0x00B5_24B3,
    },
    Word {
        source: "sltu x9, x10, x11",
        word: 0x00B5_34B3,
    },
    Word {
        source: "xor x9, x10, x11",
        word: 0x00B5_44B3,
    },
    Word {
        source: "srl x9, x10, x11",
        word: 0x00B5_54B3,
    },
    Word {
        source: "sra x9, x10, x11",
        word: 0x40B5_54B3,
    },
    Word {
        source: "or x9, x10, x11",
        word: 0x00B5_64B3,
    },
    Word {
        source: "and x9, x10, x11",
        word: 0x00B5_74B3,
    },
    Word {
        source: "mul x9, x10, x11",
        word: 0x02B5_04B3,
    },
    Word {
        source: "mulh x9, x10, x11",
        word: 0x02B5_14B3,
    },
    Word {
        source: "mulhsu x9, x10, x11",
        word: 0x02B5_24B3,
    },
    Word {
        source: "mulhu x9, x10, x11",
        word: 0x02B5_34B3,
    },
    Word {
        source: "div x9, x10, x11",
        word: 0x02B5_44B3,
    },
    Word {
        source: "divu x9, x10, x11",
        word: 0x02B5_54B3,
    },
    Word {
        source: "rem x9, x10, x11",
        word: 0x02B5_64B3,
    },
    Word {
        source: "remu x9, x10, x11",
        word: 0x02B5_74B3,
    },
];

const SYSTEM_AND_SHORT_FORMS: [Word; 19] = [
    Word {
        source: "fence",
        word: 0x0000_000F,
    },
    Word {
        source: "fence.i",
        word: 0x0000_100F,
    },
    Word {
        source: "ecall",
        word: 0x0000_0073,
    },
    Word {
        source: "ebreak",
        word: 0x0010_0073,
    },
    Word {
        source: "mret",
        word: 0x3020_0073,
    },
    Word {
        source: "wfi",
        word: 0x1050_0073,
    },
    Word {
        source: "csrrw x12, mstatus, x13",
        word: 0x3006_9673,
    },
    Word {
        source: "csrrs x12, mstatus, x13",
        word: 0x3006_A673,
    },
    Word {
        source: "csrrc x12, mstatus, x13",
        word: 0x3006_B673,
    },
    Word {
        source: "csrrwi x12, 0x341, 31",
        word: 0x341F_D673,
    },
    Word {
        source: "csrrsi x12, 0x341, 31",
        word: 0x341F_E673,
    },
    Word {
        source: "csrrci x12, 0x341, 31",
        word: 0x341F_F673,
    },
    Word {
        source: "a: j a",
        word: 0x0000_006F,
    },
    Word {
        source: "nop",
        word: 0x0000_0013,
    },
    Word {
        source: "mv x1, x2",
        word: 0x0001_0093,
    },
    Word {
        source: "ret",
        word: 0x0000_8067,
    },
    Word {
        source: ".word -2147483648",
        word: 0x8000_0000,
    },
    Word {
        source: ".word 0xFFFFFFFF",
        word: 0xFFFF_FFFF,
    },
    Word {
        source: "a: .word a",
        word: 0x8000_0000,
    },
];

const SOURCES: [Bytes; 18] = [
    Bytes {
        source: "addi x1, x0, 5",
        bytes: &[0x93, 0x00, 0x50, 0x00],
    },
    Bytes {
        source: "li x5, 0x80000000",
        bytes: &[0xB7, 0x02, 0x00, 0x80, 0x93, 0x82, 0x02, 0x00],
    },
    Bytes {
        source: "li x5, -1",
        bytes: &[0xB7, 0x02, 0x00, 0x00, 0x93, 0x82, 0xF2, 0xFF],
    },
    Bytes {
        source: "li x5, 4294967295",
        bytes: &[0xB7, 0x02, 0x00, 0x00, 0x93, 0x82, 0xF2, 0xFF],
    },
    Bytes {
        source: "li x5, 0x12345FFF",
        bytes: &[0xB7, 0x62, 0x34, 0x12, 0x93, 0x82, 0xF2, 0xFF],
    },
    Bytes {
        source: "li x5, -2147483648",
        bytes: &[0xB7, 0x02, 0x00, 0x80, 0x93, 0x82, 0x02, 0x00],
    },
    Bytes {
        source: "",
        bytes: &[],
    },
    Bytes {
        source: "\n\n# nothing\n",
        bytes: &[],
    },
    Bytes {
        source: "nop",
        bytes: &[0x13, 0x00, 0x00, 0x00],
    },
    Bytes {
        source: "nop\n",
        bytes: &[0x13, 0x00, 0x00, 0x00],
    },
    Bytes {
        source: "j a\na: nop",
        bytes: &[0x6F, 0x00, 0x40, 0x00, 0x13, 0x00, 0x00, 0x00],
    },
    Bytes {
        source: "a:\nnop\nbeq x1, x2, a",
        bytes: &[0x13, 0x00, 0x00, 0x00, 0xE3, 0x8E, 0x20, 0xFE],
    },
    Bytes {
        source: "nop\nla x5, a\na: nop",
        bytes: &[
            0x13, 0x00, 0x00, 0x00, 0x97, 0x02, 0x00, 0x00, 0x93, 0x82, 0x82, 0x00, 0x13, 0x00,
            0x00, 0x00,
        ],
    },
    Bytes {
        source: "a: nop\nla x5, a",
        bytes: &[
            0x13, 0x00, 0x00, 0x00, 0x97, 0x02, 0x00, 0x00, 0x93, 0x82, 0xC2, 0xFF,
        ],
    },
    Bytes {
        source: ".word a\na:",
        bytes: &[0x04, 0x00, 0x00, 0x80],
    },
    Bytes {
        source: ".byte -128\n.byte 255\n.space 2\nnop",
        bytes: &[0x80, 0xFF, 0x00, 0x00, 0x13, 0x00, 0x00, 0x00],
    },
    Bytes {
        source: ".space 0\n.byte 0x41",
        bytes: &[0x41],
    },
    Bytes {
        source: "j a\n.byte 7\n.space 1\na: .byte 9",
        bytes: &[0x6F, 0x00, 0x60, 0x00, 0x07, 0x00, 0x09],
    },
];

const FAULTS: [Fault; 26] = [
    Fault {
        source: "nop\nfoo",
        line: 2,
        reason: AsmReason::UnknownWord,
    },
    Fault {
        source: "addi x1, x0, 2048",
        line: 1,
        reason: AsmReason::Range,
    },
    Fault {
        source: "nop nop",
        line: 1,
        reason: AsmReason::BadLine,
    },
    Fault {
        source: "nop\n\nadd x32, x0, x1",
        line: 3,
        reason: AsmReason::BadRegister,
    },
    Fault {
        source: ".space 16777217",
        line: 1,
        reason: AsmReason::Range,
    },
    Fault {
        source: "a:\nnop\na: nop",
        line: 3,
        reason: AsmReason::LabelTwice,
    },
    Fault {
        source: "nop\nj a",
        line: 2,
        reason: AsmReason::LabelMissing,
    },
    Fault {
        source: ".word a",
        line: 1,
        reason: AsmReason::LabelMissing,
    },
    Fault {
        source: "la x1, a",
        line: 1,
        reason: AsmReason::LabelMissing,
    },
    Fault {
        source: "nop\n.space 16777216",
        line: 2,
        reason: AsmReason::TooLong,
    },
    Fault {
        source: ".space 16777216\na:\n.byte 0",
        line: 3,
        reason: AsmReason::TooLong,
    },
    Fault {
        source: "j a\na: foo",
        line: 2,
        reason: AsmReason::UnknownWord,
    },
    Fault {
        source: "a: foo\na: nop",
        line: 1,
        reason: AsmReason::UnknownWord,
    },
    Fault {
        source: ".byte 1\nnop",
        line: 2,
        reason: AsmReason::Range,
    },
    Fault {
        source: ".byte 1\n.word 1",
        line: 2,
        reason: AsmReason::Range,
    },
    Fault {
        source: ".byte 1\nj a",
        line: 2,
        reason: AsmReason::Range,
    },
    Fault {
        source: ".byte 1\na:\na: nop",
        line: 3,
        reason: AsmReason::Range,
    },
    Fault {
        source: "a:\na: j b",
        line: 2,
        reason: AsmReason::LabelTwice,
    },
    Fault {
        source: "j b\nfoo",
        line: 1,
        reason: AsmReason::LabelMissing,
    },
    Fault {
        source: "j a\na: .space 1048576\na: nop",
        line: 3,
        reason: AsmReason::LabelTwice,
    },
    Fault {
        source: "beq x0, x0, a\n.space 4091\na:",
        line: 1,
        reason: AsmReason::Range,
    },
    Fault {
        source: "beq x0, x0, a\n.space 4092\na:",
        line: 1,
        reason: AsmReason::Range,
    },
    Fault {
        source: "a: .space 4100\nbeq x0, x0, a",
        line: 2,
        reason: AsmReason::Range,
    },
    Fault {
        source: "j a\n.space 1048572\na:",
        line: 1,
        reason: AsmReason::Range,
    },
    Fault {
        source: "a: .space 1048580\nj a",
        line: 2,
        reason: AsmReason::Range,
    },
    Fault {
        source: "j a\n.space 16777216\na: nop",
        line: 1,
        reason: AsmReason::Range,
    },
];

const LENGTHS: [Length; 5] = [
    Length {
        source: "beq x0, x0, a\n.space 4090\na:",
        len: 4094,
    },
    Length {
        source: "a: .space 4096\nbeq x0, x0, a",
        len: 4100,
    },
    Length {
        source: "j a\n.space 1048570\na:",
        len: 1048574,
    },
    Length {
        source: "a: .space 1048576\nj a",
        len: 1048580,
    },
    Length {
        source: ".space 16777216",
        len: 16777216,
    },
];

#[test]
fn each_statement_has_its_word(rt: HostRuntime) -> Result<(), Fail> {
    let alloc = rt.alloc();
    check_words(&rt, alloc, &JUMPS_LOADS_AND_STORES)?;
    check_words(&rt, alloc, &COMPUTATIONS)?;
    check_words(&rt, alloc, &SYSTEM_AND_SHORT_FORMS)?;
    Ok(())
}

#[test]
fn sources_have_their_bytes(rt: HostRuntime) -> Result<(), Fail> {
    let alloc = rt.alloc();
    for row in SOURCES {
        let bytes = assembled(alloc, row.source)?;
        assert_eq!(rt; bytes.as_slice(), row.bytes);
    }
    Ok(())
}

#[test]
fn the_first_line_at_fault_is_answered(rt: HostRuntime) {
    let alloc = rt.alloc();
    for row in FAULTS {
        let bad = AsmBad::At {
            line: row.line,
            reason: row.reason,
        };
        assert_eq!(rt; assembled(alloc, row.source).err(), Some(bad));
    }
}

#[test]
fn what_is_just_in_reach_is_taken(rt: HostRuntime) -> Result<(), Fail> {
    let alloc = rt.alloc();
    for row in LENGTHS {
        assert_eq!(rt; assembled(alloc, row.source)?.len(), row.len);
    }
    Ok(())
}

#[test]
fn reasons_have_their_texts(rt: HostRuntime) {
    for (reason, text) in [
        (AsmReason::BadLine, "bad line"),
        (AsmReason::UnknownWord, "unknown word"),
        (AsmReason::BadRegister, "bad register"),
        (AsmReason::Range, "range"),
        (AsmReason::LabelTwice, "label twice"),
        (AsmReason::LabelMissing, "label missing"),
        (AsmReason::TooLong, "too long"),
    ] {
        assert_eq!(rt; reason.text(), text.as_bytes());
    }
}
