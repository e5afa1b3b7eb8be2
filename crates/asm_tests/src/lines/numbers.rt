//! Numbers at both ends of each range and past them.

use super::{Row, Seen, check};
use asm_syntax::LineBad;
use rv32_isa::Instr;
use std::test::Fail;

const NUMBERS: [Row; 21] = [
    Row {
        line: "addi x1, x2, -2048",
        label: "",
        seen: Seen::Instruction(Instr::Addi {
            rd: 1,
            rs1: 2,
            imm: -2048,
        }),
        to: "",
    },
    Row {
        line: "addi x1, x2, 2048",
        label: "",
        seen: Seen::Bad(LineBad::OutOfRange { size: 4 }),
        to: "",
    },
    Row {
        line: "addi x1, x2, 0x7fF",
        label: "",
        seen: Seen::Instruction(Instr::Addi {
            rd: 1,
            rs1: 2,
            imm: 2047,
        }),
        to: "",
    },
    Row {
        line: "addi x1, x2, -0002048",
        label: "",
        seen: Seen::Instruction(Instr::Addi {
            rd: 1,
            rs1: 2,
            imm: -2048,
        }),
        to: "",
    },
    Row {
        line: "addi x1, x2, 0x",
        label: "",
        seen: Seen::Bad(LineBad::BadLine),
        to: "",
    },
    Row {
        line: "addi x1, x2, -0x1",
        label: "",
        seen: Seen::Bad(LineBad::BadLine),
        to: "",
    },
    Row {
        line: "addi x1, x2, 0X1",
        label: "",
        seen: Seen::Bad(LineBad::BadLine),
        to: "",
    },
    Row {
        line: "addi x1, x2, -",
        label: "",
        seen: Seen::Bad(LineBad::BadLine),
        to: "",
    },
    Row {
        line: "sw x1, 2048(x2)",
        label: "",
        seen: Seen::Bad(LineBad::OutOfRange { size: 4 }),
        to: "",
    },
    Row {
        line: "slli x1, x2, 32",
        label: "",
        seen: Seen::Bad(LineBad::OutOfRange { size: 4 }),
        to: "",
    },
    Row {
        line: "csrrwi x1, mip, 32",
        label: "",
        seen: Seen::Bad(LineBad::OutOfRange { size: 4 }),
        to: "",
    },
    Row {
        line: "lui x1, 0x100000",
        label: "",
        seen: Seen::Bad(LineBad::OutOfRange { size: 4 }),
        to: "",
    },
    Row {
        line: "li x1, -2147483648",
        label: "",
        seen: Seen::LoadImmediate(1, -2147483648),
        to: "",
    },
    Row {
        line: "li x1, 4294967296",
        label: "",
        seen: Seen::Bad(LineBad::OutOfRange { size: 8 }),
        to: "",
    },
    Row {
        line: ".word 0xffffFFFF",
        label: "",
        seen: Seen::Word(4294967295),
        to: "",
    },
    Row {
        line: ".word -2147483649",
        label: "",
        seen: Seen::Bad(LineBad::OutOfRange { size: 4 }),
        to: "",
    },
    Row {
        line: ".byte -128",
        label: "",
        seen: Seen::Byte(-128),
        to: "",
    },
    Row {
        line: ".byte 256",
        label: "",
        seen: Seen::Bad(LineBad::OutOfRange { size: 1 }),
        to: "",
    },
    Row {
        line: ".space 16777216",
        label: "",
        seen: Seen::Space(16777216),
        to: "",
    },
    Row {
        line: ".space -1",
        label: "",
        seen: Seen::Bad(LineBad::OutOfRange { size: 0 }),
        to: "",
    },
    Row {
        line: "li x1, 99999999999999999999999999999999999999999999999999999999999999999999999999999999",
        label: "",
        seen: Seen::Bad(LineBad::OutOfRange { size: 8 }),
        to: "",
    },
];

#[test]
fn numbers(rt: HostRuntime) -> Result<(), Fail> {
    check(&rt, rt.alloc(), &NUMBERS)?;
    Ok(())
}
