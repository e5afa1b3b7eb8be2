//! Labels at the beginning of a line.

use super::{BadRow, Row, Seen, check, check_bad};
use asm_syntax::LineBad;
use rv32_isa::Instr;
use std::test::Fail;

const LABELS: [Row; 8] = [
    Row {
        line: "a:",
        label: "a",
        seen: Seen::Nothing,
        to: "",
    },
    Row {
        line: "_a1:",
        label: "_a1",
        seen: Seen::Nothing,
        to: "",
    },
    Row {
        line: "a:nop",
        label: "a",
        seen: Seen::Instruction(Instr::Addi {
            rd: 0,
            rs1: 0,
            imm: 0,
        }),
        to: "",
    },
    Row {
        line: "a:# nop",
        label: "a",
        seen: Seen::Nothing,
        to: "",
    },
    Row {
        line: "nop:",
        label: "nop",
        seen: Seen::Nothing,
        to: "",
    },
    Row {
        line: "x1: j x1",
        label: "x1",
        seen: Seen::Jump(0),
        to: "x1",
    },
    Row {
        line: "a: .byte 256",
        label: "a",
        seen: Seen::Bad(LineBad::OutOfRange { size: 1 }),
        to: "",
    },
    Row {
        line: "a: b: nop",
        label: "a",
        seen: Seen::Bad(LineBad::BadLine),
        to: "",
    },
];

const NO_LABELS: [BadRow; 4] = [
    BadRow {
        line: "a : nop",
        bad: LineBad::BadLine,
    },
    BadRow {
        line: "1a:",
        bad: LineBad::BadLine,
    },
    BadRow {
        line: "a-b:",
        bad: LineBad::BadLine,
    },
    BadRow {
        line: "nop a:",
        bad: LineBad::BadLine,
    },
];

#[test]
fn labels(rt: HostRuntime) -> Result<(), Fail> {
    check(&rt, rt.alloc(), &LABELS)?;
    check_bad(&rt, rt.alloc(), &NO_LABELS)?;
    Ok(())
}
