//! Every other statement once, and lines at fault.

use super::{BadRow, Row, Seen, check, check_bad};
use asm_syntax::{Condition, LineBad};
use std::test::Fail;

const STATEMENTS: [Row; 9] = [
    Row {
        line: "bgeu x5, x6, there",
        label: "",
        seen: Seen::Branch(Condition::NotLessUnsigned, 5, 6),
        to: "there",
    },
    Row {
        line: "jal ra, there",
        label: "",
        seen: Seen::Jump(1),
        to: "there",
    },
    Row {
        line: "j there",
        label: "",
        seen: Seen::Jump(0),
        to: "there",
    },
    Row {
        line: "la x5, there",
        label: "",
        seen: Seen::LoadAddress(5),
        to: "there",
    },
    Row {
        line: "li x5, -5",
        label: "",
        seen: Seen::LoadImmediate(5, -5),
        to: "",
    },
    Row {
        line: ".word 7",
        label: "",
        seen: Seen::Word(7),
        to: "",
    },
    Row {
        line: ".word there",
        label: "",
        seen: Seen::WordOf,
        to: "there",
    },
    Row {
        line: ".byte 7",
        label: "",
        seen: Seen::Byte(7),
        to: "",
    },
    Row {
        line: ".space 7",
        label: "",
        seen: Seen::Space(7),
        to: "",
    },
];

const FAULTS: [BadRow; 21] = [
    BadRow {
        line: "foo",
        bad: LineBad::UnknownWord,
    },
    BadRow {
        line: "foo.bar (",
        bad: LineBad::UnknownWord,
    },
    BadRow {
        line: "Add x1, x2, x3",
        bad: LineBad::UnknownWord,
    },
    BadRow {
        line: "7",
        bad: LineBad::UnknownWord,
    },
    BadRow {
        line: "foo-bar",
        bad: LineBad::BadLine,
    },
    BadRow {
        line: "nop\r",
        bad: LineBad::BadLine,
    },
    BadRow {
        line: "add x1, x2",
        bad: LineBad::BadLine,
    },
    BadRow {
        line: "add x1 x2, x3",
        bad: LineBad::BadLine,
    },
    BadRow {
        line: "add x1, x2, x3,",
        bad: LineBad::BadLine,
    },
    BadRow {
        line: "lw x1, 4(x2",
        bad: LineBad::BadLine,
    },
    BadRow {
        line: "lw x1, 4(x2) x3",
        bad: LineBad::BadLine,
    },
    BadRow {
        line: "j a.b",
        bad: LineBad::BadLine,
    },
    BadRow {
        line: ".word 1, 2",
        bad: LineBad::BadLine,
    },
    BadRow {
        line: "li x1, there",
        bad: LineBad::BadLine,
    },
    BadRow {
        line: "sw x1, x2",
        bad: LineBad::BadLine,
    },
    BadRow {
        line: "add x40, x2, 1-",
        bad: LineBad::BadLine,
    },
    BadRow {
        line: "csrrw x40, nosuch, x50",
        bad: LineBad::UnknownWord,
    },
    BadRow {
        line: "csrrwi x40, nosuch, 32",
        bad: LineBad::UnknownWord,
    },
    BadRow {
        line: "addi x40, x1, 5000",
        bad: LineBad::BadRegister,
    },
    BadRow {
        line: "beq x1, x40, 5",
        bad: LineBad::BadLine,
    },
    BadRow {
        line: "jal x40, there",
        bad: LineBad::BadRegister,
    },
];

#[test]
fn statements(rt: HostRuntime) -> Result<(), Fail> {
    check(&rt, rt.alloc(), &STATEMENTS)?;
    check_bad(&rt, rt.alloc(), &FAULTS)?;
    Ok(())
}
