//! Blanks and comments.

use super::{Row, Seen, check};
use asm_syntax::LineBad;
use rv32_isa::Instr;
use std::test::Fail;

const LAYOUT: [Row; 7] = [
    Row {
        line: "",
        label: "",
        seen: Seen::Nothing,
        to: "",
    },
    Row {
        line: "# \u{e9} : \r",
        label: "",
        seen: Seen::Nothing,
        to: "",
    },
    Row {
        line: "a # b: c",
        label: "",
        seen: Seen::Bad(LineBad::UnknownWord),
        to: "",
    },
    Row {
        line: "add x1,x2,x3",
        label: "",
        seen: Seen::Instruction(Instr::Add {
            rd: 1,
            rs1: 2,
            rs2: 3,
        }),
        to: "",
    },
    Row {
        line: "\tadd\tx1\t,\tx2\t,\tx3\t",
        label: "",
        seen: Seen::Instruction(Instr::Add {
            rd: 1,
            rs1: 2,
            rs2: 3,
        }),
        to: "",
    },
    Row {
        line: " lw x1 , 4 ( x2 ) ",
        label: "",
        seen: Seen::Instruction(Instr::Lw {
            rd: 1,
            rs1: 2,
            imm: 4,
        }),
        to: "",
    },
    Row {
        line: "j there#else",
        label: "",
        seen: Seen::Jump(0),
        to: "there",
    },
];

#[test]
fn layout(rt: HostRuntime) -> Result<(), Fail> {
    check(&rt, rt.alloc(), &LAYOUT)?;
    Ok(())
}
