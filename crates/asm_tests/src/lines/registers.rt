//! The names of registers and CSRs, as the RISC-V ABIs Specification and the privileged architecture give them.

use super::{BadRow, Seen, check_bad, shown};
use asm_syntax::{LineBad, parse_line};
use rv32_isa::Instr;
use std::alloc::Global;
use std::test::Fail;

/// The names of the convention, in the order of the registers.
const REGISTERS: [&str; 32] = [
    "zero", "ra", "sp", "gp", "tp", "t0", "t1", "t2", "fp", "s1", "a0", "a1", "a2", "a3", "a4",
    "a5", "a6", "a7", "s2", "s3", "s4", "s5", "s6", "s7", "s8", "s9", "s10", "s11", "t3", "t4",
    "t5", "t6",
];

#[derive(Clone, Copy)]
struct Csr {
    name: &'static str,
    number: u32,
}

const CSRS: [Csr; 10] = [
    Csr {
        name: "mstatus",
        number: 0x300,
    },
    Csr {
        name: "mie",
        number: 0x304,
    },
    Csr {
        name: "mtvec",
        number: 0x305,
    },
    Csr {
        name: "mscratch",
        number: 0x340,
    },
    Csr {
        name: "mepc",
        number: 0x341,
    },
    Csr {
        name: "mcause",
        number: 0x342,
    },
    Csr {
        name: "mtval",
        number: 0x343,
    },
    Csr {
        name: "mip",
        number: 0x344,
    },
    Csr {
        name: "mhartid",
        number: 0xF14,
    },
    Csr {
        name: "4095",
        number: 0xFFF,
    },
];

const WRONG: [BadRow; 7] = [
    BadRow {
        line: "mv x32, x1",
        bad: LineBad::BadRegister,
    },
    BadRow {
        line: "mv x1, x01",
        bad: LineBad::BadRegister,
    },
    BadRow {
        line: "mv x1, mstatus",
        bad: LineBad::BadRegister,
    },
    BadRow {
        line: "mv x1, -1",
        bad: LineBad::BadLine,
    },
    BadRow {
        line: "csrrs x1, x1, x0",
        bad: LineBad::UnknownWord,
    },
    BadRow {
        line: "csrrs x1, 4096, x0",
        bad: LineBad::OutOfRange { size: 4 },
    },
    BadRow {
        line: "csrrs x1, 3x, x0",
        bad: LineBad::BadLine,
    },
];

/// What a line has that names a register or a CSR.
fn seen(alloc: Global, before: &str, name: &str, after: &str) -> Result<Seen, Fail> {
    let text = format!(in alloc; "{before}{name}{after}")?;
    let line = parse_line(alloc, text.as_bytes())?;
    Ok(shown(&line.content))
}

#[test]
fn names_have_their_numbers(rt: HostRuntime) -> Result<(), Fail> {
    for rs1 in 0..32u32 {
        let name = REGISTERS[rs1 as usize];
        let moved = Instr::Addi { rd: 1, rs1, imm: 0 };
        assert_eq!(rt;
            seen(rt.alloc(), "mv x1, ", name, "")?,
            Seen::Instruction(moved)
        );
        let number = format!(in rt.alloc(); "{rs1}")?;
        assert_eq!(rt;
            seen(rt.alloc(), "mv x1, x", number.as_str(), "")?,
            Seen::Instruction(moved)
        );
    }
    for csr in &CSRS {
        let read = Instr::Csrrs {
            rd: 1,
            rs1: 0,
            csr: csr.number,
        };
        assert_eq!(rt;
            seen(rt.alloc(), "csrrs x1, ", csr.name, ", x0")?,
            Seen::Instruction(read)
        );
    }
    check_bad(&rt, rt.alloc(), &WRONG)?;
    Ok(())
}
