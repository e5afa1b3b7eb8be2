//! An instruction of each form.

use super::{InstructionRow, check_instructions};
use rv32_isa::Instr;
use std::test::Fail;

const INSTRUCTIONS: [InstructionRow; 14] = [
    InstructionRow {
        line: "add x5, x6, x7",
        instruction: Instr::Add {
            rd: 5,
            rs1: 6,
            rs2: 7,
        },
    },
    InstructionRow {
        line: "mulhsu x5, x6, x7",
        instruction: Instr::Mulhsu {
            rd: 5,
            rs1: 6,
            rs2: 7,
        },
    },
    InstructionRow {
        line: "sltiu x5, x6, -7",
        instruction: Instr::Sltiu {
            rd: 5,
            rs1: 6,
            imm: -7,
        },
    },
    InstructionRow {
        line: "srai x5, x6, 7",
        instruction: Instr::Srai {
            rd: 5,
            rs1: 6,
            imm: 7,
        },
    },
    InstructionRow {
        line: "lui x5, 0xABcde",
        instruction: Instr::Lui {
            rd: 5,
            imm: 0xabcde,
        },
    },
    InstructionRow {
        line: "lbu x5, -12(x6)",
        instruction: Instr::Lbu {
            rd: 5,
            rs1: 6,
            imm: -12,
        },
    },
    InstructionRow {
        line: "jalr x5, -12(x6)",
        instruction: Instr::Jalr {
            rd: 5,
            rs1: 6,
            imm: -12,
        },
    },
    InstructionRow {
        line: "sh x5, -12(x6)",
        instruction: Instr::Sh {
            rs1: 6,
            rs2: 5,
            imm: -12,
        },
    },
    InstructionRow {
        line: "fence.i",
        instruction: Instr::FenceI { bits: 0 },
    },
    InstructionRow {
        line: "nop",
        instruction: Instr::Addi {
            rd: 0,
            rs1: 0,
            imm: 0,
        },
    },
    InstructionRow {
        line: "ret",
        instruction: Instr::Jalr {
            rd: 0,
            rs1: 1,
            imm: 0,
        },
    },
    InstructionRow {
        line: "mv x5, x6",
        instruction: Instr::Addi {
            rd: 5,
            rs1: 6,
            imm: 0,
        },
    },
    InstructionRow {
        line: "csrrc x5, mscratch, x6",
        instruction: Instr::Csrrc {
            rd: 5,
            rs1: 6,
            csr: 0x340,
        },
    },
    InstructionRow {
        line: "csrrsi x5, 0x340, 31",
        instruction: Instr::Csrrsi {
            rd: 5,
            imm: 31,
            csr: 0x340,
        },
    },
];

#[test]
fn instructions(rt: HostRuntime) -> Result<(), Fail> {
    check_instructions(&rt, rt.alloc(), &INSTRUCTIONS)?;
    Ok(())
}
