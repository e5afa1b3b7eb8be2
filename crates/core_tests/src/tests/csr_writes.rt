//! Writes to CSRs by CSRRW, CSRRS, CSRRC and their immediate forms, and reads that write nothing.

use super::{parts, step};
use rv32_core::{Act, Core, CoreParts};
use std::process::Abort;

// For each CSR rows of a word with rd = x3, the number in x1, and what the CSR reads afterwards. mscratch, mcause and
// mtval keep each bit.
const MSCRATCH: [(u32, u32, u32); 20] = [
    (0x3400_91F3, 0, 0),
    (0x3400_91F3, 0xFFFF_FFFF, 0xFFFF_FFFF),
    (0x3400_91F3, 0x8000_0000, 0x8000_0000),
    (0x3400_11F3, 0xFFFF_FFFF, 0),
    (0x3400_A1F3, 0, 0xA5A5_00FF),
    (0x3400_A1F3, 0x8000_0000, 0xA5A5_00FF),
    (0x3400_A1F3, 0xFF00, 0xA5A5_FFFF),
    (0x3400_21F3, 0xFFFF_FFFF, 0xA5A5_00FF),
    (0x3400_B1F3, 0xFFFF_FFFF, 0),
    (0x3400_B1F3, 0x8000_0000, 0x25A5_00FF),
    (0x3400_B1F3, 0xF, 0xA5A5_00F0),
    (0x3400_31F3, 0xFFFF_FFFF, 0xA5A5_00FF),
    (0x3400_51F3, 0xFFFF_FFFF, 0),
    (0x3400_D1F3, 0xFFFF_FFFF, 1),
    (0x340F_D1F3, 0xFFFF_FFFF, 31),
    (0x3400_61F3, 0xFFFF_FFFF, 0xA5A5_00FF),
    (0x340F_E1F3, 0xFFFF_FFFF, 0xA5A5_00FF),
    (0x3400_71F3, 0xFFFF_FFFF, 0xA5A5_00FF),
    (0x3400_F1F3, 0xFFFF_FFFF, 0xA5A5_00FE),
    (0x340F_F1F3, 0xFFFF_FFFF, 0xA5A5_00E0),
];

// mtvec, whose low two bits read 0.
const MTVEC: [(u32, u32, u32); 10] = [
    (0x3050_91F3, 0xFFFF_FFFF, 0xFFFF_FFFC),
    (0x3050_91F3, 3, 0),
    (0x3050_91F3, 0x7FFF_FFFF, 0x7FFF_FFFC),
    (0x3050_A1F3, 3, 0x8000_0100),
    (0x3050_A1F3, 0xFFFF_FFFF, 0xFFFF_FFFC),
    (0x3050_B1F3, 0x8000_0000, 0x100),
    (0x3050_B1F3, 0xFFFF_FFFF, 0),
    (0x305F_D1F3, 0, 0x1C),
    (0x3053_E1F3, 0, 0x8000_0104),
    (0x305F_F1F3, 0, 0x8000_0100),
];

// mie, of which bit 11 alone can be set.
const MIE: [(u32, u32, u32); 10] = [
    (0x3040_91F3, 0xFFFF_FFFF, 0x800),
    (0x3040_91F3, 0xFFFF_F7FF, 0),
    (0x3040_91F3, 0, 0),
    (0x3040_A1F3, 0xFFFF_FFFF, 0x800),
    (0x3040_A1F3, 0x7FF, 0x800),
    (0x3040_B1F3, 0x800, 0),
    (0x3040_B1F3, 0xFFFF_F7FF, 0x800),
    (0x304F_D1F3, 0, 0),
    (0x304F_E1F3, 0, 0x800),
    (0x304F_F1F3, 0, 0x800),
];

// mstatus, of which bits 3 and 7 can be written, and bits 11 and 12 read 1.
const MSTATUS: [(u32, u32, u32); 9] = [
    (0x3000_91F3, 0xFFFF_FFFF, 0x1888),
    (0x3000_91F3, 0, 0x1800),
    (0x3000_91F3, 0x80, 0x1880),
    (0x3000_A1F3, 0x80, 0x1888),
    (0x3000_B1F3, 0xFFFF_FFFF, 0x1800),
    (0x3004_51F3, 0, 0x1808),
    (0x3000_51F3, 0, 0x1800),
    (0x3004_61F3, 0, 0x1808),
    (0x3004_71F3, 0, 0x1800),
];

// mepc, whose low two bits read 0.
const MEPC: [(u32, u32, u32); 5] = [
    (0x3410_91F3, 0xFFFF_FFFF, 0xFFFF_FFFC),
    (0x3410_91F3, 3, 0),
    (0x3410_A1F3, 3, 0x8000_0040),
    (0x3410_B1F3, 0x8000_0000, 0x40),
    (0x341F_D1F3, 0, 0x1C),
];

const MCAUSE: [(u32, u32, u32); 4] = [
    (0x3420_91F3, 0xFFFF_FFFF, 0xFFFF_FFFF),
    (0x3420_91F3, 0x8000_0000, 0x8000_0000),
    (0x3420_A1F3, 0x8000_0000, 0x8000_000B),
    (0x3420_F1F3, 0, 0xA),
];

const MTVAL: [(u32, u32, u32); 3] = [
    (0x3430_91F3, 0xFFFF_FFFF, 0xFFFF_FFFF),
    (0x343F_D1F3, 0, 31),
    (0x3430_A1F3, 0x8000_0000, 0x8000_0000),
];

// mip, which no write changes.
const MIP: [(u32, u32, u32); 3] = [
    (0x3440_91F3, 0xFFFF_FFFF, 0),
    (0x344F_E1F3, 0, 0),
    (0x3440_A1F3, 0x800, 0),
];

// On mhartid, which cannot be written: the word, and whether it only reads. CSRRS and CSRRC write unless their source is
// x0 or the immediate 0, and CSRRW writes always.
const HART: [(u32, bool); 11] = [
    (0xF140_21F3, true),
    (0xF140_31F3, true),
    (0xF140_61F3, true),
    (0xF140_71F3, true),
    (0xF140_11F3, false),
    (0xF140_91F3, false),
    (0xF140_51F3, false),
    (0xF140_A1F3, false),
    (0xF140_B1F3, false),
    (0xF140_E1F3, false),
    (0xF140_F1F3, false),
];

// Parts in which the CSRs that can be written, but mtval, are not 0.
fn written(x1: u32) -> CoreParts {
    CoreParts {
        mstatus: 0x1808,
        mie: 0x800,
        mscratch: 0xA5A5_00FF,
        mepc: 0x8000_0040,
        mcause: 11,
        ..parts(x1, 2)
    }
}

// Runs each row on the CSR of a number, which reads `before` first: x3 has that afterwards.
fn check(rt: &impl Abort, csr: u32, before: u32, rows: &[(u32, u32, u32)]) {
    for &(word, x1, after) in rows {
        let mut core = Core::from_parts(5, written(x1)).expect(rt, "valid parts");
        assert!(rt;
            step(&mut core, word) == Some(Act::Done),
            "{csr} {word} {x1}"
        );
        assert_eq!(rt; core.reg(3), before, "{csr} {word} {x1}");
        assert_eq!(rt; core.csr(csr), Some(after), "{csr} {word} {x1}");
    }
}

#[test]
fn writes_csrs_at_corners(rt: HostRuntime) {
    check(&rt, 0x340, 0xA5A5_00FF, &MSCRATCH);
    check(&rt, 0x305, 0x8000_0100, &MTVEC);
    check(&rt, 0x304, 0x800, &MIE);
    check(&rt, 0x300, 0x1808, &MSTATUS);
    check(&rt, 0x341, 0x8000_0040, &MEPC);
    check(&rt, 0x342, 0xB, &MCAUSE);
    check(&rt, 0x343, 0, &MTVAL);
    check(&rt, 0x344, 0, &MIP);
}

#[test]
fn only_reads_can_be_of_mhartid(rt: HostRuntime) {
    for (word, reads) in HART {
        let mut core = Core::from_parts(5, written(0)).expect(&rt, "valid parts");
        let act = step(&mut core, word);
        if reads {
            assert!(rt; act == Some(Act::Done), "{word}");
            assert_eq!(rt; core.reg(3), 5, "{word}");
        } else {
            assert!(rt; act == Some(Act::Trapped(2)), "{word}");
            assert_eq!(rt; core.reg(3), 0, "{word}");
            assert_eq!(rt; core.csr(0x341), Some(0x8000_0000), "{word}");
        }
    }
}
