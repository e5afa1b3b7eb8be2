//! Branches, jumps and MRET: where they go, and the trap of a target that is no multiple of four.

use super::{parts, step};
use rv32_core::{Act, Core, CoreParts};

// A branch by 8 bytes on x1 and x2, and rows of both and whether it is taken.
#[derive(Clone, Copy)]
struct Branch {
    name: &'static str,
    word: u32,
    rows: [(u32, u32, bool); 6],
}

const BRANCHES: [Branch; 6] = [
    Branch {
        name: "beq",
        word: 0x0020_8463,
        rows: [
            (0, 0, true),
            (0xFFFF_FFFF, 0, false),
            (0, 0xFFFF_FFFF, false),
            (0x8000_0000, 0x7FFF_FFFF, false),
            (0x7FFF_FFFF, 0x8000_0000, false),
            (0x8000_0000, 0x8000_0000, true),
        ],
    },
    Branch {
        name: "bne",
        word: 0x0020_9463,
        rows: [
            (0, 0, false),
            (0xFFFF_FFFF, 0, true),
            (0, 0xFFFF_FFFF, true),
            (0x8000_0000, 0x7FFF_FFFF, true),
            (0x7FFF_FFFF, 0x8000_0000, true),
            (0x8000_0000, 0x8000_0000, false),
        ],
    },
    Branch {
        name: "blt",
        word: 0x0020_C463,
        rows: [
            (0, 0, false),
            (0xFFFF_FFFF, 0, true),
            (0, 0xFFFF_FFFF, false),
            (0x8000_0000, 0x7FFF_FFFF, true),
            (0x7FFF_FFFF, 0x8000_0000, false),
            (0x8000_0000, 0x8000_0000, false),
        ],
    },
    Branch {
        name: "bge",
        word: 0x0020_D463,
        rows: [
            (0, 0, true),
            (0xFFFF_FFFF, 0, false),
            (0, 0xFFFF_FFFF, true),
            (0x8000_0000, 0x7FFF_FFFF, false),
            (0x7FFF_FFFF, 0x8000_0000, true),
            (0x8000_0000, 0x8000_0000, true),
        ],
    },
    Branch {
        name: "bltu",
        word: 0x0020_E463,
        rows: [
            (0, 0, false),
            (0xFFFF_FFFF, 0, false),
            (0, 0xFFFF_FFFF, true),
            (0x8000_0000, 0x7FFF_FFFF, false),
            (0x7FFF_FFFF, 0x8000_0000, true),
            (0x8000_0000, 0x8000_0000, false),
        ],
    },
    Branch {
        name: "bgeu",
        word: 0x0020_F463,
        rows: [
            (0, 0, true),
            (0xFFFF_FFFF, 0, true),
            (0, 0xFFFF_FFFF, false),
            (0x8000_0000, 0x7FFF_FFFF, true),
            (0x7FFF_FFFF, 0x8000_0000, false),
            (0x8000_0000, 0x8000_0000, true),
        ],
    },
];

// JAL and JALR to x3 from 0x8000_0000: the word, x1, and the pc and x3 afterwards. JALR clears bit 0 of its target.
const JUMPS: [(u32, u32, u32, u32); 13] = [
    (0x0000_01EF, 0, 0x8000_0000, 0x8000_0004),
    (0x0040_01EF, 0, 0x8000_0004, 0x8000_0004),
    (0xFFDF_F1EF, 0, 0x7FFF_FFFC, 0x8000_0004),
    (0x0010_01EF, 0, 0x8000_0800, 0x8000_0004),
    (0x7FDF_F1EF, 0, 0x800F_FFFC, 0x8000_0004),
    (0x8000_01EF, 0, 0x7FF0_0000, 0x8000_0004),
    (0x0000_81E7, 0x8000_1001, 0x8000_1000, 0x8000_0004),
    (0x0010_81E7, 0xFFFF_FFFF, 0, 0x8000_0004),
    (0xFFC0_81E7, 0, 0xFFFF_FFFC, 0x8000_0004),
    (0x8000_81E7, 0x8000_0000, 0x7FFF_F800, 0x8000_0004),
    (0x7FD0_81E7, 0x8000_0000, 0x8000_07FC, 0x8000_0004),
    (0x7FF0_81E7, 0x8000_0001, 0x8000_0800, 0x8000_0004),
    (0xFFF0_81E7, 0x8000_0001, 0x8000_0000, 0x8000_0004),
];

// Branches and jumps to targets that are no multiple of four: the word, x1, x2 and whether it is taken.
const MISALIGNED: [(u32, u32, u32, bool); 16] = [
    (0x0020_8163, 0, 0, true),
    (0x0020_8163, 0xFFFF_FFFF, 0, false),
    (0x0020_9363, 0xFFFF_FFFF, 0, true),
    (0x0020_9363, 0, 0, false),
    (0xFE20_CFE3, 0xFFFF_FFFF, 0, true),
    (0xFE20_CFE3, 0, 0, false),
    (0xFE20_DDE3, 0, 0, true),
    (0xFE20_DDE3, 0xFFFF_FFFF, 0, false),
    (0x0020_E563, 0, 0xFFFF_FFFF, true),
    (0x0020_E563, 0, 0, false),
    (0x7E20_FFE3, 0, 0, true),
    (0x7E20_FFE3, 0, 0xFFFF_FFFF, false),
    (0x0020_01EF, 0, 0, true),
    (0xFFBF_F1EF, 0, 0, true),
    (0x0000_81E7, 0x8000_1003, 0, true),
    (0x0020_81E7, 0x8000_1000, 0, true),
];

// MRET: mstatus before and after. MIE takes MPIE, and MPIE becomes 1.
const RETURNS: [(u32, u32); 4] = [
    (0x1800, 0x1880),
    (0x1808, 0x1880),
    (0x1880, 0x1888),
    (0x1888, 0x1888),
];

#[test]
fn branches_at_corners(rt: HostRuntime) {
    for branch in BRANCHES {
        for (x1, x2, taken) in branch.rows {
            let mut core = Core::from_parts(0, parts(x1, x2)).expect(&rt, "valid parts");
            assert!(rt; step(&mut core, branch.word) == Some(Act::Done));
            let pc = if taken { 0x8000_0008 } else { 0x8000_0004 };
            assert_eq!(rt; core.pc(), pc, "{} {x1} {x2}", branch.name);
        }
    }
}

#[test]
fn jumps_and_links(rt: HostRuntime) {
    for (word, x1, pc, x3) in JUMPS {
        let mut core = Core::from_parts(0, parts(x1, 0)).expect(&rt, "valid parts");
        assert!(rt; step(&mut core, word) == Some(Act::Done), "{word} {x1}");
        assert_eq!(rt; core.pc(), pc, "{word} {x1}");
        assert_eq!(rt; core.reg(3), x3, "{word} {x1}");
    }
}

// The trap's mepc is the address of the branch or jump, and no register is written.
#[test]
fn a_misaligned_target_traps_where_it_is_taken(rt: HostRuntime) {
    for (word, x1, x2, taken) in MISALIGNED {
        let mut core = Core::from_parts(0, parts(x1, x2)).expect(&rt, "valid parts");
        let act = step(&mut core, word);
        if taken {
            assert!(rt; act == Some(Act::Trapped(0)), "{word}");
            assert_eq!(rt; core.pc(), 0x8000_0100, "{word}");
            assert_eq!(rt; core.csr(0x341), Some(0x8000_0000), "{word}");
        } else {
            assert!(rt; act == Some(Act::Done), "{word}");
            assert_eq!(rt; core.pc(), 0x8000_0004, "{word}");
        }
        assert_eq!(rt; core.reg(3), 0, "{word}");
    }
}

#[test]
fn returns_from_traps(rt: HostRuntime) {
    for (before, after) in RETURNS {
        let trapped = CoreParts {
            mstatus: before,
            mepc: 0x8000_0040,
            ..parts(0, 0)
        };
        let mut core = Core::from_parts(0, trapped).expect(&rt, "valid parts");
        assert!(rt; step(&mut core, 0x3020_0073) == Some(Act::Done), "{before}");
        assert_eq!(rt; core.pc(), 0x8000_0040);
        assert_eq!(rt; core.csr(0x300), Some(after), "{before}");
    }
}
