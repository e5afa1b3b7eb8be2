//! Each computation with two registers at corner values. Where the standard says it, a quotient by zero is all ones,
//! a remainder by zero the dividend, and a shift goes by the low five bits of its amount.

use super::computed;

// A word with rd = x3, rs1 = x1 and rs2 = x2, and rows of x1, x2 and the x3 that comes of them.
#[derive(Clone, Copy)]
struct Operation {
    name: &'static str,
    word: u32,
    rows: [(u32, u32, u32); 6],
}

const OPERATIONS: [Operation; 18] = [
    Operation {
        name: "add",
        word: 0x0020_81B3,
        rows: [
            (0, 0, 0),
            (0xFFFF_FFFF, 1, 0),
            (0x7FFF_FFFF, 1, 0x8000_0000),
            (0x8000_0000, 0x8000_0000, 0),
            (0x8000_0000, 0xFFFF_FFFF, 0x7FFF_FFFF),
            (0x7FFF_FFFF, 0x8000_0000, 0xFFFF_FFFF),
        ],
    },
    Operation {
        name: "sub",
        word: 0x4020_81B3,
        rows: [
            (0, 0, 0),
            (0, 1, 0xFFFF_FFFF),
            (0x8000_0000, 1, 0x7FFF_FFFF),
            (0x7FFF_FFFF, 0xFFFF_FFFF, 0x8000_0000),
            (0, 0x8000_0000, 0x8000_0000),
            (0xFFFF_FFFF, 0x8000_0000, 0x7FFF_FFFF),
        ],
    },
    Operation {
        name: "sll",
        word: 0x0020_91B3,
        rows: [
            (1, 0, 1),
            (1, 31, 0x8000_0000),
            (0xFFFF_FFFF, 31, 0x8000_0000),
            (1, 32, 1),
            (0xFFFF_FFFF, 0xFFFF_FFFF, 0x8000_0000),
            (0x8000_0000, 1, 0),
        ],
    },
    Operation {
        name: "slt",
        word: 0x0020_A1B3,
        rows: [
            (0, 0, 0),
            (0xFFFF_FFFF, 0, 1),
            (0, 0xFFFF_FFFF, 0),
            (0x8000_0000, 0x7FFF_FFFF, 1),
            (0x7FFF_FFFF, 0x8000_0000, 0),
            (0x8000_0000, 0xFFFF_FFFF, 1),
        ],
    },
    Operation {
        name: "sltu",
        word: 0x0020_B1B3,
        rows: [
            (0, 0, 0),
            (0xFFFF_FFFF, 0, 0),
            (0, 0xFFFF_FFFF, 1),
            (0x8000_0000, 0x7FFF_FFFF, 0),
            (0x7FFF_FFFF, 0x8000_0000, 1),
            (0x8000_0000, 0xFFFF_FFFF, 1),
        ],
    },
    Operation {
        name: "xor",
        word: 0x0020_C1B3,
        rows: [
            (0, 0, 0),
            (0xFFFF_FFFF, 0xFFFF_FFFF, 0),
            (0xFFFF_FFFF, 1, 0xFFFF_FFFE),
            (0x8000_0000, 0x7FFF_FFFF, 0xFFFF_FFFF),
            (0x8000_0000, 0xFFFF_FFFF, 0x7FFF_FFFF),
            (0, 0x7FFF_FFFF, 0x7FFF_FFFF),
        ],
    },
    Operation {
        name: "srl",
        word: 0x0020_D1B3,
        rows: [
            (0xFFFF_FFFF, 0, 0xFFFF_FFFF),
            (0x8000_0000, 31, 1),
            (0xFFFF_FFFF, 31, 1),
            (0x8000_0000, 32, 0x8000_0000),
            (0x8000_0000, 0xFFFF_FFFF, 1),
            (0x7FFF_FFFF, 31, 0),
        ],
    },
    Operation {
        name: "sra",
        word: 0x4020_D1B3,
        rows: [
            (0xFFFF_FFFF, 0, 0xFFFF_FFFF),
            (0x8000_0000, 31, 0xFFFF_FFFF),
            (0xFFFF_FFFF, 31, 0xFFFF_FFFF),
            (0x8000_0000, 32, 0x8000_0000),
            (0x8000_0000, 1, 0xC000_0000),
            (0x7FFF_FFFF, 31, 0),
        ],
    },
    Operation {
        name: "or",
        word: 0x0020_E1B3,
        rows: [
            (0, 0, 0),
            (0xFFFF_FFFF, 0, 0xFFFF_FFFF),
            (0x8000_0000, 1, 0x8000_0001),
            (0x8000_0000, 0x7FFF_FFFF, 0xFFFF_FFFF),
            (0x7FFF_FFFF, 1, 0x7FFF_FFFF),
            (0, 0x8000_0000, 0x8000_0000),
        ],
    },
    Operation {
        name: "and",
        word: 0x0020_F1B3,
        rows: [
            (0, 0xFFFF_FFFF, 0),
            (0xFFFF_FFFF, 0xFFFF_FFFF, 0xFFFF_FFFF),
            (0xFFFF_FFFF, 1, 1),
            (0x8000_0000, 0x7FFF_FFFF, 0),
            (0x8000_0000, 0xFFFF_FFFF, 0x8000_0000),
            (0x7FFF_FFFF, 1, 1),
        ],
    },
    Operation {
        name: "mul",
        word: 0x0220_81B3,
        rows: [
            (0, 0xFFFF_FFFF, 0),
            (0xFFFF_FFFF, 0xFFFF_FFFF, 1),
            (0x8000_0000, 0x8000_0000, 0),
            (0x8000_0000, 0xFFFF_FFFF, 0x8000_0000),
            (0x7FFF_FFFF, 0x7FFF_FFFF, 1),
            (0x7FFF_FFFF, 0xFFFF_FFFF, 0x8000_0001),
        ],
    },
    Operation {
        name: "mulh",
        word: 0x0220_91B3,
        rows: [
            (0, 0xFFFF_FFFF, 0),
            (0xFFFF_FFFF, 0xFFFF_FFFF, 0),
            (0xFFFF_FFFF, 1, 0xFFFF_FFFF),
            (0x8000_0000, 0x8000_0000, 0x4000_0000),
            (0x8000_0000, 0x7FFF_FFFF, 0xC000_0000),
            (0x7FFF_FFFF, 0x7FFF_FFFF, 0x3FFF_FFFF),
        ],
    },
    Operation {
        name: "mulhsu",
        word: 0x0220_A1B3,
        rows: [
            (0xFFFF_FFFF, 0, 0),
            (0xFFFF_FFFF, 0xFFFF_FFFF, 0xFFFF_FFFF),
            (1, 0xFFFF_FFFF, 0),
            (0x8000_0000, 0x8000_0000, 0xC000_0000),
            (0x7FFF_FFFF, 0x8000_0000, 0x3FFF_FFFF),
            (0x8000_0000, 0xFFFF_FFFF, 0x8000_0000),
        ],
    },
    Operation {
        name: "mulhu",
        word: 0x0220_B1B3,
        rows: [
            (0, 0xFFFF_FFFF, 0),
            (0xFFFF_FFFF, 0xFFFF_FFFF, 0xFFFF_FFFE),
            (0xFFFF_FFFF, 1, 0),
            (0x8000_0000, 0x8000_0000, 0x4000_0000),
            (0x7FFF_FFFF, 0x7FFF_FFFF, 0x3FFF_FFFF),
            (0x8000_0000, 0x7FFF_FFFF, 0x3FFF_FFFF),
        ],
    },
    Operation {
        name: "div",
        word: 0x0220_C1B3,
        rows: [
            (0, 0, 0xFFFF_FFFF),
            (0x8000_0000, 0, 0xFFFF_FFFF),
            (0x8000_0000, 0xFFFF_FFFF, 0x8000_0000),
            (0x7FFF_FFFF, 0xFFFF_FFFF, 0x8000_0001),
            (0x8000_0000, 0x7FFF_FFFF, 0xFFFF_FFFF),
            (0xFFFF_FFFF, 0x8000_0000, 0),
        ],
    },
    Operation {
        name: "divu",
        word: 0x0220_D1B3,
        rows: [
            (0, 0, 0xFFFF_FFFF),
            (0xFFFF_FFFF, 0, 0xFFFF_FFFF),
            (0x8000_0000, 0xFFFF_FFFF, 0),
            (0xFFFF_FFFF, 0x8000_0000, 1),
            (0xFFFF_FFFF, 1, 0xFFFF_FFFF),
            (0xFFFF_FFFF, 0x7FFF_FFFF, 2),
        ],
    },
    Operation {
        name: "rem",
        word: 0x0220_E1B3,
        rows: [
            (0, 0, 0),
            (0x8000_0000, 0, 0x8000_0000),
            (0x8000_0000, 0xFFFF_FFFF, 0),
            (0x8000_0000, 0x7FFF_FFFF, 0xFFFF_FFFF),
            (0x7FFF_FFFF, 0x8000_0000, 0x7FFF_FFFF),
            (0xFFFF_FFFF, 1, 0),
        ],
    },
    Operation {
        name: "remu",
        word: 0x0220_F1B3,
        rows: [
            (0, 0, 0),
            (0xFFFF_FFFF, 0, 0xFFFF_FFFF),
            (0x8000_0000, 0xFFFF_FFFF, 0x8000_0000),
            (0xFFFF_FFFF, 0x8000_0000, 0x7FFF_FFFF),
            (0xFFFF_FFFF, 0x7FFF_FFFF, 1),
            (0xFFFF_FFFF, 1, 0),
        ],
    },
];

#[test]
fn computes_with_registers_at_corners(rt: HostRuntime) {
    for operation in OPERATIONS {
        for (x1, x2, x3) in operation.rows {
            let result = computed(operation.word, x1, x2);
            assert_eq!(rt; result, Some(x3), "{} {x1} {x2}", operation.name);
        }
    }
}
