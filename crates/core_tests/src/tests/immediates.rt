//! Each computation with an immediate at corner values, and LUI and AUIPC.

use super::computed;

// A word with rd = x3, rs1 = x1 and the immediate 0, and rows of the immediate's twelve bits, x1 and the x3 that comes
// of them.
#[derive(Clone, Copy)]
struct Operation {
    name: &'static str,
    word: u32,
    rows: [(u32, u32, u32); 6],
}

const OPERATIONS: [Operation; 9] = [
    Operation {
        name: "addi",
        word: 0x0000_8193,
        rows: [
            (0x000, 0xFFFF_FFFF, 0xFFFF_FFFF),
            (0x001, 0xFFFF_FFFF, 0),
            (0xFFF, 0, 0xFFFF_FFFF),
            (0x800, 0x8000_0000, 0x7FFF_F800),
            (0x7FF, 0x7FFF_FFFF, 0x8000_07FE),
            (0x001, 0x7FFF_FFFF, 0x8000_0000),
        ],
    },
    Operation {
        name: "slti",
        word: 0x0000_A193,
        rows: [
            (0x000, 0xFFFF_FFFF, 1),
            (0x001, 0, 1),
            (0xFFF, 0, 0),
            (0x800, 0x8000_0000, 1),
            (0x7FF, 0x7FFF_FFFF, 0),
            (0xFFF, 0xFFFF_FFFF, 0),
        ],
    },
    Operation {
        name: "sltiu",
        word: 0x0000_B193,
        rows: [
            (0x000, 0, 0),
            (0x001, 0, 1),
            (0xFFF, 0x8000_0000, 1),
            (0xFFF, 0xFFFF_FFFF, 0),
            (0x800, 0x7FFF_FFFF, 1),
            (0x7FF, 0xFFFF_FFFF, 0),
        ],
    },
    Operation {
        name: "xori",
        word: 0x0000_C193,
        rows: [
            (0x000, 0xFFFF_FFFF, 0xFFFF_FFFF),
            (0x001, 0xFFFF_FFFF, 0xFFFF_FFFE),
            (0xFFF, 0, 0xFFFF_FFFF),
            (0xFFF, 0x8000_0000, 0x7FFF_FFFF),
            (0x800, 0xFFFF_FFFF, 0x7FF),
            (0x7FF, 0xFFFF_FFFF, 0xFFFF_F800),
        ],
    },
    Operation {
        name: "ori",
        word: 0x0000_E193,
        rows: [
            (0x000, 0x8000_0000, 0x8000_0000),
            (0x001, 0x8000_0000, 0x8000_0001),
            (0xFFF, 0, 0xFFFF_FFFF),
            (0x800, 0, 0xFFFF_F800),
            (0x7FF, 0x8000_0000, 0x8000_07FF),
            (0x800, 0x7FFF_FFFF, 0xFFFF_FFFF),
        ],
    },
    Operation {
        name: "andi",
        word: 0x0000_F193,
        rows: [
            (0x000, 0xFFFF_FFFF, 0),
            (0x001, 0x7FFF_FFFF, 1),
            (0xFFF, 0x8000_0000, 0x8000_0000),
            (0x800, 0xFFFF_FFFF, 0xFFFF_F800),
            (0x7FF, 0xFFFF_FFFF, 0x7FF),
            (0x800, 0x7FFF_FFFF, 0x7FFF_F800),
        ],
    },
    Operation {
        name: "slli",
        word: 0x0000_9193,
        rows: [
            (0, 0xFFFF_FFFF, 0xFFFF_FFFF),
            (0, 0x8000_0000, 0x8000_0000),
            (31, 1, 0x8000_0000),
            (31, 0xFFFF_FFFF, 0x8000_0000),
            (31, 0x8000_0000, 0),
            (1, 0x7FFF_FFFF, 0xFFFF_FFFE),
        ],
    },
    Operation {
        name: "srli",
        word: 0x0000_D193,
        rows: [
            (0, 0xFFFF_FFFF, 0xFFFF_FFFF),
            (0, 0x8000_0000, 0x8000_0000),
            (31, 0x8000_0000, 1),
            (31, 0xFFFF_FFFF, 1),
            (31, 0x7FFF_FFFF, 0),
            (1, 0xFFFF_FFFF, 0x7FFF_FFFF),
        ],
    },
    Operation {
        name: "srai",
        word: 0x4000_D193,
        rows: [
            (0, 0xFFFF_FFFF, 0xFFFF_FFFF),
            (0, 0x8000_0000, 0x8000_0000),
            (31, 0x8000_0000, 0xFFFF_FFFF),
            (31, 0xFFFF_FFFF, 0xFFFF_FFFF),
            (31, 0x7FFF_FFFF, 0),
            (1, 0x8000_0000, 0xC000_0000),
        ],
    },
];

// LUI and AUIPC to x3, from 0x8000_0000, each with the immediates 0, 1, the greatest, the least and all ones.
const UPPER: [(u32, u32); 10] = [
    (0x0000_01B7, 0),
    (0x0000_11B7, 0x1000),
    (0x7FFF_F1B7, 0x7FFF_F000),
    (0x8000_01B7, 0x8000_0000),
    (0xFFFF_F1B7, 0xFFFF_F000),
    (0x0000_0197, 0x8000_0000),
    (0x0000_1197, 0x8000_1000),
    (0x7FFF_F197, 0xFFFF_F000),
    (0x8000_0197, 0),
    (0xFFFF_F197, 0x7FFF_F000),
];

#[test]
fn computes_with_immediates_at_corners(rt: HostRuntime) {
    for operation in OPERATIONS {
        for (imm, x1, x3) in operation.rows {
            let result = computed(operation.word | imm << 20, x1, 0);
            assert_eq!(rt; result, Some(x3), "{} {imm} {x1}", operation.name);
        }
    }
}

#[test]
fn computes_with_upper_immediates(rt: HostRuntime) {
    for (word, x3) in UPPER {
        assert_eq!(rt; computed(word, 0, 0), Some(x3), "{word}");
    }
}
