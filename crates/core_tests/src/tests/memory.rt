//! Loads and stores: signs that are extended, bytes that count, and addresses.

use super::{parts, step};
use rv32_core::{Act, Core, Pending};

// A word that loads x3 from the address in x1 or stores x2 there, its `size` in bytes, and rows: of a load the number that
// is read and the x3 that comes of it, of a store x2 and the value that is stored.
#[derive(Clone, Copy)]
struct Access {
    name: &'static str,
    word: u32,
    size: u32,
    rows: [(u32, u32); 4],
}

const LOADS: [Access; 5] = [
    Access {
        name: "lb",
        word: 0x0000_8183,
        size: 1,
        rows: [
            (0x7F, 0x7F),
            (0x80, 0xFFFF_FF80),
            (0xFF, 0xFFFF_FFFF),
            (0x100, 0),
        ],
    },
    Access {
        name: "lh",
        word: 0x0000_9183,
        size: 2,
        rows: [
            (0x7FFF, 0x7FFF),
            (0x8000, 0xFFFF_8000),
            (0xFFFF, 0xFFFF_FFFF),
            (0x0001_0080, 0x80),
        ],
    },
    Access {
        name: "lw",
        word: 0x0000_A183,
        size: 4,
        rows: [
            (0, 0),
            (0x7FFF_FFFF, 0x7FFF_FFFF),
            (0x8000_0000, 0x8000_0000),
            (0xFFFF_FFFF, 0xFFFF_FFFF),
        ],
    },
    Access {
        name: "lbu",
        word: 0x0000_C183,
        size: 1,
        rows: [(0x7F, 0x7F), (0x80, 0x80), (0xFF, 0xFF), (0x100, 0)],
    },
    Access {
        name: "lhu",
        word: 0x0000_D183,
        size: 2,
        rows: [
            (0x7FFF, 0x7FFF),
            (0x8000, 0x8000),
            (0xFFFF, 0xFFFF),
            (0x0001_0080, 0x80),
        ],
    },
];

const STORES: [Access; 3] = [
    Access {
        name: "sb",
        word: 0x0020_8023,
        size: 1,
        rows: [
            (0x80, 0x80),
            (0xFFFF_FFFF, 0xFF),
            (0x100, 0),
            (0x8000_0000, 0),
        ],
    },
    Access {
        name: "sh",
        word: 0x0020_9023,
        size: 2,
        rows: [
            (0x8000, 0x8000),
            (0xFFFF_FFFF, 0xFFFF),
            (0x0001_0000, 0),
            (0x7FFF_FFFF, 0xFFFF),
        ],
    },
    Access {
        name: "sw",
        word: 0x0020_A023,
        size: 4,
        rows: [
            (0, 0),
            (0x7FFF_FFFF, 0x7FFF_FFFF),
            (0x8000_0000, 0x8000_0000),
            (0xFFFF_FFFF, 0xFFFF_FFFF),
        ],
    },
];

// Accesses that are not aligned: the word, x1 and the cause.
const MISALIGNED: [(u32, u32, u32); 11] = [
    (0x0000_9183, 0x8000_0001, 4),
    (0x0000_9183, 0x8000_0003, 4),
    (0x0000_D183, 0x8000_0001, 4),
    (0x0000_A183, 0x8000_0001, 4),
    (0x0000_A183, 0x8000_0002, 4),
    (0x0000_A183, 0x8000_0003, 4),
    (0x0020_9023, 0x8000_0001, 6),
    (0x0020_9023, 0x8000_0003, 6),
    (0x0020_A023, 0x8000_0001, 6),
    (0x0020_A023, 0x8000_0002, 6),
    (0x0020_A023, 0x8000_0003, 6),
];

#[test]
fn loads_at_corners(rt: HostRuntime) {
    let addr = 0x8000_1000;
    for load in LOADS {
        for (value, x3) in load.rows {
            let mut core = Core::from_parts(0, parts(addr, 0)).expect(&rt, "valid parts");
            let size = load.size;
            assert!(rt;
                step(&mut core, load.word) == Some(Act::Load { addr, size }),
                "{}",
                load.name
            );
            if let Pending::Load { .. } = core.pending() {
                assert!(rt; core.finish_load(Some(value)) == Act::Done);
            }
            assert_eq!(rt; core.reg(3), x3, "{} {value}", load.name);
            assert_eq!(rt; core.pc(), 0x8000_0004);
        }
    }
}

#[test]
fn stores_at_corners(rt: HostRuntime) {
    let addr = 0x8000_1000;
    for store in STORES {
        for (x2, value) in store.rows {
            let mut core = Core::from_parts(0, parts(addr, x2)).expect(&rt, "valid parts");
            let size = store.size;
            let asked = Act::Store { addr, size, value };
            assert!(rt;
                step(&mut core, store.word) == Some(asked),
                "{} {x2}",
                store.name
            );
            if let Pending::Store { .. } = core.pending() {
                assert!(rt; core.finish_store(true) == Act::Done);
            }
            assert_eq!(rt; core.pc(), 0x8000_0004);
        }
    }
}

#[test]
fn misaligned_accesses_trap(rt: HostRuntime) {
    for (word, x1, cause) in MISALIGNED {
        let mut core = Core::from_parts(0, parts(x1, 0)).expect(&rt, "valid parts");
        assert!(rt;
            step(&mut core, word) == Some(Act::Trapped(cause)),
            "{word} {x1}"
        );
        assert_eq!(rt; core.csr(0x341), Some(0x8000_0000));
        assert_eq!(rt; core.pc(), 0x8000_0100);
    }
}
