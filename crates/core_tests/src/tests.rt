//! Words as the GNU assembler writes them, and results as the standard gives them, worked by hand.

mod control;
mod csr_writes;
mod immediates;
mod memory;
mod registers;

use rv32_core::{Act, Core, CoreParts, Pending};

// Registers 1 and 2, and a trap vector.
fn parts(x1: u32, x2: u32) -> CoreParts {
    let mut regs = [0; 32];
    regs[1] = x1;
    regs[2] = x2;
    CoreParts {
        pc: 0x8000_0000,
        regs,
        mstatus: 0x1800,
        mie: 0,
        mtvec: 0x8000_0100,
        mscratch: 0,
        mepc: 0,
        mcause: 0,
        mtval: 0,
        external: false,
        pending: Pending::Nothing,
    }
}

// A step, where nothing is pending.
fn step(core: &mut Core, word: u32) -> Option<Act> {
    if core.pending() != Pending::Nothing {
        return None;
    }
    Some(core.step(Some(word)))
}

// What an instruction leaves in register 3.
fn computed(word: u32, x1: u32, x2: u32) -> Option<u32> {
    let mut core = Core::from_parts(0, parts(x1, x2))?;
    match step(&mut core, word)? {
        Act::Done => Some(core.reg(3)),
        _ => None,
    }
}

#[test]
fn a_jump_to_no_instruction_traps(rt: HostRuntime) {
    let mut core = Core::from_parts(0, parts(7, 0)).expect(&rt, "valid parts");
    assert!(rt; step(&mut core, 0x0060_00EF) == Some(Act::Trapped(0)));
    assert_eq!(rt; core.csr(0x341), Some(0x8000_0000));
    assert_eq!(rt; core.reg(1), 7);
    assert_eq!(rt; core.pc(), 0x8000_0100);
}

#[test]
fn stores_take_low_bytes(rt: HostRuntime) {
    let rows = [
        (
            0x0020_81A3,
            Act::Store {
                addr: 0x8000_1003,
                size: 1,
                value: 0x78,
            },
        ),
        (
            0x0020_9123,
            Act::Store {
                addr: 0x8000_1002,
                size: 2,
                value: 0x5678,
            },
        ),
        (
            0x0020_A223,
            Act::Store {
                addr: 0x8000_1004,
                size: 4,
                value: 0x1234_5678,
            },
        ),
        (0x0020_A123, Act::Trapped(6)),
    ];
    for (word, act) in rows {
        let mut core = Core::from_parts(0, parts(0x8000_1000, 0x1234_5678)).expect(&rt, "valid");
        assert!(rt; step(&mut core, word) == Some(act), "{word}");
        if let Pending::Store { .. } = core.pending() {
            assert!(rt; core.finish_store(false) == Act::Trapped(7));
        }
        assert_eq!(rt; core.csr(0x341), Some(0x8000_0000));
    }
}

#[test]
fn reads_and_writes_csrs(rt: HostRuntime) {
    let mut core = Core::new(5);
    assert!(rt; step(&mut core, 0xF140_20F3) == Some(Act::Done));
    assert_eq!(rt; core.reg(1), 5);
    assert!(rt; step(&mut core, 0xF140_9073) == Some(Act::Trapped(2)));
    assert_eq!(rt; core.csr(0x342), Some(2));
    assert_eq!(rt; core.csr(0x300), Some(0x1800));
    assert_eq!(rt; core.csr(0x301), None);
    assert!(rt; step(&mut core, 0) == Some(Act::Trapped(2)));
    assert!(rt; step(&mut core, 0x0000_0073) == Some(Act::Trapped(11)));
    assert!(rt; step(&mut core, 0x0010_0073) == Some(Act::Trapped(3)));
}

// WFI with the line high and low, the interrupt after it, and MRET.
#[test]
fn waits_for_the_external_interrupt(rt: HostRuntime) {
    let enabled = CoreParts {
        mie: 0x800,
        mstatus: 0x1808,
        ..parts(0, 0)
    };
    let mut core = Core::from_parts(0, enabled).expect(&rt, "valid parts");
    assert!(rt; step(&mut core, 0x1050_0073) == Some(Act::Wait));
    assert_eq!(rt; core.pc(), 0x8000_0004);
    core.set_external(true);
    assert!(rt; core.wakes());
    if core.takes_interrupt() && core.pending() == Pending::Nothing {
        core.interrupt();
    }
    assert_eq!(rt; core.csr(0x341), Some(0x8000_0004));
    assert_eq!(rt; core.csr(0x342), Some(0x8000_000B));
    assert_eq!(rt; core.csr(0x300), Some(0x1880));
    assert!(rt; step(&mut core, 0x1050_0073) == Some(Act::Done));
    assert_eq!(rt; core.pc(), 0x8000_0104);
    assert!(rt; step(&mut core, 0x3020_0073) == Some(Act::Done));
    assert_eq!(rt; core.pc(), 0x8000_0004);
    assert_eq!(rt; core.csr(0x300), Some(0x1888));
}

// Parts that make no core.
fn wrong_parts() -> [CoreParts; 5] {
    [
        CoreParts {
            pc: 2,
            ..parts(0, 0)
        },
        CoreParts {
            mstatus: 0x1801,
            ..parts(0, 0)
        },
        CoreParts {
            mie: 0x801,
            ..parts(0, 0)
        },
        CoreParts {
            pending: Pending::Store {
                addr: 0,
                size: 1,
                value: 256,
            },
            ..parts(0, 0)
        },
        CoreParts {
            pending: Pending::Load {
                addr: 0,
                size: 4,
                rd: 0,
                signed: true,
            },
            ..parts(0, 0)
        },
    ]
}

#[test]
fn parts_make_the_same_core(rt: HostRuntime) {
    let waiting = CoreParts {
        mstatus: 0x1888,
        mie: 0x800,
        pending: Pending::Load {
            addr: 0x8000_1002,
            size: 2,
            rd: 31,
            signed: true,
        },
        ..parts(1, 2)
    };
    let core = Core::from_parts(3, waiting).expect(&rt, "valid parts");
    assert!(rt; core.into_parts() == waiting);
    for wrong in wrong_parts() {
        assert!(rt; Core::from_parts(0, wrong).is_none());
    }
}
