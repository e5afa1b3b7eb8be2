//! Programs of a few instructions, and what devices do to a host.

ghost use Rattle.std.specs.Prelude.{◌≡◌, ◌+◌, ◌≤◌, ◌<◌, ◌^◌, ◌%◌, IfSome};
ghost use Rattle.host_sim.specs.Host.{IsSettledHost};
ghost use Rattle.host_sim.specs.declared.state.HostState.TheVariants.{Due};

use crate::host::Host;
use crate::parts::HostParts;
use crate::state::HostState;
use access_proto::{Data, Length};
use cs_base::configs::HostConfig;
use cs_base::items::{Items, Octets};
use cs_base::text::Text;
use cs_base::time::Time;
use device_api::{Device, Effects, PartsBad};
use mem_proto::MemMsg;
use pcie_proto::{DevMsg, HostMsg};
use ram_map::number_at;
use rv32_core::{Core, Pending};
use sb_message::Body;
use std::alloc::Global;

// The least RAM and the greatest.
const LEAST: u32 = 65536;

const GREATEST: u32 = 16777216;

fn configured(alloc: Global, ram: u32, pcie: u32, mem: u32) -> Option<HostConfig>
    requires some { 65536 ≤ ram }
    requires in_range { ram ≤ 16777216 }
    requires whole_words { ram % 4 ≡ 0 }
    requires few_ports { pcie + mem ≤ 32 }
    ensures { IfSome result (λ config. config.ram ≡ ram) }
{
    Some(HostConfig {
        ram,
        cycle: Time(1000),
        pcie,
        mem,
        hart: 5,
        image: Text::new(alloc, "a.bin").ok()?,
    })
}

// A host of `ram` bytes of RAM with a program.
fn sized(alloc: Global, ram: u32, words: &[u32], pcie: u32, mem: u32) -> Option<Host>
    requires some { 65536 ≤ ram }
    requires in_range { ram ≤ 16777216 }
    requires whole_words { ram % 4 ≡ 0 }
    requires few_ports { pcie + mem ≤ 32 }
    ensures due { IfSome result (λ host. host.phase ≡ Due 0) }
    ensures settled { IfSome result (λ host. IsSettledHost host 0) }
{
    let mut image = Octets::new(alloc);
    for word in words {
        image.append(&word.to_le_bytes()).ok()?;
    }
    if image.len() > ram as usize {
        return None;
    }
    let config = configured(alloc, ram, pcie, mem)?;
    Host::start(alloc, &config, image.as_slice()).ok()
}

fn started(alloc: Global, words: &[u32], pcie: u32, mem: u32) -> Option<Host>
    requires { pcie + mem ≤ 32 }
    ensures due { IfSome result (λ host. host.phase ≡ Due 0) }
    ensures settled { IfSome result (λ host. IsSettledHost host 0) }
{
    sized(alloc, LEAST, words, pcie, mem)
}

// Ticks as long as the host is due before `end`.
fn run(host: &mut Host, alloc: Global, end: u64, out: &mut Effects) -> Option<()>
    requires { end < 10 ^ 15 }
{
    for _ in 0..2000u32 {
        let Some(t) = host.phase.due() else {
            return Some(());
        };
        if t.picoseconds() >= end || host.core.pending() != Pending::Nothing {
            return Some(());
        }
        host.tick_once(alloc, t, out).ok()?;
    }
    Some(())
}

fn says(out: &Effects, line: usize, text: &[u8]) -> bool {
    line < out.lines.len() && out.lines.as_slice()[line].as_slice() == text
}

fn is_sent<T: Send>() {}

#[test]
fn prints_and_halts(rt: HostRuntime) {
    is_sent::<Host>();
    let program = [
        0x1000_02B7,
        0x0002_8293,
        0x0000_0337,
        0x0483_0313,
        0x0062_8023,
        0x0000_0337,
        0x00A3_0313,
        0x0062_8023,
        0x0000_0337,
        0x0073_0313,
        0x0062_A223,
    ];
    let mut out = Effects::new(rt.alloc());
    let mut host = started(rt.alloc(), &program, 0, 0).expect(&rt, "memory");
    run(&mut host, rt.alloc(), 10_000, &mut out).expect(&rt, "memory");
    assert_eq!(rt; out.lines.len(), 1);
    assert!(rt; says(&out, 0, b"con H"));
    run(&mut host, rt.alloc(), 10_001, &mut out).expect(&rt, "memory");
    assert!(rt; says(&out, 1, b"halt 7"));
    assert!(rt; host.phase.due().is_none());
}

// The last byte of RAM.
const LAST_BYTE: [u32; 7] = [
    0x8001_02B7,
    0x05A0_0313,
    0xFE62_8FA3,
    0xFFC2_A383,
    0x0183_D393,
    0x1000_0E37,
    0x007E_2223,
];

// The ticks before two loads of the counter.
const COUNTS: [u32; 6] = [
    0x1000_02B7,
    0x0082_A303,
    0x0082_A383,
    0x0083_9393,
    0x0073_6333,
    0x0062_A223,
];

// A halt where the console keeps a byte.
const HALTS: [u32; 4] = [0x1000_02B7, 0x0410_0313, 0x0062_8023, 0x0002_A223];

// An interrupt before the instruction at 0x8000_001C, which its handler at 0x8000_0024 halts with.
const IS_INTERRUPTED: [u32; 12] = [
    0x8000_02B7,
    0x0242_8293,
    0x3052_9073,
    0x0000_1337,
    0x8003_0313,
    0x3043_1073,
    0x3004_5073,
    0xFFFF_F3B7,
    0x0000_0013,
    0x3410_2E73,
    0x1000_0EB7,
    0x01CE_A223,
];

// A WFI where an interrupt is there already.
const IS_AWAKE: [u32; 6] = [
    0x0000_1337,
    0x8003_0313,
    0x3043_1073,
    0x1050_0073,
    0x1000_02B7,
    0x0002_A223,
];

// Programs of one PCIe port whose level is high or not, and the last two lines that they log.
const PROGRAMS: [(bool, &[u32], &[u8], &[u8]); 5] = [
    (false, &LAST_BYTE, b"", b"halt 90"),
    (false, &COUNTS, b"", b"halt 513"),
    (false, &HALTS, b"con A", b"halt 0"),
    (
        true,
        &IS_INTERRUPTED,
        b"trap 0x8000000b",
        b"halt 2147483676",
    ),
    (true, &IS_AWAKE, b"", b"halt 0"),
];

#[test]
fn runs_programs(rt: HostRuntime) {
    for (high, program, first, last) in PROGRAMS {
        let mut out = Effects::new(rt.alloc());
        let mut host = started(rt.alloc(), program, 1, 0).expect(&rt, "memory");
        let level = Body::Dev(DevMsg::Level { high });
        host.take_body(rt.alloc(), Time(0), 0, level, &mut out)
            .expect(&rt, "memory");
        run(&mut host, rt.alloc(), 100_000, &mut out).expect(&rt, "memory");
        let before = usize::from(!first.is_empty());
        assert!(rt; before == 0 || says(&out, 0, first));
        assert!(rt; says(&out, before, last));
        assert_eq!(rt; out.lines.len(), before + 1);
    }
}

// How a program of two instructions, of which the first loads t0, ends in a trap.
fn ends_in(alloc: Global, ram: u32, program: &[u32], line: &[u8]) -> Option<bool>
    requires some { 65536 ≤ ram }
    requires in_range { ram ≤ 16777216 }
    requires whole_words { ram % 4 ≡ 0 }
{
    let mut out = Effects::new(alloc);
    let mut host = sized(alloc, ram, program, 0, 0)?;
    run(&mut host, alloc, 100_000, &mut out)?;
    Some(out.lines.len() == 1 && says(&out, 0, line) && host.phase == HostState::Halted)
}

// At the end of RAM: a byte past it, misaligned words across it, a fetch. At the console, the halt word and the counter:
// each size and direction that they don't take. Then a place where nothing is.
#[test]
fn traps_where_an_access_is_refused(rt: HostRuntime) {
    let end = 0x8001_02B7;
    let words = 0x1000_02B7;
    let rows: [(u32, u32, &[u8]); 16] = [
        (end, 0x0002_C303, b"trap 0x5"),
        (end, 0x0062_8023, b"trap 0x7"),
        (end, 0xFFE2_A303, b"trap 0x4"),
        (end, 0xFE62_AF23, b"trap 0x6"),
        (end, 0x0002_8067, b"trap 0x1"),
        (words, 0x0002_9023, b"trap 0x7"),
        (words, 0x0002_A023, b"trap 0x7"),
        (words, 0x0002_8303, b"trap 0x5"),
        (words, 0x0002_8223, b"trap 0x7"),
        (words, 0x0002_9223, b"trap 0x7"),
        (words, 0x0042_A303, b"trap 0x5"),
        (words, 0x0082_9303, b"trap 0x5"),
        (words, 0x0082_8303, b"trap 0x5"),
        (words, 0x0002_A423, b"trap 0x7"),
        (words, 0x00C2_A303, b"trap 0x5"),
        (words, 0x0000_0000, b"trap 0x2"),
    ];
    for (upper, instruction, line) in rows {
        let ends = ends_in(rt.alloc(), LEAST, &[upper, instruction], line);
        assert!(rt; ends == Some(true), "{instruction}");
    }
    // The last word of the greatest RAM, and the one past it.
    let last = ends_in(
        rt.alloc(),
        GREATEST,
        &[0x8100_02B7, 0xFFC2_A303],
        b"trap 0x2",
    );
    assert!(rt; last == Some(true));
    let past = ends_in(
        rt.alloc(),
        GREATEST,
        &[0x8100_02B7, 0x0002_A303],
        b"trap 0x5",
    );
    assert!(rt; past == Some(true));
}

// A trap handler at 0x8000_0010, and from there on the words of a generator that shifts a number and adds it to itself by
// exclusive or, up to the end of RAM.
fn wild(alloc: Global, seed: u32) -> Option<Vec<u32>> {
    let mut words = Vec::new(alloc);
    for word in [0x8000_02B7, 0x0102_8293, 0x3052_9073, 0x0000_0013] {
        words.push(word).ok()?;
    }
    let mut x = seed;
    for _ in 0..16380u32 {
        x ^= x << 13;
        x ^= x >> 17;
        x ^= x << 5;
        words.push(x).ok()?;
    }
    Some(words)
}

// How many lines the first 2,000 ticks of wild programs log, and the last one, as `docs/peer/host.py wild` prints them.
#[test]
fn runs_wild_programs(rt: HostRuntime) {
    for seed in 1..17u32 {
        let (lines, last): (usize, &[u8]) = match seed {
            3 => (998, b"trap 0x5"),
            15 => (1996, b"trap 0x0"),
            _ => (1996, b"trap 0x2"),
        };
        let program = wild(rt.alloc(), seed).expect(&rt, "memory");
        let mut out = Effects::new(rt.alloc());
        let mut host = started(rt.alloc(), program.as_slice(), 0, 0).expect(&rt, "memory");
        run(&mut host, rt.alloc(), 2_000_000, &mut out).expect(&rt, "memory");
        assert_eq!(rt; out.lines.len(), lines, "{seed}");
        assert!(rt; says(&out, lines - 1, last), "{seed}");
    }
}

// Bytes that are no printable ASCII, the 120th byte, and a trap with no handler while a text is kept.
#[test]
fn logs_what_the_console_keeps(rt: HostRuntime) {
    let mut out = Effects::new(rt.alloc());
    let mut host = started(rt.alloc(), &[], 0, 0).expect(&rt, "memory");
    for byte in [0x1F, 0x20, 0x7E, 0x7F, b'\\', b'\n'] {
        host.print(rt.alloc(), byte, &mut out).expect(&rt, "memory");
    }
    assert!(rt; says(&out, 0, b"con \\x1f ~\\x7f\\x5c"));
    for _ in 0..119u32 {
        host.print(rt.alloc(), b'a', &mut out).expect(&rt, "memory");
    }
    assert_eq!(rt; out.lines.len(), 1);
    host.print(rt.alloc(), b'a', &mut out).expect(&rt, "memory");
    assert_eq!(rt; out.lines.len(), 2);
    host.print(rt.alloc(), b'b', &mut out).expect(&rt, "memory");
    run(&mut host, rt.alloc(), 10_000, &mut out).expect(&rt, "memory");
    assert!(rt; says(&out, 2, b"trap 0x2"));
    assert!(rt; says(&out, 3, b"con b"));
    assert!(rt; host.phase.due().is_none());
}

// A load from a memory device, and completions of which only the fourth is its own: another port, id and length before,
// and itself once more after.
#[test]
fn waits_for_the_completion_of_its_access(rt: HostRuntime) {
    let mut out = Effects::new(rt.alloc());
    let mut host = started(rt.alloc(), &[0x6000_02B7, 0x0082_A383], 1, 1).expect(&rt, "memory");
    run(&mut host, rt.alloc(), 10_000, &mut out).expect(&rt, "memory");
    assert_eq!(rt; out.sends.len(), 1);
    assert!(rt; host.phase.due().is_none());
    let rows = [
        (0, 0, 4, 3000, false),
        (1, 1, 4, 3000, false),
        (1, 0, 2, 3000, false),
        (1, 0, 4, 5000, true),
        (1, 0, 4, 7000, true),
    ];
    for (port, id, len, at, is_done) in rows {
        let octets = Octets::from_slice(rt.alloc(), &[1, 2, 3, 4][0..len]).expect(&rt, "memory");
        let bytes = Data::new(octets).expect(&rt, "some bytes");
        let body = Body::Mem(MemMsg::ReadDone { id, bytes });
        host.take_body(rt.alloc(), Time(at), port, body, &mut out)
            .expect(&rt, "memory");
        assert_eq!(rt; host.phase.due().is_some(), is_done, "{port} {id} {len}");
    }
    assert_eq!(rt; host.core.reg(7), 0x0403_0201);
    assert!(rt; host.phase.due() == Some(Time(6000)));
}

// The number that a device was answered with last.
fn answer(out: &Effects) -> Option<u32> {
    match out.sends.as_slice().last()? {
        (_, Body::Host(HostMsg::ReadDone { id: _, bytes })) if bytes.len().bytes() == 4 => {
            Some(number_at(bytes.as_slice(), 0, 4))
        }
        _ => None,
    }
}

// Four bytes at the last place of RAM, across its end and before its beginning: whether a device writes them, what it is
// answered, and whether that is a fault. They are those of a host that runs, and of one that has halted.
#[test]
fn devices_reach_ram(rt: HostRuntime) {
    let rows = [
        (true, 0x8000_FFFC, None, false),
        (false, 0x8000_FFFC, Some(0x0403_0201), false),
        (true, 0x8000_FFFD, None, true),
        (true, 0x7FFF_FFFF, None, true),
        (false, 0x8000_FFFD, Some(0), true),
        (false, 0x7FFF_FFFF, Some(0), true),
        (false, 0x8000_FFFC, Some(0x0403_0201), false),
    ];
    for is_halted in [false, true] {
        let mut host = started(rt.alloc(), &[], 1, 0).expect(&rt, "memory");
        if is_halted {
            host.phase = HostState::Halted;
        }
        for (writes, addr, value, faults) in rows {
            let mut out = Effects::new(rt.alloc());
            let octets = Octets::from_slice(rt.alloc(), &[1, 2, 3, 4]).expect(&rt, "memory");
            let message = if writes {
                let bytes = Data::new(octets).expect(&rt, "some bytes");
                DevMsg::Write { id: 9, addr, bytes }
            } else {
                let len = Length::new(4).expect(&rt, "a length");
                DevMsg::Read { id: 9, addr, len }
            };
            host.take_body(rt.alloc(), Time(0), 0, Body::Dev(message), &mut out)
                .expect(&rt, "memory");
            assert_eq!(rt; out.sends.len(), 1);
            assert!(rt; answer(&out) == value, "{addr}");
            assert_eq!(rt; out.lines.len() == 1, faults, "{addr}");
        }
    }
}

// Whether a device was answered with 16 zeros last.
fn answers_zeros(out: &Effects) -> Option<bool> {
    match out.sends.as_slice().last()? {
        (_, Body::Host(HostMsg::ReadDone { id: _, bytes })) if bytes.len().bytes() == 16 => {
            Some(bytes.as_slice() == [0; 16].as_slice())
        }
        _ => None,
    }
}

// Reads of 16 bytes by a device, of which the first begins one byte before RAM and the second ends one byte past it: they
// are answered with zeros, and the line says at which address. The third is wholly in RAM.
#[test]
fn faults_name_their_addresses(rt: HostRuntime) {
    let rows: [(u64, &[u8]); 3] = [
        (0x7FFF_FFFF, b"dma fault 0x7fffffff"),
        (0x8000_FFF1, b"dma fault 0x8000fff1"),
        (0x8000_FFF0, b""),
    ];
    let mut host = started(rt.alloc(), &[0x1000_02B7], 1, 0).expect(&rt, "memory");
    for (addr, line) in rows {
        let mut out = Effects::new(rt.alloc());
        let len = Length::new(16).expect(&rt, "a length");
        let read = Body::Dev(DevMsg::Read { id: 9, addr, len });
        host.take_body(rt.alloc(), Time(0), 0, read, &mut out)
            .expect(&rt, "memory");
        assert_eq!(rt; out.sends.len(), 1);
        assert_eq!(rt; answers_zeros(&out), Some(true), "{addr}");
        assert_eq!(rt; out.lines.len(), usize::from(!line.is_empty()), "{addr}");
        assert!(rt; line.is_empty() || says(&out, 0, line), "{addr}");
    }
}

// WFI waits until a level is high, and one of two levels is enough.
#[test]
fn sleeps_until_an_interrupt(rt: HostRuntime) {
    let program = [0x0000_12B7, 0x8002_8293, 0x3042_9073, 0x1050_0073];
    let mut out = Effects::new(rt.alloc());
    let mut host = started(rt.alloc(), &program, 2, 0).expect(&rt, "memory");
    run(&mut host, rt.alloc(), 10_000, &mut out).expect(&rt, "memory");
    assert!(rt; host.phase.due().is_none());
    let rows = [
        (1, false, None),
        (1, true, Some(Time(8000))),
        (0, false, Some(Time(8000))),
    ];
    for (port, high, due) in rows {
        let body = Body::Dev(DevMsg::Level { high });
        host.take_body(rt.alloc(), Time(7000), port, body, &mut out)
            .expect(&rt, "memory");
        assert!(rt; host.phase.due() == due, "{port}");
    }
    assert!(rt; host.core.wakes());
}

// A host with a PCIe port and a memory port, its interrupt enabled, as parts at the time 5: whether a load from its memory
// device is pending, whether the level of its PCIe port and its external line are high, what its console keeps, and whether
// these parts are valid.
#[derive(Drop)]
struct PartsCase {
    state: HostState,
    loads: bool,
    level: bool,
    line: bool,
    console: &'static [u8],
    is_valid: bool,
}

const fn in_state(state: HostState, loads: bool, is_valid: bool) -> PartsCase {
    PartsCase {
        state,
        loads,
        level: false,
        line: false,
        console: b"",
        is_valid,
    }
}

fn parts_of(alloc: Global, case: &PartsCase) -> Option<HostParts> {
    let mut ram = Vec::new(alloc);
    ram.resize(65536, 0).ok()?;
    let mut levels = Items::new(alloc);
    levels.push(case.level).ok()?;
    let mut core = Core::new(5).into_parts();
    core.mie = 0x800;
    core.external = case.line;
    if case.loads {
        core.pending = Pending::Load {
            addr: 0x6000_0008,
            size: 4,
            rd: 7,
            signed: false,
        };
    }
    Some(HostParts {
        core,
        ram: Octets::from_vec(ram),
        ticks: 2,
        next_id: 1,
        state: case.state,
        levels,
        console: Octets::from_slice(alloc, case.console).ok()?,
    })
}

const fn keeping(
    state: HostState,
    level: bool,
    line: bool,
    console: &'static [u8],
    is_valid: bool,
) -> PartsCase {
    PartsCase {
        state,
        loads: false,
        level,
        line,
        console,
        is_valid,
    }
}

#[test]
fn parts_are_valid_where_all_fits(rt: HostRuntime) {
    let config = configured(rt.alloc(), LEAST, 1, 1).expect(&rt, "memory");
    let due = HostState::Due(Time(5));
    let cases = [
        in_state(due, false, true),
        in_state(HostState::Due(Time(4)), false, false),
        in_state(due, true, false),
        in_state(HostState::Access { port: 1, id: 0 }, true, true),
        in_state(HostState::Access { port: 0, id: 0 }, true, false),
        in_state(HostState::Access { port: 1, id: 1 }, true, false),
        in_state(HostState::Access { port: 1, id: 0 }, false, false),
        in_state(HostState::Asleep, false, true),
        in_state(HostState::Halted, false, true),
        keeping(due, true, false, b"", false),
        keeping(HostState::Asleep, true, true, b"", false),
        keeping(due, true, true, b"ab", true),
        keeping(due, false, false, b"a\n", false),
        keeping(HostState::Halted, false, false, b"a", false),
    ];
    for (place, case) in cases.iter().enumerate() {
        let parts = parts_of(rt.alloc(), case).expect(&rt, "memory");
        match Host::from_parts(&config, Time(5), parts) {
            Ok(host) => {
                assert!(rt; case.is_valid && host.phase == case.state, "{place}");
            }
            Err(refusal) => {
                assert!(rt; !case.is_valid && refusal == PartsBad::Invalid, "{place}");
            }
        }
    }
}

// What was kept of a host at its start makes a host that runs as it does.
#[test]
fn parts_make_the_host_again(rt: HostRuntime) {
    let config = configured(rt.alloc(), LEAST, 0, 0).expect(&rt, "memory");
    let program = [0x1000_02B7, 0x0070_0313, 0x0062_A223];
    let host = started(rt.alloc(), &program, 0, 0).expect(&rt, "memory");
    let parts = host.into_parts(Time(0)).expect(&rt, "no memory is taken");
    let mut again = Host::from_parts(&config, Time(0), parts).expect(&rt, "valid parts");
    let mut out = Effects::new(rt.alloc());
    run(&mut again, rt.alloc(), 10_000, &mut out).expect(&rt, "memory");
    assert!(rt; says(&out, 0, b"halt 7"));
}
