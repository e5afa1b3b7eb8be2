//! Programs by chance, of a host beside an adapter and a switch.
use super::{FILE, Outside, Run, TWO_WORKERS, file, local, run_plain};
use cs_base::{Items, Octets};
use std::alloc::Global;
use std::process::Abort;
use std::sync::Wait;
use std::test::Fail;
use std::thread::Threads;

const SYSTEM: &str = r#"
end = 2000000
[[component]]
name = "h"
kind = "host"
ram = 65536
cycle = 1000
pcie = 1
image = "image"
[[component]]
name = "n"
kind = "nic"
mac = "02:00:00:00:00:0a"
[[component]]
name = "s"
kind = "switch"
ports = 1
[[link]]
a = "h"
b = "n"
latency = 5000
[[link]]
a = "n"
a_port = 1
b = "s"
latency = 5000
"#;

/// The words of `li t0, 0x80000010`, which are two, `csrrw x0, mtvec, t0` and `nop`.
const HANDLER: [u32; 4] = [0x8000_02b7, 0x0102_8293, 0x3052_9073, 0x0000_0013];

/// A trap handler, and from there on the words of a generator that begins with this number.
fn program(alloc: Global, seed: u32) -> Result<Octets, Fail> {
    let mut program = Octets::new(alloc);
    for word in &HANDLER {
        program.append(&word.to_le_bytes())?;
    }
    let mut x = seed;
    for _ in 0..16_380u32 {
        x ^= x << 13;
        x ^= x >> 17;
        x ^= x << 5;
        program.append(&x.to_le_bytes())?;
    }
    Ok(program)
}

fn outside(alloc: Global, seed: u32) -> Result<Outside, Fail> {
    let mut files = Items::new(alloc);
    files.push(file(alloc, FILE, SYSTEM.as_bytes())?)?;
    files.push(file(alloc, "image", program(alloc, seed)?.as_slice())?)?;
    Ok(Outside::of_files(alloc, files, Items::new(alloc)))
}

/// It asked for both files, dialed no channel, and wrote this.
fn wrote(answer: &Run, text: &[u8]) -> bool {
    answer.status == 0
        && answer.err.is_empty()
        && answer.asked.as_slice() == b"in\nimage\n".as_slice()
        && answer.dials_none()
        && answer.out.as_slice() == text
}

/// The programs of the generator that begin with these numbers write one text by each command.
fn check<R: Threads + Wait + Sync + Abort>(
    rt: &R,
    alloc: Global,
    first: u32,
    past: u32,
) -> Result<(), Fail> {
    for seed in first..past {
        let model = local(alloc, &["model", FILE], outside(alloc, seed)?)?;
        let text = model.out.as_slice();
        assert!(rt; !text.is_empty() && wrote(&model, text), "{seed}");
        let serial = local(alloc, &["serial", FILE], outside(alloc, seed)?)?;
        assert!(rt; wrote(&serial, text), "{seed}");
        let words = ["run", FILE, TWO_WORKERS];
        let run = run_plain(rt, alloc, &words, outside(alloc, seed)?)?;
        assert!(rt; wrote(&run, text) && run.rests == 4, "{seed}");
    }
    Ok(())
}

#[test]
fn wild_programs_write_one_text(rt: HostRuntime) -> Result<(), Fail> {
    check(&rt, rt.alloc(), 1, 6)
}

#[test]
fn other_wild_programs_write_one_text(rt: HostRuntime) -> Result<(), Fail> {
    check(&rt, rt.alloc(), 6, 11)
}

#[test]
fn the_last_wild_programs_write_one_text(rt: HostRuntime) -> Result<(), Fail> {
    check(&rt, rt.alloc(), 11, 17)
}
