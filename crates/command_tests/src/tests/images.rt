//! Hosts and their programs.
use crate::tests::{Answer, FILE, answer_to, joined, on_text, two_files};
use std::alloc::Global;
use std::test::Fail;

/// A host that runs the program `p`. The end is missing.
pub(super) const HOST: &str = r#"
[[component]]
name = "h"
kind = "host"
ram = 65536
cycle = 1000
image = "p"
"#;

/// Prints H and a line feed, and halts with 7.
const PROGRAM: &str =
    "li t0, 0x10000000\nli t1, 72\nsb t1, 0(t0)\nli t1, 10\nsb t1, 0(t0)\nli t1, 7\nsw t1, 4(t0)\n";

/// `model` on a host that ends so late, with this program.
fn modelled(alloc: Global, end: &str, program: &[u8]) -> Result<Answer, Fail> {
    let topology = joined(alloc, &[end, HOST])?;
    let files = two_files(alloc, topology.as_bytes(), "p", program)?;
    answer_to(alloc, &["model", FILE], files)
}

/// The end, a program's source, and the log.
const LOGS: [(&str, &str, &str); 3] = [
    ("end = 10001", PROGRAM, "7000 h con H\n10000 h halt 7\n"),
    ("end = 10000", PROGRAM, "7000 h con H\n"),
    ("end = 10000", "", "0 h trap 0x2\n"),
];

#[test]
fn a_host_runs_its_program(rt: HostRuntime) -> Result<(), Fail> {
    for (end, source, log) in &LOGS {
        let program = on_text(rt.alloc(), "asm", source.as_bytes())?;
        let answer = modelled(rt.alloc(), end, program.out.as_slice())?;
        answer.check(&rt, 0, log.as_bytes(), "");
    }
    Ok(())
}

#[test]
fn programs_are_refused(rt: HostRuntime) -> Result<(), Fail> {
    let alloc = rt.alloc();
    let topology = joined(alloc, &["end = 10000", HOST])?;
    let missing = on_text(alloc, "model", topology.as_bytes())?;
    missing.check(&rt, 3, b"", "cosim: file p\n");
    let long = vec![in alloc; 0u8; 65_537]?;
    let long = modelled(alloc, "end = 10000", long.as_slice())?;
    long.check(&rt, 5, b"", "cosim: image h\n");
    Ok(())
}
