//! Outputs that take ten bytes at once and then fail, and error streams that fail too.
use super::{ASKED, BEACONS, FILE, LOG, Outside, Run, TWO_WORKERS, local, only, pair, run_plain};
use cs_base::MemSink;
use std::alloc::Global;
use std::process::Abort;
use std::sync::Wait;
use std::test::Fail;
use std::thread::Threads;

/// The number of the write that fails, and what was written before.
const WRITES: [(u64, &str); 5] = [
    (0, ""),
    (1, "1000 a tx "),
    (2, "1000 a tx 60\n1500 b "),
    (3, "1000 a tx 60\n1500 b rx 60\n2000"),
    (4, "1000 a tx 60\n1500 b rx 60\n2000 a tx 60\n2"),
];

/// A topology, an output of which one write fails, and an error stream that fails where it is to.
fn outside(alloc: Global, text: &str, write: u64, mute: bool) -> Result<Outside, Fail> {
    let mut outside = Outside::of_text(alloc, text)?;
    outside.out = MemSink::new(alloc, 10, only(alloc, write)?);
    if mute {
        outside.err = MemSink::new(alloc, 10, only(alloc, 0)?);
    }
    Ok(outside)
}

/// Its output failed when this was written. It says so where it can, asked for its file, and leaves no queue.
fn is_cut(answer: &Run, written: &str, mute: bool) -> bool {
    let line = if mute { "" } else { "cosim: out\n" };
    answer.status == 9
        && answer.out.as_slice() == written.as_bytes()
        && answer.err.as_slice() == line.as_bytes()
        && answer.asked.as_slice() == ASKED.as_bytes()
        && answer.rests == 0
}

/// Each command but `run` is cut where this write fails.
fn check_local<R: Abort>(
    rt: &R,
    alloc: Global,
    write: u64,
    written: &str,
    mute: bool,
) -> Result<(), Fail> {
    for command in ["model", "serial"] {
        let outside = outside(alloc, BEACONS, write, mute)?;
        let answer = local(alloc, &[command, FILE], outside)?;
        assert!(rt; is_cut(&answer, written, mute), "{command} {answer:?}");
    }
    Ok(())
}

/// So is a run of the two beacons by proxy.
fn check_run<R: Threads + Wait + Sync + Abort>(
    rt: &R,
    alloc: Global,
    write: u64,
    written: &str,
    mute: bool,
) -> Result<(), Fail> {
    let outside = outside(alloc, pair(alloc)?.as_str(), write, mute)?;
    let answer = run_plain(rt, alloc, &["run", FILE, TWO_WORKERS], outside)?;
    assert!(rt; is_cut(&answer, written, mute), "{answer:?}");
    assert_eq!(rt; answer.ends.len(), 2);
    Ok(())
}

#[test]
fn an_output_that_fails_has_the_beginning(rt: HostRuntime) -> Result<(), Fail> {
    for (write, written) in &WRITES {
        for mute in [false, true] {
            check_local(&rt, rt.alloc(), *write, written, mute)?;
            check_run(&rt, rt.alloc(), *write, written, mute)?;
        }
    }
    Ok(())
}

#[test]
fn an_output_that_takes_ten_bytes_at_once_has_all(rt: HostRuntime) -> Result<(), Fail> {
    let alloc = rt.alloc();
    let answer = local(alloc, &["model", FILE], outside(alloc, BEACONS, 6, true)?)?;
    assert_eq!(rt; answer.status, 0);
    assert_eq!(rt; answer.out.as_slice(), LOG.as_bytes());
    assert!(rt; answer.err.is_empty());
    Ok(())
}
