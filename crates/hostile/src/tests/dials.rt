//! Dials that fail.
use super::{ASKED, FILE, Outside, Run, TWO_WORKERS, pair, run_over};
use cs_base::{Items, Queue};
use pipe_wires::PipeDialer;
use std::alloc::Global;
use std::process::Abort;
use std::sync::Wait;
use std::test::Fail;
use std::thread::Threads;

/// The channels whose dials fail, those that are dialed, and what is said.
type Row = (&'static [u32], &'static [u32], &'static str);

/// Two pairs of beacons, each with a link by proxy.
const TWO_PAIRS: &str = r#"
end = 2600
[[component]]
name = "a"
kind = "beacon"
first = 1000
period = 1000
count = 2
from = "02:00:00:00:00:01"
[[component]]
name = "b"
kind = "beacon"
count = 0
from = "02:00:00:00:00:02"
[[component]]
name = "c"
kind = "beacon"
first = 1000
period = 1000
count = 2
from = "02:00:00:00:00:03"
[[component]]
name = "d"
kind = "beacon"
count = 0
from = "02:00:00:00:00:04"
[[link]]
a = "a"
b = "b"
latency = 500
via = "proxy"
[[link]]
a = "c"
b = "d"
latency = 500
via = "proxy"
"#;

/// Those of the pair.
const PAIR_DIALS: [Row; 3] = [
    (&[0], &[0], "cosim: link lost 0\n"),
    (&[1], &[0, 1], "cosim: link lost 1\n"),
    (&[1, 0], &[0], "cosim: link lost 0\n"),
];

/// Those of two pairs.
const DIALS: [Row; 7] = [
    (&[0], &[0], "cosim: link lost 0\n"),
    (&[1], &[0, 1], "cosim: link lost 1\n"),
    (&[2], &[0, 1, 2], "cosim: link lost 2\n"),
    (&[3], &[0, 1, 2, 3], "cosim: link lost 3\n"),
    (&[3, 1], &[0, 1], "cosim: link lost 1\n"),
    (&[2, 3], &[0, 1, 2], "cosim: link lost 2\n"),
    (&[3, 2, 1, 0], &[0], "cosim: link lost 0\n"),
];

/// A run of which the dials of these channels fail.
fn run_failing<R: Threads + Wait + Sync>(
    rt: &R,
    alloc: Global,
    workers: &str,
    text: &str,
    channels: &[u32],
) -> Result<Run, Fail> {
    let mut failing = Items::new(alloc);
    for channel in channels {
        failing.push(*channel)?;
    }
    let dialer = PipeDialer::new(alloc, Queue::new(alloc), failing);
    let outside = Outside::of_text(alloc, text)?;
    run_over(
        rt,
        alloc,
        &["run", FILE, workers, "--stats"],
        outside,
        dialer,
    )
}

/// The first failed dial is told and no other channel dialed, on one worker and on two.
fn check<R: Threads + Wait + Sync + Abort>(
    rt: &R,
    alloc: Global,
    text: &str,
    rows: &[Row],
) -> Result<(), Fail> {
    for (channels, dialed, line) in rows {
        for workers in &["--workers=1", TWO_WORKERS] {
            let run = run_failing(rt, alloc, workers, text, channels)?;
            assert!(rt; run.refuses(6, line, ASKED), "{run:?}");
            assert_eq!(rt; run.dialed.as_slice(), *dialed);
            assert_eq!(rt; (run.failed_dials, run.ends.len()), (1, 0));
        }
    }
    Ok(())
}

#[test]
fn the_first_failed_dial_is_told(rt: HostRuntime) -> Result<(), Fail> {
    let alloc = rt.alloc();
    check(&rt, alloc, pair(alloc)?.as_str(), &PAIR_DIALS)?;
    check(&rt, alloc, TWO_PAIRS, &DIALS)
}
