//! Runs on threads.
use super::images::HOST;
use super::switching::{NO_PORTS, THREE_STATIONS};
use super::{
    Answer, FILE, FOUR_LINES, TWO_BEACONS, answered, files, joined, owned, plain, sink, two_files,
};
use cosim_cmd::cosim_run;
use cs_base::{Gate, Items, MemFiles, MemSink, OpenGate, Queue};
use pipe_wires::PipeDialer;
use std::alloc::Global;
use std::process::Abort;
use std::sync::Wait;
use std::sync::atomic::{AtomicU64, Ordering};
use std::test::Fail;
use std::thread;
use std::thread::Threads;

/// What `run` answers, how many queues it leaves, and how many channels by proxy.
#[derive(Drop)]
pub(super) struct Run {
    pub(super) answer: Answer,
    pub(super) rests: usize,
    pub(super) ends: usize,
}

/// A run over pipes.
pub(super) fn run_over<R: Threads + Wait + Sync, G: Gate + Sync>(
    rt: &R,
    alloc: Global,
    words: &[&str],
    files: &mut MemFiles,
    dial: &mut PipeDialer,
    out: &mut MemSink,
    err: &mut MemSink,
    gate: &G,
) -> Result<Run, Fail> {
    let words = owned(alloc, words)?;
    let mut ends = Vec::new(alloc);
    let mut rests = Vec::new(alloc);
    let status = cosim_run(
        rt,
        alloc,
        words.as_slice(),
        files,
        dial,
        &mut ends,
        &mut rests,
        out,
        err,
        gate,
    );
    Ok(Run {
        answer: answered(alloc, status, out, err)?,
        rests: rests.len(),
        ends: ends.len(),
    })
}

/// A run whose links go by queues, over sinks that take all.
fn run_of<R: Threads + Wait + Sync, G: Gate + Sync>(
    rt: &R,
    alloc: Global,
    words: &[&str],
    files: &mut MemFiles,
    gate: &G,
) -> Result<Run, Fail> {
    run_over(
        rt,
        alloc,
        words,
        files,
        &mut PipeDialer::new(alloc, Queue::new(alloc), Items::new(alloc)),
        &mut sink(alloc, 65_536, &[])?,
        &mut sink(alloc, 65_536, &[])?,
        gate,
    )
}

fn run_on<R: Threads + Wait + Sync>(
    rt: &R,
    alloc: Global,
    words: &[&str],
    text: &[u8],
) -> Result<Run, Fail> {
    run_of(rt, alloc, words, &mut files(alloc, text)?, &OpenGate)
}

pub(super) const WORKERS: [&str; 4] = ["--workers=1", "--workers=2", "--workers=5", "--workers=64"];

/// Runs on each number of workers write what `model` does, and leave so many queues.
fn check_workers<R: Threads + Wait + Sync + Abort>(
    rt: &R,
    alloc: Global,
    text: &[u8],
    channels: usize,
) -> Result<(), Fail> {
    let global = plain(alloc, &["model", FILE, "--stats"], text)?;
    for workers in &WORKERS {
        let run = run_on(rt, alloc, &["run", *workers, "--stats", FILE], text)?;
        run.answer.check(rt, 0, global.out.as_slice(), "");
        assert_eq!(rt; (run.rests, run.ends), (channels, 0));
    }
    Ok(())
}

/// Keys of the two beacons' topology and of its link, under which `run` writes what `model` does.
const SERVED: [(&str, &str); 5] = [
    ("end = 1", ""),
    ("end = 2600", ""),
    ("end = 1000000", "slots = 1"),
    ("end = 2500", "interval = 1"),
    ("end = 2501", "interval = 500"),
];

#[test]
fn workers_write_the_global_run(rt: HostRuntime) -> Result<(), Fail> {
    for (end, key) in &SERVED {
        let topology = joined(rt.alloc(), &[*end, TWO_BEACONS, *key, "\n"])?;
        check_workers(&rt, rt.alloc(), topology.as_bytes(), 2)?;
    }
    Ok(())
}

#[test]
fn every_run_writes_the_same(rt: HostRuntime) -> Result<(), Fail> {
    let topology = joined(rt.alloc(), &["end = 2600", TWO_BEACONS, "slots = 1\n"])?;
    for _run in 0..50 {
        let words = ["run", "--workers", "2", FILE];
        let run = run_on(&rt, rt.alloc(), &words, topology.as_bytes())?;
        run.answer.check(&rt, 0, FOUR_LINES.as_bytes(), "");
    }
    Ok(())
}

/// Three switches in a ring.
const RING: &str = r#"
end = 10
[[component]]
name = "a"
kind = "switch"
ports = 2
[[component]]
name = "b"
kind = "switch"
ports = 2
[[component]]
name = "c"
kind = "switch"
ports = 2
[[link]]
a = "a"
b = "b"
b_port = 1
latency = 1
[[link]]
a = "b"
b = "c"
b_port = 1
latency = 1
[[link]]
a = "c"
b = "a"
b_port = 1
latency = 1
"#;

/// Networks, of the last of which nothing is joined.
const NETWORKS: [(&str, usize); 3] = [(RING, 6), (THREE_STATIONS, 6), (NO_PORTS, 0)];

#[test]
fn networks_run_on_workers(rt: HostRuntime) -> Result<(), Fail> {
    for (topology, channels) in &NETWORKS {
        check_workers(&rt, rt.alloc(), topology.as_bytes(), *channels)?;
    }
    Ok(())
}

/// Words that are no sentence of `run`.
const NO_SENTENCES: [&[&str]; 25] = [
    &[],
    &["run"],
    &["run", "a"],
    &["run", "--workers", "2"],
    &["run", "a", "--workers"],
    &["run", "a", "--workers="],
    &["run", "a", "--workers", "0"],
    &["run", "a", "--workers", "65"],
    &["run", "a", "--workers=02"],
    &["run", "a", "--workers", "+2"],
    &["run", "a", "--workers", "-2"],
    &["run", "a", "--workers", "2x"],
    &["run", "a", "--workers", "--", "2"],
    &["run", "a", "--worker", "2"],
    &["run", "a", "--workers=2", "--workers=2"],
    &["run", "a", "--workers", "2", "--workers", "2"],
    &["run", "a", "--workers=2", "2"],
    &["run", "a", "--workers=2", "--text"],
    &["run", "--stats", "a", "--workers=2", "--stats"],
    &["run", "a", "--workers=2", "--stats=1"],
    &["run", "--", "a", "--workers=2"],
    &["run", "--workers=2", "--help"],
    &["run", "--workers=2", "-1"],
    &["model", "a"],
    &["-run", "a", "--workers=2"],
];

#[test]
fn other_words_than_those_of_run_are_refused(rt: HostRuntime) -> Result<(), Fail> {
    for words in &NO_SENTENCES {
        let refused = run_on(&rt, rt.alloc(), words, b"")?;
        refused.answer.check(&rt, 2, b"", "cosim: usage\n");
    }
    Ok(())
}

/// Words of a sentence, and the line about their file, which isn't there.
const NAMED: [(&[&str], &str); 7] = [
    (&["run", "a", "--workers", "1"], "cosim: file a\n"),
    (&["run", "--workers", "64", "a"], "cosim: file a\n"),
    (&["run", "--workers=10", "--stats", "a"], "cosim: file a\n"),
    (
        &["run", "a", "--stats", "--workers", "2", "--"],
        "cosim: file a\n",
    ),
    (&["run", "--workers=2", "--", "-a"], "cosim: file -a\n"),
    (
        &["run", "--workers=2", "--", "--workers=2"],
        "cosim: file --workers=2\n",
    ),
    (&["run", "-", "--workers=2"], "cosim: file -\n"),
];

#[test]
fn sentences_of_run_name_their_file(rt: HostRuntime) -> Result<(), Fail> {
    for (words, line) in &NAMED {
        let unread = run_on(&rt, rt.alloc(), words, b"")?;
        unread.answer.check(&rt, 3, b"", line);
    }
    Ok(())
}

#[test]
fn a_failing_output_leaves_no_queues(rt: HostRuntime) -> Result<(), Fail> {
    let alloc = rt.alloc();
    let topology = joined(alloc, &["end = 2600", TWO_BEACONS])?;
    let run = run_over(
        &rt,
        alloc,
        &["run", FILE, "--workers=2"],
        &mut files(alloc, topology.as_bytes())?,
        &mut PipeDialer::new(alloc, Queue::new(alloc), Items::new(alloc)),
        &mut sink(alloc, 10, &[1])?,
        &mut sink(alloc, 100, &[0])?,
        &OpenGate,
    )?;
    run.answer.check(&rt, 9, b"1000 a tx ", "");
    assert_eq!(rt; run.rests, 0);
    Ok(())
}

/// The files of a host and its program, of which one read fails.
fn files_of_a_host(alloc: Global, read: u64) -> Result<MemFiles, Fail> {
    let topology = joined(alloc, &["end = 1", HOST])?;
    let files = two_files(alloc, topology.as_bytes(), "p", b"")?;
    let mut failing = Items::new(alloc);
    failing.push(read)?;
    Ok(MemFiles::new(alloc, files, failing))
}

/// The number of the read that fails, the status, and what is said and written.
const READS: [(u64, u8, &str, &str); 3] = [
    (0, 3, "cosim: file in\n", ""),
    (1, 3, "cosim: file p\n", ""),
    (2, 0, "", "0 h trap 0x2\n"),
];

#[test]
fn each_read_may_fail(rt: HostRuntime) -> Result<(), Fail> {
    let alloc = rt.alloc();
    for (read, status, said, written) in &READS {
        let mut files = files_of_a_host(alloc, *read)?;
        let words = ["run", FILE, "--workers=2"];
        let run = run_of(&rt, alloc, &words, &mut files, &OpenGate)?;
        run.answer.check(&rt, *status, written.as_bytes(), said);
    }
    Ok(())
}

/// It holds worker 0 until worker 1 has passed, for so many turns at most.
#[derive(Drop)]
struct Meeting {
    passed: AtomicU64,
    missed: AtomicU64,
}

impl Gate for Meeting {
    fn pass(&self, worker: u32) {
        if worker == 1 {
            self.passed.store(1, Ordering::SeqCst);
            return;
        }
        for _ in 0..10_000_000u32 {
            if self.passed.load(Ordering::SeqCst) == 1 {
                return;
            }
            thread::yield_now();
        }
        self.missed.store(1, Ordering::SeqCst);
    }
}

#[test]
fn two_workers_run_at_once(rt: HostRuntime) -> Result<(), Fail> {
    let alloc = rt.alloc();
    let topology = joined(alloc, &["end = 2600", TWO_BEACONS])?;
    let mut files = files(alloc, topology.as_bytes())?;
    let meeting = Meeting {
        passed: AtomicU64::new(0),
        missed: AtomicU64::new(0),
    };
    let words = ["run", FILE, "--workers=2"];
    let run = run_of(&rt, alloc, &words, &mut files, &meeting)?;
    run.answer.check(&rt, 0, FOUR_LINES.as_bytes(), "");
    assert_eq!(rt; meeting.missed.load(Ordering::SeqCst), 0);
    Ok(())
}
