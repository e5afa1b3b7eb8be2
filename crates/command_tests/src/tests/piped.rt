//! Runs whose links go by proxy, over pipes.
use super::running::{Run, WORKERS, run_over};
use super::{FILE, TWO_BEACONS, files, plain, sink};
use cs_base::{Items, OpenGate, Queue};
use pipe_wires::{PipeDialer, PipePlan};
use std::alloc::Global;
use std::string::String;
use std::sync::Wait;
use std::test::Fail;
use std::thread::Threads;

/// Two beacons whose link goes by proxy.
fn two_beacons(alloc: Global) -> Result<String, Fail> {
    Ok(format!(in alloc; "end = 2600{TWO_BEACONS}via = \"proxy\"\n")?)
}

/// A run on a topology text, over pipes of which the first has this plan, and of which the dial of one may fail.
fn run_piped<R: Threads + Wait + Sync>(
    rt: &R,
    alloc: Global,
    workers: &str,
    text: &[u8],
    plan: PipePlan,
    failing: Option<u32>,
) -> Result<Run, Fail> {
    let mut plans = Queue::new(alloc);
    plans.push(plan)?;
    let mut failed = Items::new(alloc);
    if let Some(channel) = failing {
        failed.push(channel)?;
    }
    run_over(
        rt,
        alloc,
        &["run", FILE, workers, "--stats"],
        &mut files(alloc, text)?,
        &mut PipeDialer::new(alloc, plans, failed),
        &mut sink(alloc, 65_536, &[])?,
        &mut sink(alloc, 65_536, &[])?,
        &OpenGate,
    )
}

/// A pipe that gives so many bytes at most, and then has nothing to give yet.
fn in_pieces(alloc: Global, piece: usize) -> PipePlan {
    let mut plan = PipePlan::plain(alloc);
    plan.piece = piece;
    plan.pauses = true;
    plan
}

#[test]
fn pipes_carry_the_global_run(rt: HostRuntime) -> Result<(), Fail> {
    let alloc = rt.alloc();
    let topology = two_beacons(alloc)?;
    let text = topology.as_bytes();
    let global = plain(alloc, &["serial", FILE, "--stats"], text)?;
    for piece in [1, 65_536] {
        for workers in &WORKERS {
            let run = run_piped(&rt, alloc, workers, text, in_pieces(alloc, piece), None)?;
            assert_eq!(rt; run.answer.status, 0);
            assert_eq!(rt; run.answer.out.as_slice(), global.out.as_slice());
            assert_eq!(rt; (run.rests, run.ends), (4, 2));
        }
    }
    Ok(())
}

/// The byte of channel 0 that is changed, the place at which its stream ends, the channel whose dial fails, and what is
/// answered, said and left.
const BROKEN: [(Option<u64>, Option<u64>, Option<u32>, u8, &str, usize); 4] = [
    (Some(360), None, None, 8, "cosim: link differs 0 360\n", 2),
    (
        Some(132),
        None,
        None,
        7,
        "cosim: bad peer 0 68 message\n",
        2,
    ),
    (None, Some(100), None, 6, "cosim: link lost 0\n", 2),
    (None, None, Some(1), 6, "cosim: link lost 1\n", 0),
];

#[test]
fn a_broken_pipe_is_told(rt: HostRuntime) -> Result<(), Fail> {
    let alloc = rt.alloc();
    let topology = two_beacons(alloc)?;
    for (changed, end, failing, status, line, ends) in &BROKEN {
        let mut plan = PipePlan::plain(alloc);
        plan.changed = *changed;
        plan.end = *end;
        let run = run_piped(
            &rt,
            alloc,
            "--workers=2",
            topology.as_bytes(),
            plan,
            *failing,
        )?;
        assert_eq!(rt; run.answer.status, *status);
        assert_eq!(rt; run.answer.err.as_slice(), line.as_bytes());
        assert!(rt; run.answer.out.is_empty());
        assert_eq!(rt; (run.rests, run.ends), (0, *ends));
    }
    Ok(())
}
