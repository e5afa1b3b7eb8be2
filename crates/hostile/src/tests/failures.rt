//! Wires that fail at one of their first calls.
use super::frames::whole_streams;
use super::{TWO_WORKERS, only, run_pair};
use pipe_wires::PipePlan;
use std::alloc::Global;
use std::test::Fail;

/// The channel, whether its sends or its receipts fail, and what is said.
const FAILING: [(usize, bool, &str); 4] = [
    (0, true, "cosim: link lost 0\n"),
    (0, false, "cosim: link lost 0\n"),
    (1, true, "cosim: link lost 1\n"),
    (1, false, "cosim: link lost 1\n"),
];

/// The numbers of the calls of which one fails.
const CALLS: [u64; 3] = [0, 1, 2];

/// A pipe of which this send fails, or this receipt.
fn failing(alloc: Global, sends: bool, call: u64) -> Result<PipePlan, Fail> {
    let mut plan = PipePlan::plain(alloc);
    if sends {
        plan.failed_sends = only(alloc, call)?;
    } else {
        plan.failed_receipts = only(alloc, call)?;
    }
    Ok(plan)
}

#[test]
fn a_wire_that_fails_is_told(rt: HostRuntime) -> Result<(), Fail> {
    let alloc = rt.alloc();
    let sent = whole_streams(alloc)?;
    for (channel, sends, line) in &FAILING {
        for call in &CALLS {
            for workers in &["--workers=1", TWO_WORKERS] {
                let plan = failing(alloc, *sends, *call)?;
                let plain = PipePlan::plain(alloc);
                let (first, second) = if *channel == 0 {
                    (plan, plain)
                } else {
                    (plain, plan)
                };
                let run = run_pair(&rt, alloc, workers, first, second)?;
                assert!(rt; run.breaks(6, line, &sent, &sent), "{call} {run:?}");
            }
        }
    }
    Ok(())
}
