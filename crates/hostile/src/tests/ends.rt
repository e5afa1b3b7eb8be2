//! Streams that end too early.
use super::Run;
use super::frames::{Streams, whole_streams};
use super::twists::{Twist, given, run_twisted};
use std::alloc::Global;
use std::process::Abort;
use std::sync::Wait;
use std::test::Fail;
use std::thread::Threads;

/// The length of channel 0's stream.
const LENGTH: u64 = 732;

/// The run is broken off, and all bytes came that were to come.
fn is_lost(run: &Run, sent: &Streams, given: &Streams) -> bool {
    run.breaks(6, "cosim: link lost 0\n", sent, given) && run.came() == given.first.as_slice()
}

/// The stream of channel 0 ends at each place from one up to another.
fn check<R: Threads + Wait + Sync + Abort>(
    rt: &R,
    alloc: Global,
    first: u64,
    past: u64,
) -> Result<(), Fail> {
    let sent = whole_streams(alloc)?;
    assert_eq!(rt; sent.first.len() as u64, LENGTH);
    for place in first..past {
        let end = Twist::Ends(place);
        let run = run_twisted(rt, alloc, end, Twist::Plain)?;
        let given = given(alloc, &sent, end, Twist::Plain)?;
        assert!(rt; is_lost(&run, &sent, &given), "{place} {run:?}");
    }
    Ok(())
}

#[test]
fn a_stream_that_ends_in_its_first_eighth_is_told(rt: HostRuntime) -> Result<(), Fail> {
    check(&rt, rt.alloc(), 0, 92)
}

#[test]
fn a_stream_that_ends_in_its_second_eighth_is_told(rt: HostRuntime) -> Result<(), Fail> {
    check(&rt, rt.alloc(), 92, 184)
}

#[test]
fn a_stream_that_ends_in_its_third_eighth_is_told(rt: HostRuntime) -> Result<(), Fail> {
    check(&rt, rt.alloc(), 184, 276)
}

#[test]
fn a_stream_that_ends_in_its_fourth_eighth_is_told(rt: HostRuntime) -> Result<(), Fail> {
    check(&rt, rt.alloc(), 276, 368)
}

#[test]
fn a_stream_that_ends_in_its_fifth_eighth_is_told(rt: HostRuntime) -> Result<(), Fail> {
    check(&rt, rt.alloc(), 368, 460)
}

#[test]
fn a_stream_that_ends_in_its_sixth_eighth_is_told(rt: HostRuntime) -> Result<(), Fail> {
    check(&rt, rt.alloc(), 460, 552)
}

#[test]
fn a_stream_that_ends_in_its_seventh_eighth_is_told(rt: HostRuntime) -> Result<(), Fail> {
    check(&rt, rt.alloc(), 552, 644)
}

#[test]
fn a_stream_that_ends_in_its_last_eighth_is_told(rt: HostRuntime) -> Result<(), Fail> {
    check(&rt, rt.alloc(), 644, LENGTH)
}
