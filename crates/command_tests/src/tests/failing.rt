//! Outputs and error streams that take little at once, or fail.
ghost use Rattle.std.specs.Prelude.{◌≤◌};

use super::{Answer, FILE, FOUR_LINES, TWO_BEACONS, answer_of, sink};
use std::alloc::Global;
use std::test::Fail;

/// The four lines into an output that takes so many bytes at once and fails at some writes.
fn written(alloc: Global, most: usize, failing: &[u64]) -> Result<Answer, Fail>
    requires { 1 ≤ most }
{
    let topology = format!(in alloc; "end = 2600{TWO_BEACONS}")?;
    let mut out = sink(alloc, most, failing)?;
    let mut err = sink(alloc, 65_536, &[])?;
    answer_of(
        alloc,
        &["model", FILE],
        topology.as_bytes(),
        &mut out,
        &mut err,
    )
}

/// An output, and what it has in the end.
#[derive(Clone, Copy)]
struct Row {
    most: usize,
    failing: &'static [u64],
    status: u8,
    out: &'static str,
}

const ROWS: [Row; 3] = [
    Row {
        most: 0,
        failing: &[],
        status: 0,
        out: FOUR_LINES,
    },
    Row {
        most: 9,
        failing: &[0],
        status: 9,
        out: "",
    },
    Row {
        most: 9,
        failing: &[1],
        status: 9,
        out: "1000 a tx ",
    },
];

#[test]
fn an_output_has_the_beginning(rt: HostRuntime) -> Result<(), Fail> {
    for row in &ROWS {
        let answer = written(rt.alloc(), row.most.saturating_add(1), row.failing)?;
        assert_eq!(rt; answer.status, row.status);
        assert_eq!(rt; answer.out.as_slice(), row.out.as_bytes());
    }
    Ok(())
}

#[test]
fn a_failing_error_stream_leaves_the_status(rt: HostRuntime) -> Result<(), Fail> {
    let alloc = rt.alloc();
    let mut out = sink(alloc, 10, &[])?;
    let mut err = sink(alloc, 100, &[0])?;
    let mute = answer_of(alloc, &["model"], b"", &mut out, &mut err)?;
    assert_eq!(rt; mute.status, 2);
    assert!(rt; mute.err.is_empty());
    Ok(())
}
