//! Lines and their steps.
use crate::{Step, read_step};
use std::test::Fail;

/// A line, and the step that it spells.
#[derive(Clone, Copy)]
struct Row {
    line: &'static str,
    step: Option<Step>,
}

const ROWS: [Row; 18] = [
    Row {
        line: "event 0",
        step: Some(Step::Event(0)),
    },
    Row {
        line: "send 4294967295",
        step: Some(Step::Send(4_294_967_295)),
    },
    Row {
        line: "poll 10",
        step: Some(Step::Poll(10)),
    },
    Row {
        line: "take 1",
        step: Some(Step::Take(1)),
    },
    Row {
        line: "move 2 18446744073709551615",
        step: Some(Step::Move(2, 18_446_744_073_709_551_615)),
    },
    Row {
        line: "put 3",
        step: Some(Step::Put(3)),
    },
    Row {
        line: "",
        step: None,
    },
    Row {
        line: "step 0",
        step: None,
    },
    Row {
        line: "event",
        step: None,
    },
    Row {
        line: "event  0",
        step: None,
    },
    Row {
        line: " event 0",
        step: None,
    },
    Row {
        line: "event 0 ",
        step: None,
    },
    Row {
        line: "event 0\r",
        step: None,
    },
    Row {
        line: "send 00",
        step: None,
    },
    Row {
        line: "send +1",
        step: None,
    },
    Row {
        line: "send 4294967296",
        step: None,
    },
    Row {
        line: "move 1",
        step: None,
    },
    Row {
        line: "move 1 18446744073709551616",
        step: None,
    },
];

#[test]
fn lines_have_their_steps(rt: HostRuntime) -> Result<(), Fail> {
    for row in &ROWS {
        assert_eq!(rt; read_step(row.line.as_bytes()), row.step, "{}", row.line);
    }
    Ok(())
}
