//! Two channels of which each is at fault.
use super::frames::whole_streams;
use super::twists::Twist::{Changes, Ends, Plain};
use super::twists::{Twist, given, run_twisted};
use std::test::Fail;

/// What the pipes of channel 0 and of channel 1 do, and what is said of the least channel that differs.
const DIFFERENCES: [(Twist, Twist, &str); 4] = [
    (Changes(360), Plain, "cosim: link differs 0 360\n"),
    (Plain, Changes(120), "cosim: link differs 1 120\n"),
    (Changes(360), Changes(120), "cosim: link differs 0 360\n"),
    (Changes(120), Changes(121), "cosim: link differs 0 120\n"),
];

#[test]
fn the_least_channel_that_differs_is_told(rt: HostRuntime) -> Result<(), Fail> {
    let alloc = rt.alloc();
    let sent = whole_streams(alloc)?;
    for (first, second, line) in &DIFFERENCES {
        let run = run_twisted(&rt, alloc, *first, *second)?;
        let given = given(alloc, &sent, *first, *second)?;
        assert!(rt; run.breaks(8, line, &sent, &given), "{run:?}");
    }
    Ok(())
}

const LOST_0: (u8, &str) = (6, "cosim: link lost 0\n");

const LOST_1: (u8, &str) = (6, "cosim: link lost 1\n");

const BAD_0: (u8, &str) = (7, "cosim: bad peer 0 68 message\n");

const BAD_1: (u8, &str) = (7, "cosim: bad peer 1 68 message\n");

/// What the pipes of channel 0 and of channel 1 do, and the two answers of which one is given.
const BOTH: [(Twist, Twist, (u8, &str), (u8, &str)); 5] = [
    (Ends(0), Ends(0), LOST_0, LOST_1),
    (Ends(100), Ends(30), LOST_0, LOST_1),
    (Changes(132), Changes(132), BAD_0, BAD_1),
    (Changes(132), Ends(100), BAD_0, LOST_1),
    (Changes(360), Ends(100), LOST_1, LOST_1),
];

#[test]
fn of_two_faults_one_is_told(rt: HostRuntime) -> Result<(), Fail> {
    let alloc = rt.alloc();
    let sent = whole_streams(alloc)?;
    for (first, second, one, other) in &BOTH {
        let run = run_twisted(&rt, alloc, *first, *second)?;
        let given = given(alloc, &sent, *first, *second)?;
        let told = run.breaks(one.0, one.1, &sent, &given)
            || run.breaks(other.0, other.1, &sent, &given);
        assert!(rt; told, "{run:?}");
    }
    Ok(())
}
