//! Streams of channel 0 of which one byte has its lowest bit changed.
use super::Run;
use super::frames::{Streams, whole_streams};
use super::twists::{Twist, given, run_twisted};
use std::alloc::Global;
use std::process::Abort;
use std::sync::Wait;
use std::test::Fail;
use std::thread::Threads;

/// Where a byte is changed, from one place up to another, and the answers of which one is given: the frame at a place and
/// what is wrong with it, or that the byte itself differs.
type Row = (u64, u64, &'static [&'static str]);

const DIFFERS: &str = "differs";

/// The introduction: its length, whose second byte is left out, the version, the kind, the latency, the interval and the
/// length of the BAR, fields that are zero, the timestamp, zeros and the type.
const INTRODUCTION: [Row; 9] = [
    (0, 1, &["0 message"]),
    (2, 4, &["0 length"]),
    (4, 8, &["0 message"]),
    (8, 9, &["0 intro"]),
    (9, 12, &["0 message"]),
    (12, 36, &["0 intro"]),
    (36, 52, &["0 message"]),
    (52, 54, &["0 intro"]),
    (54, 60, &["0 intro", "68 falls"]),
];

/// The rest of the introduction, and a sync at 500: length, fields, timestamp, zeros and type.
const SECOND: [Row; 7] = [
    (60, 68, &["0 message"]),
    (68, 69, &["68 message"]),
    (70, 72, &["68 length"]),
    (72, 120, &["68 message"]),
    (120, 122, &[DIFFERS]),
    (122, 128, &["136 falls", DIFFERS]),
    (128, 136, &["68 message"]),
];

/// Syncs at 1000 and at 1500.
const SYNCS: [Row; 13] = [
    (136, 137, &["136 message"]),
    (138, 140, &["136 length"]),
    (140, 188, &["136 message"]),
    (188, 190, &[DIFFERS]),
    (190, 196, &["204 falls", DIFFERS]),
    (196, 204, &["136 message"]),
    (204, 205, &["204 message"]),
    (206, 208, &["204 length"]),
    (208, 256, &["204 message"]),
    (256, 257, &["272 falls"]),
    (257, 258, &[DIFFERS]),
    (258, 264, &["272 falls", DIFFERS]),
    (264, 272, &["204 message"]),
];

/// A packet at 1500, with its bytes.
const PACKET: [Row; 8] = [
    (272, 273, &["272 message"]),
    (274, 276, &["272 length"]),
    (276, 324, &["272 message"]),
    (324, 325, &[DIFFERS]),
    (325, 326, &["272 falls"]),
    (326, 332, &["400 falls", DIFFERS]),
    (332, 340, &["272 message"]),
    (340, 400, &[DIFFERS]),
];

/// Syncs at 2000 and at 2500.
const LATER_SYNCS: [Row; 13] = [
    (400, 401, &["400 message"]),
    (402, 404, &["400 length"]),
    (404, 452, &["400 message"]),
    (452, 454, &[DIFFERS]),
    (454, 460, &["468 falls", DIFFERS]),
    (460, 468, &["400 message"]),
    (468, 469, &["468 message"]),
    (470, 472, &["468 length"]),
    (472, 520, &["468 message"]),
    (520, 521, &["536 falls"]),
    (521, 522, &[DIFFERS]),
    (522, 528, &["536 falls", DIFFERS]),
    (528, 536, &["468 message"]),
];

/// A packet at 2500, with its bytes.
const LATER_PACKET: [Row; 8] = [
    (536, 537, &["536 message"]),
    (538, 540, &["536 length"]),
    (540, 588, &["536 message"]),
    (588, 589, &[DIFFERS]),
    (589, 590, &["536 falls"]),
    (590, 596, &["664 falls", DIFFERS]),
    (596, 604, &["536 message"]),
    (604, 664, &[DIFFERS]),
];

/// The last sync, at 3000.
const LAST: [Row; 4] = [
    (666, 668, &["664 length"]),
    (668, 716, &["664 message"]),
    (716, 724, &[DIFFERS]),
    (724, 732, &["664 message"]),
];

/// Whether a run with a byte changed at a place gives this answer.
fn gives(
    alloc: Global,
    run: &Run,
    place: u64,
    answer: &str,
    sent: &Streams,
    given: &Streams,
) -> Result<bool, Fail> {
    if answer == DIFFERS {
        let line = format!(in alloc; "cosim: link differs 0 {place}\n")?;
        return Ok(run.breaks(8, line.as_str(), sent, given));
    }
    let line = format!(in alloc; "cosim: bad peer 0 {answer}\n")?;
    Ok(run.breaks(7, line.as_str(), sent, given))
}

/// Whether it gives one of them.
fn gives_one(
    alloc: Global,
    run: &Run,
    place: u64,
    answers: &[&str],
    sent: &Streams,
    given: &Streams,
) -> Result<bool, Fail> {
    for answer in answers {
        if gives(alloc, run, place, answer, sent, given)? {
            return Ok(true);
        }
    }
    Ok(false)
}

/// Each byte of these rows is changed in a run of its own.
fn check<R: Threads + Wait + Sync + Abort>(
    rt: &R,
    alloc: Global,
    rows: &[Row],
) -> Result<(), Fail> {
    let sent = whole_streams(alloc)?;
    for (first, past, answers) in rows {
        for place in *first..*past {
            let change = Twist::Changes(place);
            let run = run_twisted(rt, alloc, change, Twist::Plain)?;
            let given = given(alloc, &sent, change, Twist::Plain)?;
            let told = gives_one(alloc, &run, place, answers, &sent, &given)?;
            assert!(rt; told, "{place} {run:?}");
        }
    }
    Ok(())
}

#[test]
fn a_changed_introduction_is_told(rt: HostRuntime) -> Result<(), Fail> {
    check(&rt, rt.alloc(), &INTRODUCTION)?;
    check(&rt, rt.alloc(), &SECOND)
}

#[test]
fn a_changed_sync_is_told(rt: HostRuntime) -> Result<(), Fail> {
    check(&rt, rt.alloc(), &SYNCS)
}

#[test]
fn a_changed_packet_is_told(rt: HostRuntime) -> Result<(), Fail> {
    check(&rt, rt.alloc(), &PACKET)
}

#[test]
fn a_later_changed_sync_is_told(rt: HostRuntime) -> Result<(), Fail> {
    check(&rt, rt.alloc(), &LATER_SYNCS)?;
    check(&rt, rt.alloc(), &LAST)
}

#[test]
fn a_later_changed_packet_is_told(rt: HostRuntime) -> Result<(), Fail> {
    check(&rt, rt.alloc(), &LATER_PACKET)
}
