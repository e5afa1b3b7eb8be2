//! Wires that give stated bytes, whatever they took, and then end.
use super::frames::{Streams, whole_streams, with_byte};
use super::{FILE, Outside, Run, TWO_WORKERS, pair, run_over};
use cs_base::{Items, ListDialer, Octets, Queue, WirePlan};
use std::alloc::Global;
use std::process::Abort;
use std::sync::Wait;
use std::test::Fail;
use std::thread::Threads;

/// The place of a byte of channel 0 and what it is set to, and the status and the line without its first word.
type Row = (usize, u8, u8, &'static str);

/// Lengths that can't be, or that the next frames make no message of, and a byte of the second message.
const LENGTHS: [Row; 13] = [
    (0, 63, 7, "bad peer 0 0 length"),
    (0, 65, 7, "bad peer 0 0 message"),
    (1, 1, 7, "bad peer 0 0 message"),
    (69, 1, 7, "bad peer 0 68 message"),
    (132, 1, 7, "bad peer 0 68 message"),
    (137, 1, 7, "bad peer 0 136 message"),
    (205, 1, 7, "bad peer 0 204 message"),
    (273, 1, 7, "bad peer 0 272 message"),
    (401, 1, 7, "bad peer 0 400 message"),
    (469, 1, 6, "link lost 0"),
    (537, 1, 6, "link lost 0"),
    (664, 65, 6, "link lost 0"),
    (665, 1, 6, "link lost 0"),
];

/// Introductions of another version, kind, latency, interval, length of the BAR, time, owner and type.
const INTRODUCTIONS: [Row; 20] = [
    (4, 0, 7, "bad peer 0 0 message"),
    (4, 2, 7, "bad peer 0 0 message"),
    (7, 1, 7, "bad peer 0 0 message"),
    (8, 1, 7, "bad peer 0 0 intro"),
    (8, 2, 7, "bad peer 0 0 intro"),
    (8, 3, 7, "bad peer 0 0 intro"),
    (8, 4, 7, "bad peer 0 0 intro"),
    (8, 5, 7, "bad peer 0 0 message"),
    (12, 0xf5, 7, "bad peer 0 0 intro"),
    (19, 0x80, 7, "bad peer 0 0 intro"),
    (20, 0xf3, 7, "bad peer 0 0 intro"),
    (27, 0x80, 7, "bad peer 0 0 intro"),
    (28, 1, 7, "bad peer 0 0 intro"),
    (30, 2, 7, "bad peer 0 0 intro"),
    (36, 1, 7, "bad peer 0 0 message"),
    (52, 1, 7, "bad peer 0 0 intro"),
    (60, 1, 7, "bad peer 0 0 message"),
    (67, 0x01, 7, "bad peer 0 0 message"),
    (67, 0x80, 7, "bad peer 0 0 message"),
    (67, 0xf0, 7, "bad peer 0 0 message"),
];

/// The most bytes that a receipt gives, and how many receipts give bytes.
type Receipts = (usize, u32);

const PIECES: [Receipts; 2] = [(1, 800), (65_536, 1)];

/// A wire that takes whatever it is handed, and gives these bytes, and then its end where it has one.
fn giving(alloc: Global, bytes: &[u8], receipts: Receipts, ends: bool) -> Result<WirePlan, Fail> {
    let (mut takes, mut gives) = (Items::new(alloc), Items::new(alloc));
    for _ in 0..100u32 {
        takes.push(65_536)?;
    }
    for _ in 0..receipts.1 {
        gives.push(receipts.0)?;
    }
    Ok(WirePlan {
        takes,
        bytes: Octets::from_slice(alloc, bytes)?,
        gives,
        ends,
    })
}

/// A run of the pair in which channel 0 gives these bytes and ends, and channel 1 gives nothing.
fn run_stated<R: Threads + Wait + Sync>(
    rt: &R,
    alloc: Global,
    bytes: &[u8],
    receipts: Receipts,
) -> Result<Run, Fail> {
    let mut plans = Queue::new(alloc);
    plans.push(giving(alloc, bytes, receipts, true)?)?;
    plans.push(giving(alloc, &[], receipts, false)?)?;
    let outside = Outside::of_text(alloc, pair(alloc)?.as_str())?;
    let dialer = ListDialer::new(alloc, plans);
    let words = ["run", FILE, TWO_WORKERS, "--stats"];
    run_over(rt, alloc, &words, outside, dialer)
}

/// A run over these bytes is broken off with this status and line, in pieces and at once.
fn breaks<R: Threads + Wait + Sync + Abort>(
    rt: &R,
    alloc: Global,
    bytes: Octets,
    status: u8,
    line: &str,
) -> Result<(), Fail> {
    let line = format!(in alloc; "cosim: {line}\n")?;
    let sent = whole_streams(alloc)?;
    let given = Streams {
        first: bytes,
        second: Octets::new(alloc),
    };
    for receipts in PIECES {
        let run = run_stated(rt, alloc, given.first.as_slice(), receipts)?;
        let told = run.breaks(status, line.as_str(), &sent, &given);
        assert!(rt; told, "{line} {receipts:?} {run:?}");
    }
    Ok(())
}

/// Each byte of these rows is set in runs of its own.
fn check<R: Threads + Wait + Sync + Abort>(
    rt: &R,
    alloc: Global,
    rows: &[Row],
) -> Result<(), Fail> {
    let sent = whole_streams(alloc)?;
    for (place, byte, status, line) in rows {
        let bytes = with_byte(alloc, sent.first.as_slice(), *place, *byte)?;
        breaks(rt, alloc, bytes, *status, line)?;
    }
    Ok(())
}

#[test]
fn a_wrong_length_is_told(rt: HostRuntime) -> Result<(), Fail> {
    check(&rt, rt.alloc(), &LENGTHS)
}

#[test]
fn a_wrong_introduction_is_told(rt: HostRuntime) -> Result<(), Fail> {
    check(&rt, rt.alloc(), &INTRODUCTIONS)
}

#[test]
fn an_introduction_at_another_place_is_told(rt: HostRuntime) -> Result<(), Fail> {
    let alloc = rt.alloc();
    let sent = whole_streams(alloc)?;
    let Some((introduction, rest)) = sent.first.as_slice().split_at_checked(68) else {
        return Err("no introduction")?;
    };
    let without = Octets::from_slice(alloc, rest)?;
    breaks(&rt, alloc, without, 7, "bad peer 0 0 order")?;
    let mut twice = Octets::from_slice(alloc, introduction)?;
    twice.append(sent.first.as_slice())?;
    breaks(&rt, alloc, twice, 7, "bad peer 0 68 order")
}

#[test]
fn a_channel_that_gives_nothing_and_ends_is_told(rt: HostRuntime) -> Result<(), Fail> {
    let alloc = rt.alloc();
    breaks(&rt, alloc, Octets::new(alloc), 6, "link lost 0")
}
