//! Wires that give little at a time.
use super::frames::{Streams, whole_streams};
use super::{FILE, LOG, Outside, Run, TWO_WORKERS, local, pair, run_pair};
use cs_base::Octets;
use pipe_wires::PipePlan;
use std::alloc::Global;
use std::test::Fail;

/// The most bytes that a receipt gives, and whether none come after each.
type Piece = (usize, bool);

/// Those of the two channels.
const PIECES: [(Piece, Piece); 6] = [
    ((1, false), (1, false)),
    ((1, true), (1, true)),
    ((1, true), (67, false)),
    ((69, true), (1, false)),
    ((2, true), (3, true)),
    ((67, true), (68, true)),
];

fn pipe(alloc: Global, piece: Piece) -> PipePlan {
    let mut plan = PipePlan::plain(alloc);
    (plan.piece, plan.pauses) = piece;
    plan
}

/// What `serial` writes of the pair.
fn serial(alloc: Global) -> Result<Octets, Fail> {
    let outside = Outside::of_text(alloc, pair(alloc)?.as_str())?;
    Ok(local(alloc, &["serial", FILE, "--stats"], outside)?.out)
}

/// It wrote this, and its channels carried all of their streams.
fn is_whole(run: &Run, written: &[u8], sent: &Streams) -> bool {
    run.status == 0
        && run.err.is_empty()
        && run.out.as_slice() == written
        && run.rests == 4
        && run.leaves(sent, sent)
}

#[test]
fn pieces_carry_the_serial_run(rt: HostRuntime) -> Result<(), Fail> {
    let alloc = rt.alloc();
    let serial = serial(alloc)?;
    assert!(rt; serial.as_slice().starts_with(LOG.as_bytes()));
    let sent = whole_streams(alloc)?;
    for (first, second) in &PIECES {
        for workers in &["--workers=1", TWO_WORKERS, "--workers=8"] {
            let (first, second) = (pipe(alloc, *first), pipe(alloc, *second));
            let run = run_pair(&rt, alloc, workers, first, second)?;
            assert!(rt; is_whole(&run, serial.as_slice(), &sent), "{run:?}");
        }
    }
    Ok(())
}
