//! Pipes that change a byte of their stream, or end too early.
use super::frames::Streams;
use super::{Run, TWO_WORKERS, run_pair};
use cs_base::Octets;
use pipe_wires::PipePlan;
use std::alloc::Global;
use std::sync::Wait;
use std::test::Fail;
use std::thread::Threads;

/// What a pipe does to its stream.
#[derive(Clone, Copy, Debug)]
pub(super) enum Twist {
    /// It gives what it took.
    Plain,
    /// It changes the lowest bit of the byte at this place.
    Changes(u64),
    /// It ends at this place.
    Ends(u64),
}

impl Twist {
    fn plan(self, alloc: Global) -> PipePlan {
        let mut plan = PipePlan::plain(alloc);
        match self {
            Twist::Plain => {}
            Twist::Changes(place) => plan.changed = Some(place),
            Twist::Ends(place) => plan.end = Some(place),
        }
        plan
    }

    /// What becomes of a byte at a place: None where the stream has ended.
    fn came(self, place: u64, byte: u8) -> Option<u8> {
        match self {
            Twist::Ends(end) if end <= place => None,
            Twist::Changes(changed) if changed == place => Some(byte ^ 1),
            _ => Some(byte),
        }
    }

    /// What the pipe gives of these bytes.
    fn given(self, alloc: Global, bytes: &[u8]) -> Result<Octets, Fail> {
        let mut given = Octets::new(alloc);
        for (place, byte) in bytes.iter().enumerate() {
            if let Some(byte) = self.came(place as u64, *byte) {
                given.push(byte)?;
            }
        }
        Ok(given)
    }
}

/// What comes of these streams over two pipes.
pub(super) fn given(
    alloc: Global,
    sent: &Streams,
    first: Twist,
    second: Twist,
) -> Result<Streams, Fail> {
    Ok(Streams {
        first: first.given(alloc, sent.first.as_slice())?,
        second: second.given(alloc, sent.second.as_slice())?,
    })
}

/// A run of the pair on two workers over such pipes.
pub(super) fn run_twisted<R: Threads + Wait + Sync>(
    rt: &R,
    alloc: Global,
    first: Twist,
    second: Twist,
) -> Result<Run, Fail> {
    run_pair(
        rt,
        alloc,
        TWO_WORKERS,
        first.plan(alloc),
        second.plan(alloc),
    )
}
