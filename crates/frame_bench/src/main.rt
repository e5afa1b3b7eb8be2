//! Times streams of frames through a deframer, in pieces of the lengths that are given.
#![tactic(auto)]

mod feeding;
mod streams;

use feeding::deframe;
use std::time::Instant;
use std::{env, io};
use streams::{Content, stream_of};

/// Bytes that each stream has, about.
const BYTES: usize = 16 << 20;

/// Measurements of which the fastest counts.
const ROUNDS: u32 = 5;

/// One line: the megabytes a second, by the fastest of some measurements.
fn report(rt: &HostRuntime, content: Content, stream: &[u8], piece: usize) -> io::Result<()> {
    let mut best = u64::MAX;
    let mut passed = None;
    for _ in 0..ROUNDS {
        let began = Instant::now(rt)?;
        passed = deframe(rt.alloc(), stream, piece).ok();
        let took = u64::try_from(began.elapsed(rt)?.as_nanos()).unwrap_or(u64::MAX);
        best = best.min(took);
    }
    let bytes = stream.len() as u64;
    let rate = bytes.saturating_mul(1000).checked_div(best).unwrap_or(0);
    let name = content.name();
    match passed {
        Some(passed) => println!(rt;
            "{name}: {passed} messages, {bytes} bytes in pieces of {piece}, {rate} megabytes a second"
        ),
        None => println!(rt; "{name}: no memory"),
    }
}

fn main(rt: HostRuntime) -> io::Result<()> {
    for word in env::args(&rt)?.skip(1) {
        let Ok(piece) = word.as_str().parse::<usize>() else {
            continue;
        };
        for content in [Content::Nulls, Content::Shortest, Content::Longest] {
            let Ok(stream) = stream_of(rt.alloc(), content, BYTES) else {
                continue;
            };
            report(&rt, content, stream.as_slice(), piece)?;
        }
    }
    Ok(())
}

#[cfg(test)]
mod tests;
