//! A stream through a deframer.
ghost use Rattle.std.specs.Prelude.{List, ℕ, ◌++◌, OnOk};
ghost use Rattle.sb_message.specs.declared.message.Msg.{Msg};
ghost use Rattle.sb_frame.specs.Deframing.{MayFeed, Stands};

use cs_base::port_kind::PortKind;
use sb_frame::{Deframer, FrameBad};
use std::alloc::Global;

// Takes all messages that wait, and says how many.
fn take_all(frames: &mut Deframer) -> u64
    ensures { (stream : List ℕ) (given : List Msg) → Stands frames.old stream given
        → (after : List Msg) × Stands frames.new stream after }
{
    let mut taken = 0u64;
    'messages: while frames.next().is_some() {
        taken = taken.wrapping_add(1);
    }
    taken
}

// Feeds a piece, and takes all messages that it brought.
fn pass(frames: &mut Deframer, piece: &[u8]) -> Result<u64, FrameBad>
    requires { MayFeed frames.old piece.now }
    ensures { (stream : List ℕ) (given : List Msg) → Stands frames.old stream given
        → OnOk result ((after : List Msg) × Stands frames.new (stream ++ piece.now) after) }
{
    frames.feed(piece)?;
    Ok(take_all(frames))
}

/// Feeds a stream in pieces of so many bytes, of one at least, and says how many messages came out of it.
pub fn deframe(alloc: Global, stream: &[u8], size: usize) -> Result<u64, FrameBad> {
    let mut frames = Deframer::new(alloc, PortKind::Eth);
    let mut taken = 0u64;
    let mut at = 0;
    'pieces: while at < stream.len() {
        let end = at + size.max(1).min(stream.len() - at);
        taken = taken.wrapping_add(pass(&mut frames, &stream[at..end])?);
        at = end;
    }
    Ok(taken)
}
