ghost use Rattle.std.specs.Prelude.{◌≡◌, ◌≤◌, ◌<◌, ◌||◌, List, length, take, is_some, OnOk};
ghost use Rattle.sb_message.specs.declared.message.Msg.{Msg};
ghost use Rattle.sb_frame.specs.Deframing.{MayFeed, Stands};
ghost use Rattle.tcp_proxy.specs.Receiving.{Asked, Deframes, Receives};

use crate::hop::{Hop, ProxyBad};
use cs_base::no_memory::{Failed, NoMemory};
use cs_base::wires::{Got, WireIn};
use sb_frame::{Deframer, FrameBad};

/// The least room that a wire is handed, in bytes.
const PIECE: usize = 65536;

/// Makes room behind the bytes that are used, which doubles it.
fn make_room(room: &mut Vec<u8>, used: usize) -> Result<(), NoMemory>
    requires { used ≤ length room.old.items }
    ensures keeps { take used room.new.items ≡ take used room.old.items }
    ensures fits { used ≤ length room.new.items }
    ensures ok { OnOk result (used < length room.new.items) }
{
    let len = room.len();
    if len - used >= PIECE {
        return Ok(());
    }
    let Some(wanted) = len.checked_add(len.max(PIECE)) else {
        return Err(NoMemory);
    };
    room.resize(wanted, 0)?;
    Ok(())
}

/// Asks the wire to fill the room behind the bytes that are used.
fn receive<I: WireIn>(wire: &mut I, room: &mut Vec<u8>, used: usize) -> Result<Got, Failed>
    requires { used < length room.old.items }
    ensures { Receives I.seen wire.old room.old.items used wire.new room.new.items result }
{
    wire.recv(&mut room[used..])
}

/// Feeds the deframer.
fn deframe(frames: &mut Deframer, piece: &[u8]) -> Result<Hop, ProxyBad>
    requires { MayFeed frames.old piece.now }
    ensures { Deframes frames.old piece.now frames.new result }
{
    match frames.feed(piece) {
        Ok(()) => Ok(Hop::Moved),
        Err(FrameBad::NoMemory) => Err(ProxyBad::NoMemory),
        Err(bad) => Err(ProxyBad::Frame(bad)),
    }
}

/// Asks the wire once, unless its stream has ended or a fault of its bytes was met. What it gives is kept first, in the
/// room behind the bytes that are used.
pub(crate) fn ask<I: WireIn>(
    wire: &mut I,
    room: &mut Vec<u8>,
    used: &mut usize,
    frames: &mut Deframer,
) -> Result<Hop, ProxyBad>
    requires fits { used.old ≤ length room.old.items }
    requires stands { (given : List Msg) × Stands frames.old (take used.old room.old.items) given }
    ensures fits { used.new ≤ length room.new.items }
    ensures asked { Asked I.seen wire.old (take used.old room.old.items) frames.old
        wire.new (take used.new room.new.items) frames.new result }
{
    if wire.ended() {
        return Err(ProxyBad::Lost);
    }
    if let Some(bad) = frames.fault() {
        return Err(ProxyBad::Frame(bad));
    }
    make_room(room, *used)?;
    match receive(wire, room, *used)? {
        Got::NotYet => Ok(Hop::Idle),
        Got::End => Err(ProxyBad::Lost),
        Got::Took(count) => {
            let start = *used;
            *used += count;
            deframe(frames, &room.as_slice()[start..*used])
        }
    }
}

/// Whether nothing more comes out of a wire: its stream has ended, or a fault of its bytes was met.
pub(crate) fn is_over<I: WireIn>(wire: &I, frames: &Deframer) -> bool
    ensures { result ≡ ((I.seen wire.now).ended || is_some frames.now.fault) }
{
    wire.ended() || frames.fault().is_some()
}
