ghost use Rattle.std.specs.Prelude.{◌≡◌};
ghost use Rattle.tcp_proxy.specs.Turns.{still_after, Answers, MovesBy};

use cs_base::no_memory::{Failed, NoMemory};
use sb_frame::FrameBad;
use thiserror::Error;

/// What a turn of a proxy did.
#[derive(Clone, Copy, Debug, PartialEq, Eq)]
pub enum Hop {
    /// Bytes went over the wire, or a message went through the queue.
    Moved,
    /// Nothing moved.
    Idle,
}

/// Why a proxy can't go on.
#[derive(Clone, Copy, Debug, PartialEq, Eq, Error)]
pub enum ProxyBad {
    /// The wire failed, or its stream has ended.
    #[error("the wire is lost")]
    Lost,
    /// The first fault of the bytes that came.
    #[error("{0}")]
    Frame(FrameBad),
    /// Memory is wanting.
    #[error("no memory")]
    NoMemory,
}

impl From<NoMemory> for ProxyBad {
    ghost use Rattle.std.specs.Prelude.{◌≡◌};
    ghost use Rattle.tcp_proxy.specs.declared.hop.ProxyBad.TheVariants as bad;

    ghost from_gives = { λ _ b. b ≡ bad.NoMemory };

    fn from(_error: NoMemory) -> ProxyBad {
        ProxyBad::NoMemory
    }
}

impl From<Failed> for ProxyBad {
    ghost use Rattle.std.specs.Prelude.{◌≡◌};
    ghost use Rattle.tcp_proxy.specs.declared.hop.ProxyBad.TheVariants as bad;

    ghost from_gives = { λ _ b. b ≡ bad.Lost };

    fn from(_error: Failed) -> ProxyBad {
        ProxyBad::Lost
    }
}

/// One more turn in a row that moved nothing, 64 at most; none after one that moved something.
pub(crate) fn still_after(hop: Hop, still: u32) -> u32
    ensures { result ≡ still_after hop still }
{
    match hop {
        Hop::Moved => 0,
        Hop::Idle => { if still < 64 { still + 1 } else { 64 } }
    }
}

/// What a turn did in which so many messages and bytes moved.
pub(crate) fn hop_of(messages: usize, bytes: usize) -> Hop
    ensures { MovesBy result messages bytes }
{
    if messages == 0 && bytes == 0 {
        Hop::Idle
    } else {
        Hop::Moved
    }
}

/// What a turn answers that pushed so many messages and then asked the wire. Where messages went, the end of the stream
/// and a fault of its bytes, which stay, can wait for a later turn.
pub(crate) fn answer(
    pushed: usize,
    asked: Result<Hop, ProxyBad>,
    stays: bool,
) -> Result<Hop, ProxyBad>
    ensures { Answers pushed asked stays result }
{
    match asked {
        Err(ProxyBad::NoMemory) => Err(ProxyBad::NoMemory),
        Err(_) if pushed > 0 && stays => Ok(Hop::Moved),
        Ok(Hop::Idle) if pushed > 0 => Ok(Hop::Moved),
        asked => asked,
    }
}
