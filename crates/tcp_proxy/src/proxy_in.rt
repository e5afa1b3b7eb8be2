ghost use Rattle.std.specs.Prelude.{◌≡◌, ◌≢◌, ◌+◌, ◌<◌, ◌≤◌, ◌%◌, ◌^◌, [], List, None, Err, length, take, IfSome, IfOk, OnOk, OnErr};
ghost use Rattle.sb_message.specs.declared.message.Msg.{Msg};
ghost use Rattle.sb_frame.specs.Deframing.{Stands};
ghost use Rattle.tcp_proxy.specs.Receiving.{IsFitIn, IsToldIn, Carries, Asked, TurnedIn};
ghost use Rattle.tcp_proxy.specs.Turns.{still_after};

use crate::asking::{ask, is_over};
use crate::giving::push_all;
use crate::hop::{Hop, ProxyBad, answer, still_after};
use cs_base::items::Octets;
use cs_base::port_kind::PortKind;
use cs_base::wires::WireIn;
use port_queue::TxPort;
use sb_frame::Deframer;
use sb_message::Msg;
use std::alloc::Global;
use std::marker::Model;

/// The receiving end of a channel that goes over a byte stream: it keeps what a wire gives, takes the messages out of it,
/// and pushes them to a queue. After `NoMemory` it is spent.
#[derive(Drop)]
pub struct ProxyIn<I> {
    wire: I,
    // The bytes kept, `used` of them, and room for more behind them.
    room: Vec<u8>,
    used: usize,
    frames: Deframer,
    held: Option<Msg>,
    turns: u64,
    still: u32,
}

impl<I> Model for ProxyIn<I> {
    ghost use Rattle.std.specs.Prelude.{◌≤◌, length, take};
    ghost use Rattle.tcp_proxy.specs.Receiving.{Incoming};

    ghost Value = { Incoming I };

    ghost view = { λ p. record {
      wire = p.wire;
      kept = take p.used p.room.items;
      frames = p.frames;
      held = p.held;
      turns = p.turns;
      still = p.still;
    } };

    ghost invariant = { λ p. p.used ≤ length p.room.items };
}

impl<I: WireIn> ProxyIn<I> {
    /// A receiving end, of a channel to a port of this kind, over a wire that has given nothing.
    pub fn new(alloc: Global, wire: I, kind: PortKind) -> ProxyIn<I>
        requires { IfSome (I.seen wire).given (λ bytes. bytes ≡ []) }
        ensures wire { result.wire ≡ wire }
        ensures kept { result.kept ≡ [] }
        ensures kind { result.frames.place.kind ≡ kind }
        ensures carries { Carries result.frames result.held [] [] }
        ensures told { IsToldIn I.seen result }
        ensures turns { result.turns ≡ 0 }
        ensures still { result.still ≡ 0 }
    {
        ProxyIn {
            wire,
            room: Vec::new(alloc),
            used: 0,
            frames: Deframer::new(alloc, kind),
            held: None,
            turns: 0,
            still: 0,
        }
    }

    /// Pushes what waits, 1,024 messages at most, and then asks the wire once, but not after its end. Where it pushed a
    /// message, the end of the stream and a fault of its bytes are told by a later turn.
    pub fn turn<T: TxPort>(&mut self, far: &mut T) -> Result<Hop, ProxyBad>
        requires { IsFitIn T.kind T.stands self.old.frames self.old.held self.old.kept far.old }
        ensures turned { TurnedIn I.seen T.kind T.stands T.pushes T.refuses self.old self.new
            far.old far.new result }
        ensures told { IsToldIn I.seen self.old → IsToldIn I.seen self.new }
        ensures turns { self.new.turns ≡ (self.old.turns + 1) % 2 ^ 64 }
        ensures still { IfOk result (λ hop. self.new.still ≡ still_after hop self.old.still) }
    {
        self.turns = self.turns.wrapping_add(1);
        let pushed = push_all(&mut self.frames, &mut self.held, far);
        let asked = ask(
            &mut self.wire,
            &mut self.room,
            &mut self.used,
            &mut self.frames,
        );
        let stays = is_over(&self.wire, &self.frames);
        let hop = answer(pushed, asked, stays)?;
        self.still = still_after(hop, self.still);
        Ok(hop)
    }

    /// Whether the wire gave its end.
    pub fn at_end(&self) -> bool
        ensures { result ≡ (I.seen self.now.wire).ended }
    {
        self.wire.ended()
    }
}

impl<I> ProxyIn<I> {
    /// The bytes kept: all that the wire gave.
    pub fn kept(&self) -> &[u8]
        ensures { result.now ≡ self.now.kept }
    {
        &self.room.as_slice()[..self.used]
    }

    /// The number of its turns, modulo 2^64.
    pub fn turns(&self) -> u64
        ensures { result ≡ self.now.turns }
    {
        self.turns
    }

    /// How many of its latest turns in a row moved nothing, 64 at most.
    pub fn still(&self) -> u32
        ensures { result ≡ self.now.still }
    {
        self.still
    }

    /// The wire, and the bytes kept. Takes no memory.
    pub fn finish(self) -> (I, Octets)
        ensures wire { result.0 ≡ self.wire }
        ensures kept { result.1 ≡ self.kept }
    {
        let ProxyIn {
            wire,
            mut room,
            used,
            ..
        } = self;
        room.truncate(used);
        (wire, Octets::from_vec(room))
    }
}
