ghost use Rattle.std.specs.Prelude.{◌≡◌, ◌≤◌, length, IfOk, OnErr};
ghost use Rattle.framed_channel.specs.Channel.{Framed, IsUnused};
ghost use Rattle.framed_channel.specs.Steps.{MayTake, MayMove, MayPut, Takes, Moves, Puts, Makes, Sends, Refuses, Gives, Empties};
ghost use Rattle.framed_channel.specs.Standing.{IsCarrying, CarriesSent, CarriesReceived};
ghost use Rattle.framed_channel.specs.EndLaws.{push_adds, push_kind, refusal_keeps, refusal_kind, pop_adds, pop_streams, pop_kind, empty_keeps, empty_kind};

use crate::pipe::Pipe;
use crate::reading::read_piece;
use cs_base::no_memory::NoMemory;
use cs_base::port_kind::PortKind;
use port_queue::{Full, PlainQueue, RxPort, TxPort};
use sb_frame::Deframer;
use sb_message::Msg;
use std::alloc::Global;
use std::marker::Model;

/// A channel over a byte stream, on one thread. Its ends are a queue into which messages are pushed and one from which
/// they are popped; between them messages go as frames through a pipe, and a deframer reads the bytes that leave it.
#[derive(Debug, Drop)]
pub struct FramedChannel {
    near: PlainQueue,
    pipe: Pipe,
    frames: Deframer,
    moved: u64,
    far: PlainQueue,
    slots: u32,
}

impl Model for FramedChannel {
    ghost use Rattle.std.specs.Prelude.{◌≡◌};
    ghost use Rattle.framed_channel.specs.Channel.{Framed};

    ghost Value = { Framed };

    ghost view = { λ c. record {
      near = c.near;
      pipe = c.pipe;
      frames = c.frames;
      moved = c.moved;
      far = c.far;
    } };

    ghost invariant = { λ c. c.far.slots ≡ c.slots };
}

impl FramedChannel {
    /// A channel to a port of this kind, with 1 to 1,024 places in each of its queues, in which nothing was sent yet.
    pub fn new(alloc: Global, slots: u32, kind: PortKind) -> Result<FramedChannel, NoMemory>
        requires { (1 ≤ slots) × (slots ≤ 1024) }
        ensures { IfOk result (IsUnused kind slots) }
    {
        Ok(FramedChannel {
            near: PlainQueue::new(alloc, slots, kind)?,
            pipe: Pipe::new(alloc),
            frames: Deframer::new(alloc, kind),
            moved: 0,
            far: PlainQueue::new(alloc, slots, kind)?,
            slots,
        })
    }

    /// The next message of the near queue goes to the end of the pipe as a frame. False exactly where there is none.
    pub fn take(&mut self) -> Result<bool, NoMemory>
        ensures ok { IfOk result
            (Makes (MayTake self.old) (Takes self.old self.new) self.old self.new) }
        ensures err { OnErr result (self.new ≡ self.old) }
    {
        self.pipe.take_from(&mut self.near)
    }

    /// How many bytes are in the pipe.
    pub fn in_pipe(&self) -> usize
        ensures { result ≡ length self.now.pipe }
    {
        self.pipe.len()
    }

    /// So many bytes at the front of the pipe are read. False exactly where they are none, or more than there are. Where
    /// the bytes that were ever moved would come to 2^64, it answers as for want of memory.
    pub fn move_bytes(&mut self, n: u64) -> Result<bool, NoMemory>
        requires { IsCarrying self.old }
        ensures ok { IfOk result
            (Makes (MayMove n self.old) (Moves n self.old self.new) self.old self.new) }
        ensures err { OnErr result (self.new ≡ self.old) }
    {
        if n == 0 || n > self.pipe.len() as u64 {
            return Ok(false);
        }
        if self.moved > u64::MAX - n {
            return Err(NoMemory);
        }
        let count = n as usize;
        read_piece(&mut self.frames, self.pipe.front(count))?;
        self.pipe.advance(count);
        self.moved += n;
        Ok(true)
    }

    /// The first message that was read goes into the far queue. False exactly where there is none, or no place there.
    pub fn put(&mut self) -> bool
        requires { IsCarrying self.old }
        ensures { Makes (MayPut self.old) (Puts self.old self.new) self.old self.new result }
    {
        if self.far.len() >= self.slots as usize {
            return false;
        }
        let Some(m) = self.frames.next() else {
            return false;
        };
        if self.far.push(m).is_err() {
            unreachable!()
        }
        true
    }
}

impl TxPort for FramedChannel {
    ghost kind = { λ c. c.near.kind };

    ghost stands = { CarriesSent };

    ghost pushes = { Sends };

    ghost refuses = { Refuses };

    ghost push_adds = { push_adds };

    ghost push_kind = { push_kind };

    ghost refusal_keeps = { refusal_keeps };

    ghost refusal_kind = { refusal_kind };

    fn push(&mut self, m: Msg) -> Result<(), Full> {
        self.near.push(m)
    }
}

impl RxPort for FramedChannel {
    ghost kind = { λ c. c.far.kind };

    ghost stands = { CarriesReceived };

    ghost pops = { Gives };

    ghost empties = { Empties };

    ghost pop_adds = { pop_adds };

    ghost pop_streams = { pop_streams };

    ghost pop_kind = { pop_kind };

    ghost empty_keeps = { empty_keeps };

    ghost empty_kind = { empty_kind };

    fn pop(&mut self) -> Option<Msg> {
        self.far.pop()
    }
}
