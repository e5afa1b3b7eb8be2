ghost use Rattle.std.specs.Prelude.{◌≡◌, ◌≤◌, IfOk, OnErr};
ghost use Rattle.mesh_channel.specs.Carrier.{unused, unused_channel, bytes_between, kind_sent, kind_received, Pushes, Refuses, Pops, Empties, MayTake, MayMove, MayPut, Takes, Moves, Puts, Makes};
ghost use Rattle.mesh_channel.specs.Standing.{StandsSent, StandsReceived, IsCarrying};
ghost use Rattle.mesh_channel.specs.EndLaws.{push_adds, push_kind, refusal_keeps, refusal_kind, pop_adds, pop_streams, pop_kind, empty_keeps, empty_kind};

use cs_base::no_memory::NoMemory;
use cs_base::port_kind::{PortKind, Via};
use framed_channel::FramedChannel;
use port_queue::{Full, PlainQueue, RxPort, TxPort};
use sb_message::Msg;
use std::alloc::Global;

/// What carries a channel's messages from the port that sends to the one that receives, on one thread. It is both ends of
/// the channel.
#[derive(Debug, Drop)]
pub enum Carrier {
    /// A queue: the link goes by no proxy.
    Direct(PlainQueue),
    /// Two queues, and between them a byte stream: the link goes by proxies.
    Framed(FramedChannel),
}

/// A channel over a byte stream on which nothing was sent yet.
fn new_channel(alloc: Global, kind: PortKind, slots: u32) -> Result<FramedChannel, NoMemory>
    requires { (1 ≤ slots) × (slots ≤ 1024) }
    ensures { IfOk result (λ channel. channel ≡ unused_channel kind slots) }
{
    let channel = FramedChannel::new(alloc, slots, kind)?;
    Ok(channel)
}

impl Carrier {
    /// A carrier to a port of this kind, with 1 to 1,024 places in each queue, on which nothing was sent yet.
    pub fn new(alloc: Global, via: Via, kind: PortKind, slots: u32) -> Result<Carrier, NoMemory>
        requires { (1 ≤ slots) × (slots ≤ 1024) }
        ensures { IfOk result (λ carrier. carrier ≡ unused via kind slots) }
    {
        match via {
            Via::Queue => Ok(Carrier::Direct(PlainQueue::new(alloc, slots, kind)?)),
            Via::Proxy => Ok(Carrier::Framed(new_channel(alloc, kind, slots)?)),
        }
    }

    /// The next message of the near queue goes into the byte stream as a frame. False exactly where there is none, or no
    /// byte stream.
    pub fn take(&mut self) -> Result<bool, NoMemory>
        ensures ok { IfOk result (Makes (MayTake self.old) (Takes self.old self.new) self.old self.new) }
        ensures err { OnErr result (self.new ≡ self.old) }
    {
        match self {
            Carrier::Direct(_) => Ok(false),
            Carrier::Framed(channel) => channel.take(),
        }
    }

    /// How many bytes are in the byte stream; 0 where there is none.
    pub fn in_pipe(&self) -> usize
        ensures { result ≡ bytes_between self.now }
    {
        match self {
            Carrier::Direct(_) => 0,
            Carrier::Framed(channel) => channel.in_pipe(),
        }
    }

    /// So many bytes at the front of the byte stream are read. False exactly where they are none, or more than there are,
    /// or there is no byte stream. Where the bytes that were ever moved would come to 2^64, it answers as for want of
    /// memory.
    pub fn move_bytes(&mut self, n: u64) -> Result<bool, NoMemory>
        requires { IsCarrying self.old }
        ensures ok { IfOk result
            (Makes (MayMove n self.old) (Moves n self.old self.new) self.old self.new) }
        ensures err { OnErr result (self.new ≡ self.old) }
    {
        match self {
            Carrier::Direct(_) => Ok(false),
            Carrier::Framed(channel) => channel.move_bytes(n),
        }
    }

    /// The first message that was read goes into the far queue. False exactly where there is none, or no place there, or
    /// no byte stream.
    pub fn put(&mut self) -> bool
        requires { IsCarrying self.old }
        ensures { Makes (MayPut self.old) (Puts self.old self.new) self.old self.new result }
    {
        match self {
            Carrier::Direct(_) => false,
            Carrier::Framed(channel) => channel.put(),
        }
    }
}

impl TxPort for Carrier {
    ghost kind = { kind_sent };

    ghost stands = { StandsSent };

    ghost pushes = { Pushes };

    ghost refuses = { Refuses };

    ghost push_adds = { push_adds };

    ghost push_kind = { push_kind };

    ghost refusal_keeps = { refusal_keeps };

    ghost refusal_kind = { refusal_kind };

    fn push(&mut self, m: Msg) -> Result<(), Full> {
        match self {
            Carrier::Direct(queue) => queue.push(m),
            Carrier::Framed(channel) => channel.push(m),
        }
    }
}

impl RxPort for Carrier {
    ghost kind = { kind_received };

    ghost stands = { StandsReceived };

    ghost pops = { Pops };

    ghost empties = { Empties };

    ghost pop_adds = { pop_adds };

    ghost pop_streams = { pop_streams };

    ghost pop_kind = { pop_kind };

    ghost empty_keeps = { empty_keeps };

    ghost empty_kind = { empty_kind };

    fn pop(&mut self) -> Option<Msg> {
        match self {
            Carrier::Direct(queue) => queue.pop(),
            Carrier::Framed(channel) => channel.pop(),
        }
    }
}
