ghost use Rattle.std.specs.Prelude.{◌≡◌, ◌+◌, ◌-◌, ◌%◌, ◌^◌, [], length, IfSome, IfOk, MatchResult};
ghost use Rattle.tcp_proxy.specs.Sending.{IsFitOut, IsToldOut, Sends, SendCause, TurnedOut};
ghost use Rattle.tcp_proxy.specs.Turns.{still_after};

use crate::hop::{Hop, ProxyBad, hop_of, still_after};
use crate::taking::take_all;
use cs_base::items::Octets;
use cs_base::no_memory::Failed;
use cs_base::wires::{Sent, WireOut};
use port_queue::RxPort;
use std::alloc::Global;
use std::marker::Model;

/// The sending end of a channel that goes over a byte stream: it takes messages out of a queue, keeps each as a frame,
/// and hands the kept bytes to a wire, each once. After `NoMemory` it is spent.
#[derive(Drop)]
pub struct ProxyOut<O> {
    wire: O,
    kept: Vec<u8>,
    gone: usize,
    turns: u64,
    still: u32,
}

impl<O> Model for ProxyOut<O> {
    ghost use Rattle.std.specs.Prelude.{◌≤◌, length};
    ghost use Rattle.tcp_proxy.specs.Sending.{Outgoing};

    ghost Value = { Outgoing O };

    ghost view = { λ p. record {
      wire = p.wire;
      kept = p.kept.items;
      gone = p.gone;
      turns = p.turns;
      still = p.still;
    } };

    ghost invariant = { λ p. p.gone ≤ length p.kept.items };
}

impl<O: WireOut> ProxyOut<O> {
    /// A sending end that has popped nothing, over a wire that has taken nothing.
    pub fn new(alloc: Global, wire: O) -> ProxyOut<O>
        requires { IfSome (O.seen wire).taken (λ bytes. bytes ≡ []) }
        ensures wire { result.wire ≡ wire }
        ensures kept { result.kept ≡ [] }
        ensures gone { result.gone ≡ 0 }
        ensures told { IsToldOut O.seen result }
        ensures turns { result.turns ≡ 0 }
        ensures still { result.still ≡ 0 }
    {
        ProxyOut {
            wire,
            kept: Vec::new(alloc),
            gone: 0,
            turns: 0,
            still: 0,
        }
    }

    /// Pops what is there, 1,024 messages at most, keeps it, and hands the wire once all that it has not taken yet. It is
    /// lost only where a send failed.
    pub fn turn<R: RxPort>(&mut self, near: &mut R) -> Result<Hop, ProxyBad>
        requires { IsFitOut R.kind R.stands self.old.kept near.old }
        ensures turned { TurnedOut O.seen R.kind R.stands R.pops R.empties self.old self.new
            near.old near.new result }
        ensures told { IsToldOut O.seen self.old → IsToldOut O.seen self.new }
        ensures turns { self.new.turns ≡ (self.old.turns + 1) % 2 ^ 64 }
        ensures still { IfOk result (λ hop. self.new.still ≡ still_after hop self.old.still) }
    {
        self.turns = self.turns.wrapping_add(1);
        let taken = take_all(&mut self.kept, near)?;
        let sent = self.send()?;
        let hop = hop_of(taken, sent);
        self.still = still_after(hop, self.still);
        Ok(hop)
    }

    // Hands the wire all that it has not taken yet, and says how much it took.
    fn send(&mut self) -> Result<usize, Failed>
        ensures sends { MatchResult result (λ n. Sends O.seen self.old self.new n)
            (λ _. Sends O.seen self.old self.new 0) }
        ensures cause { SendCause O.seen self.old self.new result }
        ensures turns { self.new.turns ≡ self.old.turns }
        ensures still { self.new.still ≡ self.old.still }
    {
        let rest = &self.kept.as_slice()[self.gone..];
        if rest.is_empty() {
            return Ok(0);
        }
        match self.wire.send(rest)? {
            Sent::Took(count) => {
                self.gone += count;
                Ok(count)
            }
            Sent::NotYet => Ok(0),
        }
    }
}

impl<O> ProxyOut<O> {
    /// The bytes kept: the frames of all that was popped.
    pub fn kept(&self) -> &[u8]
        ensures { result.now ≡ self.now.kept }
    {
        self.kept.as_slice()
    }

    /// How many of the kept bytes the wire has not taken.
    pub fn waiting(&self) -> u64
        ensures { result ≡ length self.now.kept - self.now.gone }
    {
        (self.kept.len() - self.gone) as u64
    }

    /// The number of its turns, modulo 2^64.
    pub fn turns(&self) -> u64
        ensures { result ≡ self.now.turns }
    {
        self.turns
    }

    /// How many of its latest turns in a row moved nothing, 64 at most.
    pub fn still(&self) -> u32
        ensures { result ≡ self.now.still }
    {
        self.still
    }

    /// The wire, and the bytes kept. Takes no memory.
    pub fn finish(self) -> (O, Octets)
        ensures wire { result.0 ≡ self.wire }
        ensures kept { result.1 ≡ self.kept }
    {
        let ProxyOut { wire, kept, .. } = self;
        (wire, Octets::from_vec(kept))
    }
}
