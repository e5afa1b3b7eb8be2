ghost use Rattle.std.specs.Prelude.{◌≡◌, ◌-◌, [], length, IfSome};
ghost use Rattle.proxy_members.specs.Outward.{OutFits};

use crate::faults::fault_of;
use cs_base::items::Octets;
use cs_base::wires::WireOut;
use slot_queue::{Consumer, RxEnd};
use std::alloc::Global;
use tcp_proxy::ProxyOut;
use worker_rounds::{Member, MeshBad};

/// The sending end of a channel that goes over a byte stream, on a worker. It takes messages out of the channel's near
/// queue.
#[derive(Drop)]
pub struct OutMember<'q, O> {
    pub(crate) channel: u32,
    pub(crate) proxy: ProxyOut<O>,
    pub(crate) near: RxEnd<'q>,
}

impl<'q, O: WireOut> OutMember<'q, O> {
    /// The end of the channel with this number, over a wire that has taken nothing, at a queue out of which nothing was
    /// taken.
    pub fn new(alloc: Global, channel: u32, wire: O, near: RxEnd<'q>) -> OutMember<'q, O>
        requires fresh { IfSome (O.seen wire).taken (λ bytes. bytes ≡ []) }
        requires unused { near.seat.received ≡ [] }
        ensures channel { result.channel ≡ channel }
        ensures wire { result.proxy.wire ≡ wire }
        ensures near { result.near ≡ near.entry }
        ensures kept { result.proxy.kept ≡ [] }
        ensures fits { OutFits O.seen result }
    {
        OutMember {
            channel,
            proxy: ProxyOut::new(alloc, wire),
            near,
        }
    }
}

impl<'q, O> OutMember<'q, O> {
    /// The number of its channel.
    pub fn channel(&self) -> u32
        ensures { result ≡ self.now.channel }
    {
        self.channel
    }

    /// The bytes kept: the frames of all that was taken out of the near queue.
    pub fn kept(&self) -> &[u8]
        ensures { result.now ≡ self.now.proxy.kept }
    {
        self.proxy.kept()
    }

    /// How many of the kept bytes the wire has not taken.
    pub fn waiting(&self) -> u64
        ensures { result ≡ length self.now.proxy.kept - self.now.proxy.gone }
    {
        self.proxy.waiting()
    }

    /// The wire, the bytes kept, and the side of the queue. Takes no memory.
    pub fn finish(self) -> (O, Octets, Consumer)
        ensures wire { result.0 ≡ self.entry.proxy.wire }
        ensures kept { result.1 ≡ self.entry.proxy.kept }
        ensures seat { result.2 ≡ self.entry.near.seat }
    {
        let OutMember { proxy, near, .. } = self;
        let RxEnd { seat, .. } = near;
        let (wire, kept) = proxy.finish();
        (wire, kept, seat)
    }
}

impl<'q, O: WireOut> Member for OutMember<'q, O> {
    ghost use Rattle.proxy_members.specs.Outward.{OutFits, OutDid, OutFailed};
    ghost use Rattle.proxy_members.specs.OutLaws.{out_keeps};

    ghost fits = { OutFits O.seen };

    ghost does = { OutDid O.seen };

    ghost fails = { OutFailed O.seen };

    ghost ended = { λ _. Unit {0} };

    ghost turns = { λ member. member.proxy.turns };

    ghost still = { λ member. member.proxy.still };

    fn turn(&mut self, _alloc: Global) -> Result<(), MeshBad> {
        match self.proxy.turn(&mut self.near) {
            Ok(_) => Ok(()),
            Err(bad) => Err(fault_of(self.channel, bad)),
        }
    }

    fn still(&self) -> u32 {
        self.proxy.still()
    }

    fn ended(&self) -> bool {
        true
    }

    ghost keeps = { λ old new did fit. out_keeps O.seen old new did fit };

    ghost counts = { λ old new did. did.turns };
}
