ghost use Rattle.std.specs.Prelude.{◌≡◌, [], IfSome};
ghost use Rattle.proxy_members.specs.Inward.{InFits};

use crate::faults::fault_of;
use cs_base::items::Octets;
use cs_base::port_kind::PortKind;
use cs_base::wires::WireIn;
use slot_queue::{Producer, TxEnd};
use std::alloc::Global;
use tcp_proxy::ProxyIn;
use worker_rounds::{Member, MeshBad};

/// The receiving end of a channel that goes over a byte stream, on a worker. It pushes messages into the channel's far
/// queue.
#[derive(Drop)]
pub struct InMember<'q, I> {
    pub(crate) channel: u32,
    pub(crate) proxy: ProxyIn<I>,
    pub(crate) far: TxEnd<'q>,
}

impl<'q, I: WireIn> InMember<'q, I> {
    /// The end of the channel with this number, to a port of this kind, over a wire that has given nothing, at a queue into
    /// which nothing was put.
    pub fn new(
        alloc: Global,
        channel: u32,
        kind: PortKind,
        wire: I,
        far: TxEnd<'q>,
    ) -> InMember<'q, I>
        requires fresh { IfSome (I.seen wire).given (λ bytes. bytes ≡ []) }
        requires unused { far.seat.sent ≡ [] }
        requires kind { far.seat.kind ≡ kind }
        ensures channel { result.channel ≡ channel }
        ensures wire { result.proxy.wire ≡ wire }
        ensures far { result.far ≡ far.entry }
        ensures kept { result.proxy.kept ≡ [] }
        ensures fits { InFits I.seen result }
    {
        InMember {
            channel,
            proxy: ProxyIn::new(alloc, wire, kind),
            far,
        }
    }
}

impl<'q, I> InMember<'q, I> {
    /// The number of its channel.
    pub fn channel(&self) -> u32
        ensures { result ≡ self.now.channel }
    {
        self.channel
    }

    /// The bytes kept: all that the wire gave.
    pub fn kept(&self) -> &[u8]
        ensures { result.now ≡ self.now.proxy.kept }
    {
        self.proxy.kept()
    }

    /// The wire, the bytes kept, and the side of the queue. Takes no memory.
    pub fn finish(self) -> (I, Octets, Producer)
        ensures wire { result.0 ≡ self.entry.proxy.wire }
        ensures kept { result.1 ≡ self.entry.proxy.kept }
        ensures seat { result.2 ≡ self.entry.far.seat }
    {
        let InMember { proxy, far, .. } = self;
        let TxEnd { seat, .. } = far;
        let (wire, kept) = proxy.finish();
        (wire, kept, seat)
    }
}

impl<'q, I: WireIn> Member for InMember<'q, I> {
    ghost use Rattle.proxy_members.specs.Inward.{InFits, InDid, InFailed};
    ghost use Rattle.proxy_members.specs.InLaws.{in_keeps};

    ghost fits = { InFits I.seen };

    ghost does = { InDid I.seen };

    ghost fails = { InFailed I.seen };

    ghost ended = { λ _. Unit {0} };

    ghost turns = { λ member. member.proxy.turns };

    ghost still = { λ member. member.proxy.still };

    fn turn(&mut self, _alloc: Global) -> Result<(), MeshBad> {
        match self.proxy.turn(&mut self.far) {
            Ok(_) => Ok(()),
            Err(bad) => Err(fault_of(self.channel, bad)),
        }
    }

    fn still(&self) -> u32 {
        self.proxy.still()
    }

    fn ended(&self) -> bool {
        true
    }

    ghost keeps = { λ old new did fit. in_keeps I.seen old new did fit };

    ghost counts = { λ old new did. did.turns };
}
