//! A channel from its near queue to its far queue, over wires in memory and over pipes.
ghost use Rattle.std.specs.Prelude.{◌≡◌, [], IfSome, OnOk};

use crate::{InMember, OutMember, first_that_differs};
use cs_base::items::{Items, Octets};
use cs_base::no_memory::NoMemory;
use cs_base::{
    Dialer, ListIn, ListOut, PeerReason, PortKind, Queue, Time, WireEnd, WireIn, WireOut,
};
use eth_proto::EthMsg;
use pipe_wires::{PipeDialer, PipeIn, PipeOut, PipePlan};
use sb_frame::frame;
use sb_intro::expected;
use sb_message::{Body, Msg};
use slot_queue::{Consumer, RxEnd, SlotQueue, TxEnd};
use std::alloc::Global;
use std::test::Fail;
use tcp_proxy::{Differ, compare};
use worker_rounds::{Member, MeshBad};

/// The places at which the frames of the stream start, and that at which it ends.
const STARTS: [usize; 5] = [0, 68, 136, 264, 332];

/// That threads may be handed a value of this type.
fn is_sent<T: Send>() {}

#[test]
fn members_may_go_to_threads(_rt: HostRuntime) {
    is_sent::<OutMember<'static, PipeOut>>();
    is_sent::<InMember<'static, PipeIn>>();
}

fn add(out: &mut Octets, at: u64, body: Body) -> Result<(), NoMemory> {
    frame(&Msg { at: Time(at), body }, out)
}

// An introduction, a null message, a packet of 60 bytes and a null message.
fn stream(alloc: Global) -> Result<Octets, Fail> {
    let mut out = Octets::new(alloc);
    let intro = expected(PortKind::Eth, Time(500), Time(500));
    add(&mut out, 0, Body::Intro(intro))?;
    add(&mut out, 500, Body::Sync)?;
    let packet = Octets::from_slice(alloc, &[0; 60])?;
    let packet = EthMsg::new(packet).ok_or("a frame")?;
    add(&mut out, 700, Body::Eth(packet))?;
    add(&mut out, 1200, Body::Sync)?;
    Ok(out)
}

// So many pieces of a size, with a pause behind each where so said.
fn pieces(alloc: Global, size: usize, pause: bool) -> Result<Items<usize>, Fail> {
    let mut sizes = Items::new(alloc);
    for _ in 0..400 {
        sizes.push(size)?;
        if pause {
            sizes.push(0)?;
        }
    }
    Ok(sizes)
}

// Turns a member so often.
fn turn<M: Member>(member: &mut M, alloc: Global, turns: u32) -> Result<(), MeshBad>
    requires { M.fits member.old }
    ensures { OnOk result (M.fits member.new) }
{
    for _ in 0..turns {
        member.turn(alloc)?;
    }
    Ok(())
}

// Turns two members so often, in turns.
fn turn_both<M: Member, N: Member>(
    first: &mut M,
    last: &mut N,
    alloc: Global,
    turns: u32,
) -> Result<(), MeshBad>
    requires first { M.fits first.old }
    requires last { N.fits last.old }
{
    for _ in 0..turns {
        first.turn(alloc)?;
        last.turn(alloc)?;
    }
    Ok(())
}

// How many messages are in a queue.
fn drain(queue: &SlotQueue, end: &mut Consumer) -> usize
    requires { end.old.queue ≡ queue.now.name }
{
    for count in 0..100usize {
        if queue.pop(end).is_none() {
            return count;
        }
    }
    100
}

// What became of a channel: its wires, the bytes kept, how many messages came, and the fault that was met.
#[derive(Drop)]
struct Carried<O, I> {
    out: O,
    wire: I,
    sent: Octets,
    got: Octets,
    put: usize,
    fault: Option<MeshBad>,
}

// Fills a queue with the stream.
fn fill(alloc: Global, near: TxEnd<'_>) -> Result<(), Fail>
    requires unused { near.seat.sent ≡ [] }
    requires kind { near.seat.kind ≡ PortKind.Eth }
{
    let source = ListIn::new(stream(alloc)?, pieces(alloc, 400, false)?, false);
    let mut source = InMember::new(alloc, 9, PortKind::Eth, source, near);
    if turn(&mut source, alloc, 4).is_err() {
        Err("no stream")?;
    }
    Ok(())
}

// Carries what is in a near queue over the wires of channel 4 to a far queue, from which nothing is taken.
fn carry_between<O: WireOut + Drop, I: WireIn + Drop>(
    alloc: Global,
    out: O,
    wire: I,
    near: RxEnd<'_>,
    far: TxEnd<'_>,
) -> Carried<O, I>
    requires out { IfSome (O.seen out).taken (λ bytes. bytes ≡ []) }
    requires wire { IfSome (I.seen wire).given (λ bytes. bytes ≡ []) }
    requires near { near.seat.received ≡ [] }
    requires far { far.seat.sent ≡ [] }
    requires kind { far.seat.kind ≡ PortKind.Eth }
{
    let mut first = OutMember::new(alloc, 4, out, near);
    let mut last = InMember::new(alloc, 4, PortKind::Eth, wire, far);
    let fault = turn_both(&mut first, &mut last, alloc, 2000).err();
    let (out, sent, _) = first.finish();
    let (wire, got, _) = last.finish();
    Carried {
        out,
        wire,
        sent,
        got,
        put: 0,
        fault,
    }
}

// Fills a near queue with the stream, carries it to a far queue, and counts what came there.
fn carry<O: WireOut + Drop, I: WireIn + Drop>(
    alloc: Global,
    out: O,
    wire: I,
) -> Result<Carried<O, I>, Fail>
    requires out { IfSome (O.seen out).taken (λ bytes. bytes ≡ []) }
    requires wire { IfSome (I.seen wire).given (λ bytes. bytes ≡ []) }
{
    let (near, producer, consumer) = SlotQueue::new(alloc, 8, PortKind::Eth)?;
    let (far, sender, mut receiver) = SlotQueue::new(alloc, 8, PortKind::Eth)?;
    fill(
        alloc,
        TxEnd {
            queue: &near,
            seat: producer,
        },
    )?;
    let taking = RxEnd {
        queue: &near,
        seat: consumer,
    };
    let putting = TxEnd {
        queue: &far,
        seat: sender,
    };
    let mut carried = carry_between(alloc, out, wire, taking, putting);
    carried.put = drain(&far, &mut receiver);
    Ok(carried)
}

// What became of a channel over a pipe with this plan.
fn carry_by(alloc: Global, plan: PipePlan) -> Result<Carried<PipeOut, PipeIn>, Fail> {
    let mut plans = Queue::new(alloc);
    plans.push(plan)?;
    let mut dialer = PipeDialer::new(alloc, plans, Items::new(alloc));
    let (out, wire) = dialer.dial(alloc, 4)?;
    carry(alloc, out, wire)
}

// How many frames of the stream are whole before a place.
fn whole_before(end: usize) -> usize {
    STARTS
        .iter()
        .filter(|start| **start > 0 && **start <= end)
        .count()
}

fn one(alloc: Global, call: u64) -> Result<Items<u64>, NoMemory> {
    let mut calls = Items::new(alloc);
    calls.push(call)?;
    Ok(calls)
}

#[test]
fn all_comes_in_any_pieces(rt: HostRuntime) -> Result<(), Fail> {
    let alloc = rt.alloc();
    let bytes = stream(alloc)?;
    for (piece, pauses) in [(1, false), (1, true), (7, true), (1000, false)] {
        let mut plan = PipePlan::plain(alloc);
        plan.piece = piece;
        plan.pauses = pauses;
        let carried = carry_by(alloc, plan)?;
        assert_eq!(rt; carried.fault, None);
        assert!(rt; carried.sent.as_slice() == bytes.as_slice());
        assert!(rt; carried.got.as_slice() == bytes.as_slice());
        assert_eq!(rt; carried.put, 4);
    }
    Ok(())
}

#[test]
fn wires_in_memory_take_and_give_all(rt: HostRuntime) -> Result<(), Fail> {
    let alloc = rt.alloc();
    let bytes = stream(alloc)?;
    for (size, pause) in [(1, false), (1, true), (1000, false)] {
        let out = ListOut::new(alloc, pieces(alloc, size, pause)?);
        let wire = ListIn::new(stream(alloc)?, pieces(alloc, size, pause)?, false);
        let carried = carry(alloc, out, wire)?;
        assert_eq!(rt; carried.fault, None);
        assert!(rt; carried.out.taken() == bytes.as_slice());
        assert!(rt; carried.got.as_slice() == bytes.as_slice());
        assert_eq!(rt; carried.put, 4);
    }
    Ok(())
}

#[test]
fn a_wire_that_ends(rt: HostRuntime) -> Result<(), Fail> {
    let alloc = rt.alloc();
    let bytes = stream(alloc)?;
    for end in 0..bytes.len() + 1 {
        let mut plan = PipePlan::plain(alloc);
        plan.end = Some(end as u64);
        let carried = carry_by(alloc, plan)?;
        assert_eq!(rt;
            carried.fault,
            Some(MeshBad::Lost { channel: 4 }),
            "at {end}"
        );
        assert!(rt; carried.wire.ended());
        assert!(rt;
            bytes.as_slice().get(..end) == Some(carried.got.as_slice()),
            "at {end}"
        );
        assert_eq!(rt; carried.put, whole_before(end), "at {end}");
    }
    Ok(())
}

#[test]
fn a_wire_that_fails(rt: HostRuntime) -> Result<(), Fail> {
    let alloc = rt.alloc();
    let bytes = stream(alloc)?;
    let lost = Some(MeshBad::Lost { channel: 4 });
    for call in 0..bytes.len() {
        let mut plan = PipePlan::plain(alloc);
        plan.piece = 1;
        plan.failed_receipts = one(alloc, call as u64)?;
        let carried = carry_by(alloc, plan)?;
        assert_eq!(rt; carried.fault, lost, "at {call}");
        assert_eq!(rt; carried.wire.faults(), 1);
        assert!(rt;
            bytes.as_slice().get(..call) == Some(carried.got.as_slice()),
            "at {call}"
        );
    }
    let mut plan = PipePlan::plain(alloc);
    plan.failed_sends = one(alloc, 0)?;
    let carried = carry_by(alloc, plan)?;
    assert_eq!(rt; carried.fault, lost);
    assert_eq!(rt; carried.out.faults(), 1);
    assert!(rt; carried.sent.as_slice() == bytes.as_slice());
    assert!(rt; carried.got.is_empty());
    Ok(())
}

// How many messages come before this fault of the peer on channel 4.
fn came_before(fault: MeshBad) -> Option<usize> {
    match fault {
        MeshBad::Peer {
            channel: 4,
            offset,
            ..
        } => {
            let place = usize::try_from(offset).ok()?;
            Some(whole_before(place))
        }
        _ => None,
    }
}

// How many messages come, without a fault, where this byte is changed. At 69 and 137 a frame then states 256 bytes more, and
// isn't whole at the end of the stream.
fn came_without_fault(place: usize) -> usize {
    match place {
        69 | 137 => whole_before(place),
        _ => 4,
    }
}

#[test]
fn a_wire_that_changes_a_byte(rt: HostRuntime) -> Result<(), Fail> {
    let alloc = rt.alloc();
    let bytes = stream(alloc)?;
    for place in 0..STARTS[3] {
        let mut plan = PipePlan::plain(alloc);
        plan.piece = 1;
        plan.changed = Some(place as u64);
        let carried = carry_by(alloc, plan)?;
        let byte = bytes.as_slice().get(place).copied();
        let differ = Differ {
            offset: place as u64,
            sent: byte,
            got: byte.unwrap_or(0) ^ 1,
        };
        let found = compare(carried.sent.as_slice(), carried.got.as_slice());
        assert_eq!(rt; found, Some(differ), "at {place}");
        let came = match carried.fault {
            None => Some(came_without_fault(place)),
            Some(fault) => came_before(fault),
        };
        assert_eq!(rt; came, Some(carried.put), "at {place}");
    }
    Ok(())
}

#[test]
fn a_reserved_byte_is_told(rt: HostRuntime) -> Result<(), Fail> {
    let alloc = rt.alloc();
    let mut plan = PipePlan::plain(alloc);
    plan.piece = 1;
    plan.pauses = true;
    plan.changed = Some(132);
    let carried = carry_by(alloc, plan)?;
    let fault = MeshBad::Peer {
        channel: 4,
        offset: 68,
        reason: PeerReason::Message,
    };
    assert_eq!(rt; carried.fault, Some(fault));
    assert_eq!(rt; carried.put, 1);
    Ok(())
}

// What is left of a channel without wires.
fn end(alloc: Global, channel: u32, sent: &[u8], got: &[u8]) -> Result<WireEnd<u8, u8>, Fail> {
    Ok(WireEnd {
        channel,
        out: 0,
        wire: 0,
        sent: Octets::from_slice(alloc, sent)?,
        got: Octets::from_slice(alloc, got)?,
    })
}

#[test]
fn the_least_channel_that_differs_is_told(rt: HostRuntime) -> Result<(), Fail> {
    let alloc = rt.alloc();
    let mut ends = Vec::new(alloc);
    assert!(rt; first_that_differs(ends.as_slice()).is_none());
    ends.push(end(alloc, 0, b"abc", b"ab")?)?;
    assert!(rt; first_that_differs(ends.as_slice()).is_none());
    ends.push(end(alloc, 5, b"ab", b"abc")?)?;
    ends.push(end(alloc, 7, b"abc", b"xbc")?)?;
    let differ = Differ {
        offset: 2,
        sent: None,
        got: b'c',
    };
    assert!(rt; first_that_differs(ends.as_slice()) == Some((5, differ)));
    Ok(())
}
