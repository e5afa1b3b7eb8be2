//! Messages through queues, on one thread and between two.
ghost use Rattle.std.specs.Prelude.{◌≡◌, ◌<◌, ◌≤◌, ◌^◌, [], true, false, IsTrue};
ghost use Rattle.port_queue.specs.Port.{IsNextSent};
ghost use Rattle.sb_message.specs.Receivable.{receivable};
ghost use Rattle.sb_message.specs.Stream.{is_intro};
ghost use Rattle.slot_queue.specs.Rising.{IsRising};

use crate::{Consumer, Producer, Rest, RxEnd, SlotQueue, TxEnd};
use access_proto::{Data, Length};
use cs_base::items::Octets;
use cs_base::port_kind::PortKind;
use cs_base::time::Time;
use eth_proto::EthMsg;
use mem_proto::MemMsg;
use pcie_proto::{Bar, DevMsg, HostMsg};
use port_queue::{Full, RxPort, TxPort};
use sb_intro::expected;
use sb_message::{Body, Msg, encode};
use std::sync::Wait;
use std::test::Fail;
use std::thread;
use std::thread::Threads;

// Opens the stream with an introduction.
fn open(queue: &SlotQueue, end: &mut Producer) -> bool
    requires { (end.old.queue ≡ queue.now.name) × (end.old.sent ≡ []) }
    ensures name { (end.new.queue ≡ queue.now.name) × (end.new.kind ≡ end.old.kind) }
    ensures rising { IsTrue result → IsRising end.new.kind end.new.sent 1 }
{
    let intro = expected(PortKind::Eth, Time(500), Time(500));
    let m = Msg {
        at: Time(0),
        body: Body::Intro(intro),
    };
    match queue.push(end, m) {
        Ok(()) => true,
        Err(_) => false,
    }
}

// Sends a null message, if there is room.
fn offer(queue: &SlotQueue, end: &mut Producer, at: u64) -> bool
    requires { (end.old.queue ≡ queue.now.name) × IsRising end.old.kind end.old.sent at }
    ensures { (end.new.queue ≡ queue.now.name) × IsRising end.new.kind end.new.sent at }
{
    let m = Msg {
        at: Time(at),
        body: Body::Sync,
    };
    match queue.push(end, m) {
        Ok(()) => true,
        Err(_) => false,
    }
}

// Sends null messages at `at` until there is no room, and says how many.
fn fill(queue: &SlotQueue, end: &mut Producer, at: u64) -> u32
    requires { (end.old.queue ≡ queue.now.name) × IsRising end.old.kind end.old.sent at }
    ensures { (end.new.queue ≡ queue.now.name) × IsRising end.new.kind end.new.sent at }
{
    for sent in 0..2000 {
        if !offer(queue, end, at) {
            return sent;
        }
    }
    2000
}

// Receives all that is there, and says how many.
fn drain(queue: &SlotQueue, end: &mut Consumer) -> u32
    requires { end.old.queue ≡ queue.now.name }
    ensures { end.new.queue ≡ queue.now.name }
{
    for received in 0..2000 {
        if queue.pop(end).is_none() {
            return received;
        }
    }
    2000
}

// All slots filled and emptied, three times, and then some messages that are left. Says whether the counts were right.
fn exercise(
    queue: &SlotQueue,
    producer: &mut Producer,
    consumer: &mut Consumer,
    slots: u32,
    more: u32,
) -> bool
    requires producer { (producer.old.queue ≡ queue.now.name) × (producer.old.sent ≡ []) }
    requires consumer { consumer.old.queue ≡ queue.now.name }
    ensures { (producer.new.queue ≡ queue.now.name) × (consumer.new.queue ≡ queue.now.name) }
{
    if !open(queue, producer) {
        return false;
    }
    let mut right = drain(queue, consumer) == 1;
    for _ in 0..3 {
        let filled = fill(queue, producer, 1);
        let drained = drain(queue, consumer);
        right = right && filled == slots && drained == slots;
    }
    for _ in 0..more {
        offer(queue, producer, 1);
    }
    right
}

// How many messages are left.
fn left_after(rt: &HostRuntime, slots: u32, more: u32) -> Result<Option<usize>, Fail>
    requires { (1 ≤ slots) × (slots ≤ 1024) }
{
    let (queue, mut producer, mut consumer) = SlotQueue::new(rt.alloc(), slots, PortKind::Eth)?;
    let room = Rest::reserve(rt.alloc(), slots)?;
    let right = exercise(&queue, &mut producer, &mut consumer, slots, more);
    let rest = queue.close(producer, consumer, room);
    let left = rest.messages().len();
    Ok(if right { Some(left) } else { None })
}

#[test]
fn filled_and_wrapped(rt: HostRuntime) -> Result<(), Fail> {
    // The slots, the messages sent last, and how many of them are left.
    for (slots, more, left) in [
        (1, 0, 0),
        (1, 1, 1),
        (3, 1, 1),
        (3, 3, 3),
        (3, 4, 3),
        (1024, 1024, 1024),
    ] {
        assert_eq!(rt; left_after(&rt, slots, more)?, Some(left));
    }
    Ok(())
}

#[test]
fn two_slots(rt: HostRuntime) -> Result<(), Fail> {
    let (queue, mut producer, mut consumer) = SlotQueue::new(rt.alloc(), 2, PortKind::Eth)?;
    let room = Rest::reserve(rt.alloc(), 2)?;
    assert!(rt; open(&queue, &mut producer));
    assert!(rt; offer(&queue, &mut producer, 5));
    assert!(rt; !offer(&queue, &mut producer, 7));
    let first = queue.pop(&mut consumer).ok_or("a message")?;
    assert!(rt; first.at == Time(0));
    assert!(rt; offer(&queue, &mut producer, 7));
    let rest = queue.close(producer, consumer, room);
    let left = rest.messages();
    assert!(rt; left.len() == 2 && left[0].at == Time(5) && left[1].at == Time(7));
    Ok(())
}

// Sends an introduction and then null messages at 1, 2 and so on.
fn produce(rt: &impl Wait, queue: &SlotQueue, end: Producer, count: u32) -> Producer
    requires { (end.queue ≡ queue.now.name) × (end.sent ≡ []) }
    ensures { result.queue ≡ queue.now.name }
{
    let mut end = end;
    if !open(queue, &mut end) {
        return end;
    }
    for k in 0..count {
        let at = u64::from(k) + 1;
        for _ in rt.forever() {
            if offer(queue, &mut end, at) {
                break;
            }
            thread::yield_now();
        }
    }
    end
}

// Receives messages, and says whether they came at 0, 1, 2 and so on.
fn consume(rt: &impl Wait, queue: &SlotQueue, end: Consumer, count: u32) -> (Consumer, bool)
    requires { end.queue ≡ queue.now.name }
    ensures { result.0.queue ≡ queue.now.name }
{
    let mut end = end;
    let mut in_order = true;
    for k in 0..count {
        for _ in rt.forever() {
            match queue.pop(&mut end) {
                Some(m) => {
                    in_order = in_order && m.at.picoseconds() == u64::from(k);
                    break;
                }
                None => thread::yield_now(),
            }
        }
    }
    (end, in_order)
}

// A producer and a consumer, each on a thread of its own.
fn between<R: Threads + Wait + Sync>(
    rt: &R,
    queue: &SlotQueue,
    producer: Producer,
    consumer: Consumer,
    count: u32,
) -> (Producer, (Consumer, bool))
    requires producer { (producer.queue ≡ queue.now.name) × (producer.sent ≡ []) }
    requires consumer { consumer.queue ≡ queue.now.name }
    requires count { count < 2 ^ 31 }
    ensures { (result.0.queue ≡ queue.now.name) × (result.1.0.queue ≡ queue.now.name) }
{
    thread::join(
        rt,
        move || -> Producer
            requires { (producer.queue ≡ queue.now.name) × (producer.sent ≡ []) }
            ensures { result.queue ≡ queue.entry.now.name }
        { produce(rt, queue, producer, count) },
        move || -> (Consumer, bool)
            requires { (consumer.queue ≡ queue.now.name) × (count < 2 ^ 31) }
            ensures { result.0.queue ≡ queue.entry.now.name }
        { consume(rt, queue, consumer, count + 1) },
    )
}

#[test]
fn two_threads(rt: HostRuntime) -> Result<(), Fail> {
    let (queue, producer, consumer) = SlotQueue::new(rt.alloc(), 3, PortKind::Eth)?;
    let room = Rest::reserve(rt.alloc(), 3)?;
    let (producer, (consumer, in_order)) = between(&rt, &queue, producer, consumer, 10_000);
    let rest = queue.close(producer, consumer, room);
    assert!(rt; in_order && rest.messages().is_empty());
    Ok(())
}

// Sends a message that is no introduction, or gives it back.
fn send(queue: &SlotQueue, end: &mut Producer, m: Msg) -> Option<Msg>
    requires name { end.old.queue ≡ queue.now.name }
    requires rising { IsRising end.old.kind end.old.sent 1 }
    requires time { 1 ≤ m.at }
    requires later { is_intro m.body ≡ false }
    requires fits { receivable end.old.kind m.body ≡ true }
{
    match queue.push(end, m) {
        Ok(()) => None,
        Err(Full(back)) => Some(back),
    }
}

// Sends a message behind an introduction: it comes back where there is one slot, and comes out where there are two.
fn passed(
    queue: &SlotQueue,
    producer: &mut Producer,
    consumer: &mut Consumer,
    m: Msg,
) -> Option<Msg>
    requires producer { (producer.old.queue ≡ queue.now.name) × (producer.old.sent ≡ []) }
    requires consumer { consumer.old.queue ≡ queue.now.name }
    requires time { 1 ≤ m.at }
    requires later { is_intro m.body ≡ false }
    requires fits { receivable producer.old.kind m.body ≡ true }
{
    if !open(queue, producer) {
        return None;
    }
    if let Some(back) = send(queue, producer, m) {
        return Some(back);
    }
    if queue.pop(consumer).is_none() {
        return None;
    }
    queue.pop(consumer)
}

// The message that comes back or out of a new queue to a port of this kind.
fn through(rt: &HostRuntime, slots: u32, kind: PortKind, m: Msg) -> Result<Msg, Fail>
    requires slots { (1 ≤ slots) × (slots ≤ 1024) }
    requires time { 1 ≤ m.at }
    requires later { is_intro m.body ≡ false }
    requires fits { receivable kind m.body ≡ true }
{
    let (queue, mut producer, mut consumer) = SlotQueue::new(rt.alloc(), slots, kind)?;
    Ok(passed(&queue, &mut producer, &mut consumer, m).ok_or("a message")?)
}

fn bytes_of(rt: &HostRuntime, m: &Msg) -> Result<Octets, Fail> {
    let mut bytes = Octets::new(rt.alloc());
    encode(m, &mut bytes)?;
    Ok(bytes)
}

// Whether a message comes back from a full queue, or out of one with room, with the bytes that it had.
fn is_kept(rt: &HostRuntime, slots: u32, kind: PortKind, body: Body) -> Result<bool, Fail>
    requires slots { (1 ≤ slots) × (slots ≤ 1024) }
    requires later { is_intro body ≡ false }
    requires fits { receivable kind body ≡ true }
{
    let m = Msg { at: Time(5), body };
    let before = bytes_of(rt, &m)?;
    let got = through(rt, slots, kind, m)?;
    let after = bytes_of(rt, &got)?;
    Ok(before.as_slice() == after.as_slice())
}

fn data(rt: &HostRuntime) -> Result<Data, Fail> {
    let mut bytes = Octets::new(rt.alloc());
    bytes.append(&[0xab, 0xcd])?;
    Ok(Data::new(bytes).ok_or("data")?)
}

fn frame(rt: &HostRuntime) -> Result<EthMsg, Fail> {
    let mut bytes = Octets::new(rt.alloc());
    bytes.append(&[0xab; 14])?;
    Ok(EthMsg::new(bytes).ok_or("a frame")?)
}

#[test]
fn messages_to_an_ethernet_port(rt: HostRuntime) -> Result<(), Fail> {
    assert!(rt; is_kept(&rt, 2, PortKind::Eth, Body::Sync)?);
    let body = Body::Eth(frame(&rt)?);
    assert!(rt; is_kept(&rt, 2, PortKind::Eth, body)?);
    let body = Body::Eth(frame(&rt)?);
    assert!(rt; is_kept(&rt, 1, PortKind::Eth, body)?);
    Ok(())
}

#[test]
fn messages_of_a_pcie_link(rt: HostRuntime) -> Result<(), Fail> {
    let bytes = data(&rt)?;
    let body = Body::Dev(DevMsg::ReadDone { id: 1, bytes });
    assert!(rt; is_kept(&rt, 2, PortKind::PcieHost, body)?);
    let bytes = data(&rt)?;
    let body = Body::Host(HostMsg::Write {
        id: 2,
        bar: Bar::first(),
        offset: 8,
        bytes,
    });
    assert!(rt; is_kept(&rt, 2, PortKind::PcieDev, body)?);
    Ok(())
}

#[test]
fn messages_of_a_memory_link(rt: HostRuntime) -> Result<(), Fail> {
    let len = Length::new(4).ok_or("a length")?;
    let body = Body::Mem(MemMsg::Read {
        id: 1,
        addr: 12,
        len,
    });
    assert!(rt; is_kept(&rt, 2, PortKind::MemDev, body)?);
    let bytes = data(&rt)?;
    let body = Body::Mem(MemMsg::ReadDone { id: 1, bytes });
    assert!(rt; is_kept(&rt, 2, PortKind::MemHost, body)?);
    Ok(())
}

fn is_sent<T: Send>() {}

fn is_shared<T: Sync>() {}

// Sends a message by one port, and receives by another.
fn relayed<T: TxPort + Send, R: RxPort + Send>(tx: &mut T, rx: &mut R, m: Msg) -> Option<Msg>
    requires { IsNextSent (T.kind tx.old) (T.stands tx.old) m }
{
    match tx.push(m) {
        Ok(()) => rx.pop(),
        Err(_) => None,
    }
}

// An introduction through the two ends of a queue as ports.
fn introduced(tx: &mut TxEnd<'_>, rx: &mut RxEnd<'_>) -> Option<Msg>
    requires { tx.old.seat.sent ≡ [] }
{
    let intro = expected(PortKind::Eth, Time(500), Time(500));
    let m = Msg {
        at: Time(0),
        body: Body::Intro(intro),
    };
    relayed(tx, rx, m)
}

#[test]
fn ends_are_ports(rt: HostRuntime) -> Result<(), Fail> {
    is_sent::<Producer>();
    is_sent::<Consumer>();
    is_shared::<SlotQueue>();
    let (queue, producer, consumer) = SlotQueue::new(rt.alloc(), 1, PortKind::Eth)?;
    let mut tx = TxEnd {
        queue: &queue,
        seat: producer,
    };
    let mut rx = RxEnd {
        queue: &queue,
        seat: consumer,
    };
    assert!(rt; rx.pop().is_none());
    let first = introduced(&mut tx, &mut rx).ok_or("a message")?;
    assert!(rt; first.at == Time(0));
    Ok(())
}
