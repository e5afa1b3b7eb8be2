//! Messages through a slot queue.
ghost use Rattle.std.specs.Prelude.{◌≡◌, ◌≤◌, [], IsTrue};
ghost use Rattle.slot_queue.specs.Rising.{IsRising};

use cs_base::no_memory::NoMemory;
use cs_base::port_kind::PortKind;
use cs_base::time::Time;
use sb_intro::expected;
use sb_message::{Body, Msg};
use slot_queue::{Consumer, Producer, SlotQueue};
use std::alloc::Global;
use std::sync::Wait;
use std::thread;
use std::thread::Threads;

// Opens the stream with an introduction, and takes it out.
fn open(queue: &SlotQueue, producer: &mut Producer, consumer: &mut Consumer) -> bool
    requires { (producer.old.queue ≡ queue.now.name) × (producer.old.sent ≡ []) ×
        (consumer.old.queue ≡ queue.now.name) }
    ensures names { (producer.new.queue ≡ queue.now.name) × (consumer.new.queue ≡ queue.now.name) }
    ensures rising { IsTrue result → IsRising producer.new.kind producer.new.sent 1 }
{
    let intro = expected(PortKind::Eth, Time(500), Time(500));
    let m = Msg {
        at: Time(0),
        body: Body::Intro(intro),
    };
    let sent = match queue.push(producer, m) {
        Ok(()) => true,
        Err(_) => false,
    };
    take(queue, consumer);
    sent
}

// Sends a null message, if there is room.
fn offer(queue: &SlotQueue, end: &mut Producer) -> bool
    requires { (end.old.queue ≡ queue.now.name) × IsRising end.old.kind end.old.sent 1 }
    ensures { (end.new.queue ≡ queue.now.name) × IsRising end.new.kind end.new.sent 1 }
{
    let m = Msg {
        at: Time(1),
        body: Body::Sync,
    };
    match queue.push(end, m) {
        Ok(()) => true,
        Err(_) => false,
    }
}

// Receives a message, if there is one, and gives its timestamp, or 0.
fn take(queue: &SlotQueue, end: &mut Consumer) -> u64
    requires { end.old.queue ≡ queue.now.name }
    ensures { end.new.queue ≡ queue.now.name }
{
    match queue.pop(end) {
        Some(m) => m.at.picoseconds(),
        None => 0,
    }
}

// Passes messages on one thread, and says how many came out.
fn pass(queue: &SlotQueue, producer: &mut Producer, consumer: &mut Consumer, count: u32) -> u64
    requires { (producer.old.queue ≡ queue.now.name) × (consumer.old.queue ≡ queue.now.name) ×
        IsRising producer.old.kind producer.old.sent 1 }
{
    let mut passed = 0u64;
    for _ in 0..count {
        offer(queue, producer);
        passed = passed.wrapping_add(take(queue, consumer));
    }
    passed
}

/// Each message is sent and then received.
pub fn queue_through(alloc: Global, slots: u32, count: u32) -> Result<u64, NoMemory>
    requires { (1 ≤ slots) × (slots ≤ 1024) }
{
    let (queue, mut producer, mut consumer) = SlotQueue::new(alloc, slots, PortKind::Eth)?;
    if !open(&queue, &mut producer, &mut consumer) {
        return Ok(0);
    }
    Ok(pass(&queue, &mut producer, &mut consumer, count))
}

// Sends all messages.
fn produce(rt: &impl Wait, queue: &SlotQueue, end: Producer, count: u32)
    requires { (end.queue ≡ queue.now.name) × IsRising end.kind end.sent 1 }
{
    let mut end = end;
    let mut sent = 0;
    for _ in rt.forever() {
        if sent >= count {
            return;
        }
        if offer(queue, &mut end) {
            sent += 1;
        } else {
            thread::yield_now();
        }
    }
}

// Receives all messages, and says how many there were.
fn consume(rt: &impl Wait, queue: &SlotQueue, end: Consumer, count: u32) -> u64
    requires { end.queue ≡ queue.now.name }
{
    let mut end = end;
    let mut received = 0u64;
    for _ in rt.forever() {
        if received >= u64::from(count) {
            return received;
        }
        match take(queue, &mut end) {
            0 => thread::yield_now(),
            _ => received = received.saturating_add(1),
        }
    }
    unreachable!()
}

// One thread sends and another receives.
fn across<R: Threads + Wait + Sync>(
    rt: &R,
    queue: &SlotQueue,
    producer: Producer,
    consumer: Consumer,
    count: u32,
) -> u64
    requires { (producer.queue ≡ queue.now.name) × (consumer.queue ≡ queue.now.name) ×
        IsRising producer.kind producer.sent 1 }
{
    let (_, received) = thread::join(
        rt,
        move ||
            requires { (producer.queue ≡ queue.now.name) × IsRising producer.kind producer.sent 1 }
        { produce(rt, queue, producer, count) },
        move || -> u64
            requires { consumer.queue ≡ queue.now.name }
        { consume(rt, queue, consumer, count) },
    );
    received
}

/// One thread sends all messages, and another receives them.
pub fn queue_between<R: Threads + Wait + Sync>(
    rt: &R,
    alloc: Global,
    slots: u32,
    count: u32,
) -> Result<u64, NoMemory>
    requires { (1 ≤ slots) × (slots ≤ 1024) }
{
    let (queue, mut producer, mut consumer) = SlotQueue::new(alloc, slots, PortKind::Eth)?;
    if !open(&queue, &mut producer, &mut consumer) {
        return Ok(0);
    }
    Ok(across(rt, &queue, producer, consumer, count))
}
