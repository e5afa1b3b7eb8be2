//! Messages through `rtrb`.

use cs_base::time::Time;
use rtrb::{Consumer, Producer, RingBuffer};
use sb_message::{Body, Msg};
use std::alloc::{AllocError, Global};
use std::sync::Wait;
use std::thread;
use std::thread::Threads;

// Sends a null message, if there is room.
fn offer(end: &mut Producer<Msg>) -> bool {
    let m = Msg {
        at: Time(1),
        body: Body::Sync,
    };
    match end.push(m) {
        Ok(()) => true,
        Err(_) => false,
    }
}

// Receives a message, if there is one, and gives its timestamp, or 0.
fn take(end: &mut Consumer<Msg>) -> u64 {
    match end.pop() {
        Ok(m) => m.at.picoseconds(),
        Err(_) => 0,
    }
}

/// Each message is sent and then received.
pub fn ring_through(alloc: Global, slots: u32, count: u32) -> Result<u64, AllocError> {
    let (mut producer, mut consumer) = RingBuffer::new(alloc, slots as usize)?;
    let mut passed = 0u64;
    for _ in 0..count {
        offer(&mut producer);
        passed = passed.wrapping_add(take(&mut consumer));
    }
    Ok(passed)
}

// Sends all messages.
fn produce(rt: &impl Wait, end: Producer<Msg>, count: u32) {
    let mut end = end;
    let mut sent = 0;
    for _ in rt.forever() {
        if sent >= count {
            return;
        }
        if offer(&mut end) {
            sent += 1;
        } else {
            thread::yield_now();
        }
    }
}

// Receives all messages, and says how many there were.
fn consume(rt: &impl Wait, end: Consumer<Msg>, count: u32) -> u64 {
    let mut end = end;
    let mut received = 0u64;
    for _ in rt.forever() {
        if received >= u64::from(count) {
            return received;
        }
        match take(&mut end) {
            0 => thread::yield_now(),
            _ => received = received.saturating_add(1),
        }
    }
    unreachable!()
}

/// One thread sends all messages, and another receives them.
pub fn ring_between<R: Threads + Wait + Sync>(
    rt: &R,
    alloc: Global,
    slots: u32,
    count: u32,
) -> Result<u64, AllocError> {
    let (producer, consumer) = RingBuffer::new(alloc, slots as usize)?;
    let (_, received) = thread::join(
        rt,
        move || { produce(rt, producer, count) },
        move || -> u64 { consume(rt, consumer, count) },
    );
    Ok(received)
}
