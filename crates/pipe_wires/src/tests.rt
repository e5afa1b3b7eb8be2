//! That pipes may go to threads, and a pipe with a plan.
use crate::ring::Ring;
use crate::{PipeDialer, PipeIn, PipeOut, PipePlan};
use cs_base::items::Items;
use cs_base::no_memory::{Failed, NoMemory};
use cs_base::{DialBad, Dialer, Got, Queue, Sent, WireIn, WireOut};
use std::alloc::Global;
use std::sync::Mutex;
use std::test::Fail;

/// That threads may be handed a value of this type.
fn is_sent<T: Send>() {}

/// That threads may share a value of this type.
fn is_shared<T: Sync>() {}

#[test]
fn pipes_may_go_to_threads(_rt: HostRuntime) {
    is_sent::<PipeOut>();
    is_sent::<PipeIn>();
    is_sent::<PipeDialer>();
    is_shared::<Mutex<Ring>>();
}

fn one<T: Drop>(alloc: Global, x: T) -> Result<Items<T>, NoMemory> {
    let mut items = Items::new(alloc);
    items.push(x)?;
    Ok(items)
}

#[test]
fn a_pipe_does_what_is_planned(rt: HostRuntime) -> Result<(), Fail> {
    let alloc = rt.alloc();
    let mut plans = Queue::new(alloc);
    plans.push(PipePlan {
        piece: 2,
        pauses: true,
        failed_sends: one(alloc, 1)?,
        failed_receipts: one(alloc, 2)?,
        changed: Some(3),
        end: Some(5),
    })?;
    let mut dialer = PipeDialer::new(alloc, plans, one(alloc, 7)?);
    assert!(rt; dialer.dial(alloc, 7).err() == Some(DialBad::Failed));
    let (mut out, mut wire) = dialer.dial(alloc, 4)?;
    assert!(rt; out.send(b"abcdefg") == Ok(Sent::Took(7)));
    assert!(rt; out.send(b"h") == Err(Failed));
    let mut buffer = [0; 8];
    for (got, bytes) in [
        (Ok(Got::Took(2)), b"ab"),
        (Ok(Got::NotYet), b"ab"),
        (Err(Failed), b"ab"),
        (Ok(Got::Took(2)), b"ce"),
        (Ok(Got::NotYet), b"ce"),
        (Ok(Got::Took(1)), b"ee"),
        (Ok(Got::End), b"ee"),
        (Ok(Got::End), b"ee"),
    ] {
        assert!(rt; wire.recv(&mut buffer) == got);
        assert!(rt; buffer.as_slice().starts_with(bytes));
    }
    assert_eq!(rt; (out.faults(), wire.faults(), wire.idles()), (1, 1, 2));
    Ok(())
}
