//! Wires and dialers in memory, and that they may go to threads.
use super::items;
use cs_base::{
    DialBad, Dialer, Gate, Got, ListDialer, ListIn, ListOut, Octets, OpenGate, PeerReason, Queue,
    Sent, WireIn, WireOut, WirePlan,
};
use std::test::Fail;

/// That threads may be handed a value of this type.
fn is_sent<T: Send>() {}

/// That threads may share a value of this type.
fn is_shared<T: Sync>() {}

#[test]
fn wires_may_go_to_threads(_rt: HostRuntime) {
    is_sent::<ListOut>();
    is_sent::<ListIn>();
    is_sent::<ListDialer>();
    is_shared::<OpenGate>();
    OpenGate.pass(0);
}

#[test]
fn reasons_are_named(rt: HostRuntime) {
    assert_eq!(rt; PeerReason::Length.text(), b"length".as_slice());
    assert_eq!(rt; PeerReason::Intro.text(), b"intro".as_slice());
}

#[test]
fn wires_move_stated_pieces(rt: HostRuntime) -> Result<(), Fail> {
    let alloc = rt.alloc();
    let mut plans = Queue::new(alloc);
    plans.push(WirePlan {
        takes: items(alloc, &[2, 0, 9])?,
        bytes: Octets::from_slice(alloc, b"xyz")?,
        gives: items(alloc, &[1, 0, 2])?,
        ends: true,
    })?;
    let mut dialer = ListDialer::new(alloc, plans);
    let (mut out, mut wire) = dialer.dial(alloc, 4)?;
    assert!(rt; dialer.dial(alloc, 5).err() == Some(DialBad::Failed));
    for sent in [Sent::Took(2), Sent::NotYet, Sent::Took(3), Sent::NotYet] {
        assert!(rt; out.send(b"abc")? == sent);
    }
    assert_eq!(rt; out.taken(), b"ababc".as_slice());
    let mut buffer = [0; 3];
    for got in [Got::Took(1), Got::NotYet, Got::Took(2), Got::End, Got::End] {
        assert!(rt; wire.recv(&mut buffer)? == got);
    }
    assert_eq!(rt; buffer.as_slice(), b"yz\0".as_slice());
    Ok(())
}
