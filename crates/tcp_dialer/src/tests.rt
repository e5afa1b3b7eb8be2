//! Bytes over a connection, and that its ends may go to threads.
use crate::{TcpDialer, TcpIn, TcpOut};
use cs_base::{Dialer, Got, Sent, WireIn, WireOut};
use std::test::Fail;
use std::thread;

/// That threads may be handed a value of this type.
fn is_sent<T: Send>() {}

#[test]
fn ends_may_go_to_threads(_rt: HostRuntime) {
    is_sent::<TcpOut>();
    is_sent::<TcpIn>();
}

// What comes next, where it comes soon.
fn next(wire: &mut TcpIn, buffer: &mut [u8; 8]) -> Got {
    for _ in 0..10_000_000u32 {
        match wire.recv(buffer) {
            Ok(Got::NotYet) => thread::yield_now(),
            Ok(got) => return got,
            Err(_) => break,
        }
    }
    Got::NotYet
}

#[test]
fn bytes_go_over_a_connection(rt: HostRuntime) -> Result<(), Fail> {
    let mut dialer = TcpDialer::new(&rt);
    let (mut out, mut wire) = dialer.dial(rt.alloc(), 3)?;
    let mut buffer = [0; 8];
    assert!(rt; wire.recv(&mut buffer)? == Got::NotYet);
    assert_eq!(rt; wire.idles(), 1);
    assert!(rt; out.send(b"abc")? == Sent::Took(3));
    assert!(rt; next(&mut wire, &mut buffer) == Got::Took(3));
    assert!(rt; buffer.as_slice().starts_with(b"abc"));
    drop(out);
    assert!(rt; next(&mut wire, &mut buffer) == Got::End);
    assert!(rt; wire.ended());
    assert_eq!(rt; (dialer.faults(), wire.faults()), (0, 0));
    Ok(())
}
