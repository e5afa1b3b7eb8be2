//! An unused channel, of which each call succeeds.

use crate::FramedChannel;
use cs_base::port_kind::PortKind;
use port_queue::RxPort;
use std::test::Fail;

#[test]
fn nothing_is_there_to_take(rt: HostRuntime) -> Result<(), Fail> {
    let mut channel = FramedChannel::new(rt.alloc(), 1, PortKind::Eth)?;
    assert!(rt; !channel.take()?);
    assert!(rt; channel.pop().is_none());
    Ok(())
}

#[test]
fn nothing_is_there_to_move(rt: HostRuntime) -> Result<(), Fail> {
    let mut channel = FramedChannel::new(rt.alloc(), 1, PortKind::Eth)?;
    assert!(rt; !channel.move_bytes(1)?);
    Ok(())
}
