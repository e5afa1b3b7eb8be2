//! Carriers that were just made, of which each call succeeds.

use crate::Carrier;
use cs_base::port_kind::{PortKind, Via};
use port_queue::RxPort;
use std::test::Fail;

#[test]
fn nothing_goes_on_where_nothing_was_sent(rt: HostRuntime) -> Result<(), Fail> {
    for via in [Via::Queue, Via::Proxy] {
        let mut carrier = Carrier::new(rt.alloc(), via, PortKind::Eth, 1)?;
        assert!(rt; !carrier.take()?);
        assert!(rt; carrier.pop().is_none());
    }
    Ok(())
}
