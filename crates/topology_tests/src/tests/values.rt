//! What is read of a document.
use super::*;
use cs_base::{Link, Time, Via};
use std::test::Fail;

#[test]
fn links_with_values(rt: HostRuntime) -> Result<(), Fail> {
    let text = text(rt.alloc(), &ALL_KINDS)?;
    let topology = read(rt.alloc(), text.as_bytes())?;
    let link = Link {
        a: 2,
        a_port: 0,
        b: 0,
        b_port: 1,
        latency: Time(9),
        interval: Time(3),
        slots: 2,
        via: Via::Proxy,
    };
    assert_eq!(rt;
        topology.wiring.links.as_slice().get(1).copied(),
        Some(link)
    );
    Ok(())
}
