//! The lines of a run of two stations.
use crate::channel_lines;
use cs_base::{Link, Name, Time, Via};
use device_api::Count;
use std::test::Fail;

const LINK: Link = Link {
    a: 0,
    a_port: 0,
    b: 1,
    b_port: 0,
    latency: Time(500),
    interval: Time(500),
    slots: 64,
    via: Via::Queue,
};

const COUNTS: [Count; 2] = [Count { syncs: 6, sends: 2 }, Count { syncs: 6, sends: 0 }];

const LINES: &str = "channel 0 a b syncs 6 sends 2\nchannel 1 b a syncs 6 sends 0\n";

#[test]
fn each_channel_has_its_line(rt: HostRuntime) -> Result<(), Fail> {
    let names = [Name::new(b"a").ok_or("a")?, Name::new(b"b").ok_or("b")?];
    let text = channel_lines(rt.alloc(), &names, &[LINK], &COUNTS)?;
    assert_eq!(rt; text.as_slice(), LINES.as_bytes());
    Ok(())
}
