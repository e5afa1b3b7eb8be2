//! Runs on local clocks, step by step.
use super::{FILE, TWO_BEACONS, joined, plain};
use std::test::Fail;

/// Keys of the topology and of its link, under which `serial` writes what `model` does.
const SERVED: [(&str, &str); 8] = [
    ("end = 1", ""),
    ("end = 2600", ""),
    ("end = 1000000", "slots = 1"),
    ("end = 2500", "interval = 1"),
    ("end = 2501", "interval = 500"),
    ("end = 2600", "via = \"proxy\""),
    ("end = 1000000", "via = \"proxy\"\nslots = 1"),
    ("end = 2501", "via = \"proxy\"\ninterval = 500"),
];

#[test]
fn steps_lead_to_the_global_run(rt: HostRuntime) -> Result<(), Fail> {
    for (end, key) in &SERVED {
        let topology = joined(rt.alloc(), &[*end, TWO_BEACONS, *key, "\n"])?;
        let text = topology.as_bytes();
        let global = plain(rt.alloc(), &["model", "--stats", FILE], text)?;
        let serial = plain(rt.alloc(), &["serial", "--stats", FILE], text)?;
        serial.check(&rt, 0, global.out.as_slice(), "");
    }
    Ok(())
}
