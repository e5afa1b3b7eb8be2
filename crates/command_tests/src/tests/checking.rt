//! Topologies written out.
use super::{TWO_BEACONS, joined, on_text};
use std::str;
use std::test::Fail;

/// A memory device and its host, after the two beacons.
const AND_MEMORY: &str = r#"
[[component]]
name = "c"
kind = "memory"
size = 16
[[component]]
name = "h"
kind = "host"
ram = 65536
mem = 1
image = "x"
[[link]]
a = "c"
b = "h"
latency = 1
"#;

#[test]
fn what_lacks_a_program_can_be_checked(rt: HostRuntime) -> Result<(), Fail> {
    let topology = joined(rt.alloc(), &["end = 2600", TWO_BEACONS, AND_MEMORY])?;
    let checked = on_text(rt.alloc(), "check", topology.as_bytes())?;
    assert_eq!(rt; checked.status, 0);
    let text = str::from_utf8(checked.out.as_slice())?;
    assert!(rt; text.contains("interval = 500"));
    assert!(rt; text.contains("slots = 64"));
    let run = on_text(rt.alloc(), "model", topology.as_bytes())?;
    run.check(&rt, 3, b"", "cosim: file x\n");
    Ok(())
}
