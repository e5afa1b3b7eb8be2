//! The text that is printed.
use super::*;
use cs_base::Octets;
use std::test::Fail;

const NO_PORTS: &str = "[[component]]\nname = \"s\"\nkind = \"switch\"\nports = 0\n";

/// A switch without ports, and no link.
const SWITCH_ONLY: &str = r#"end = 2600
link = []
version = 1

[[component]]
age = 300000000000000
kind = "switch"
name = "s"
ports = 0
"#;

/// A host, an adapter, a memory device and a beacon; one of the links goes by proxy.
const KINDS: &str = r#"end = 2600
version = 1

[[component]]
cycle = 10000
hart = 0
image = "x"
kind = "host"
mem = 1
name = "h"
pcie = 1
ram = 65536

[[component]]
kind = "nic"
mac = "02:00:00:00:00:0a"
name = "n"

[[component]]
kind = "memory"
name = "m"
size = 16

[[component]]
count = 2
first = 1000
from = "02:00:00:00:00:01"
kind = "beacon"
length = 60
name = "a"
period = 1000
to = "ff:ff:ff:ff:ff:ff"

[[link]]
a = "h"
a_port = 0
b = "n"
b_port = 0
interval = 7
latency = 7
slots = 64
via = "queue"

[[link]]
a = "m"
a_port = 0
b = "h"
b_port = 1
interval = 3
latency = 9
slots = 2
via = "proxy"

[[link]]
a = "n"
a_port = 1
b = "a"
b_port = 0
interval = 5
latency = 5
slots = 64
via = "queue"
"#;

/// The text of the topology that a document spells.
fn printed(alloc: Global, document: &[u8]) -> Result<Octets, TopoBad> {
    let topology = read(alloc, document)?;
    Ok(print(alloc, &topology)?)
}

#[test]
fn links_are_an_empty_array_where_there_is_none(rt: HostRuntime) -> Result<(), Fail> {
    let document = text(rt.alloc(), &[TOP, NO_PORTS])?;
    let once = printed(rt.alloc(), document.as_bytes())?;
    assert!(rt; once.as_slice() == SWITCH_ONLY.as_bytes());
    Ok(())
}

#[test]
fn all_kinds_are_printed(rt: HostRuntime) -> Result<(), Fail> {
    let document = text(rt.alloc(), &ALL_KINDS)?;
    let once = printed(rt.alloc(), document.as_bytes())?;
    assert!(rt; once.as_slice() == KINDS.as_bytes());
    Ok(())
}
