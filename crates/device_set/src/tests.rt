//! That the devices of a topology are started, and which programs are too long.
use crate::{AnyDevice, StartBad, start};
use cs_base::{NoMemory, Octets};
use device_api::Device;
use std::alloc::Global;
use std::test::Fail;
use topology_file::{Topology, read};

/// That threads may be handed a value of this type.
fn is_sent<T: Send>() {}

#[test]
fn devices_may_go_to_threads(_rt: HostRuntime) {
    is_sent::<AnyDevice>();
}

const BEACON_AND_SWITCH: &str = r#"
end = 2600
[[component]]
name = "a"
kind = "beacon"
first = 1000
count = 1
from = "02:00:00:00:00:01"
[[component]]
name = "s"
kind = "switch"
ports = 1
[[link]]
a = "a"
b = "s"
latency = 500
"#;

const WITH_ADAPTER: &str = r#"
end = 2600
[[component]]
name = "s"
kind = "switch"
ports = 1
[[component]]
name = "n"
kind = "nic"
mac = "02:00:00:00:00:0a"
[[component]]
name = "h"
kind = "host"
ram = 65536
pcie = 1
image = "x"
[[link]]
a = "h"
b = "n"
latency = 500
[[link]]
a = "n"
a_port = 1
b = "s"
latency = 500
"#;

const TWO_HOSTS: &str = r#"
end = 2600
[[component]]
name = "h"
kind = "host"
ram = 65536
image = "x"
[[component]]
name = "i"
kind = "host"
ram = 65536
image = "y"
"#;

#[test]
fn a_beacon_and_a_switch_are_started(rt: HostRuntime) -> Result<(), Fail> {
    let topology = read(rt.alloc(), BEACON_AND_SWITCH.as_bytes())?;
    let devices = start(rt.alloc(), &topology, Vec::new(rt.alloc()))?;
    assert_eq!(rt; devices.len(), 2);
    for device in &devices {
        assert_eq!(rt; device.ports(), 1);
    }
    Ok(())
}

#[test]
fn an_adapter_is_started(rt: HostRuntime) -> Result<(), Fail> {
    let topology = read(rt.alloc(), WITH_ADAPTER.as_bytes())?;
    let devices = start(rt.alloc(), &topology, Vec::new(rt.alloc()))?;
    assert!(rt; matches!(devices.as_slice(), [_, AnyDevice::Nic(_), _]));
    Ok(())
}

/// How long the programs of two hosts with 65,536 bytes of RAM are, and whose is too long.
struct Case {
    first: usize,
    second: usize,
    too_long: Option<u32>,
}

const CASES: [Case; 5] = [
    Case {
        first: 0,
        second: 0,
        too_long: None,
    },
    Case {
        first: 65536,
        second: 65536,
        too_long: None,
    },
    Case {
        first: 65537,
        second: 0,
        too_long: Some(0),
    },
    Case {
        first: 4,
        second: 65537,
        too_long: Some(1),
    },
    Case {
        first: 65537,
        second: 65537,
        too_long: Some(0),
    },
];

fn image(alloc: Global, len: usize) -> Result<Octets, NoMemory> {
    let mut bytes = Vec::with_capacity(alloc, len)?;
    bytes.resize(len, 0)?;
    Ok(Octets::from_vec(bytes))
}

/// Whose program is told to be too long; None where the devices are started.
fn too_long(alloc: Global, topology: &Topology, case: &Case) -> Result<Option<u32>, Fail> {
    let mut images = Vec::new(alloc);
    images.push(image(alloc, case.first)?)?;
    images.push(image(alloc, case.second)?)?;
    match start(alloc, topology, images) {
        Ok(_devices) => Ok(None),
        Err(StartBad::ImageTooLong { component }) => Ok(Some(component)),
        Err(StartBad::NoMemory) => Err(Fail::from("no memory")),
    }
}

#[test]
fn a_program_fits_into_ram_or_is_refused(rt: HostRuntime) -> Result<(), Fail> {
    let topology = read(rt.alloc(), TWO_HOSTS.as_bytes())?;
    for case in &CASES {
        let told = too_long(rt.alloc(), &topology, case)?;
        assert!(rt; told == case.too_long, "{} {}", case.first, case.second);
    }
    Ok(())
}
