//! The ports that components are set up with.
ghost use Rattle.std.specs.Prelude.{◌≡◌, ◌≤◌, ◌++◌, replicate, length, take, map, IfOk, OnOk};
ghost use Rattle.topology_file.specs.Ports.{ports_of, kinds_of};

use crate::component::Component;
use crate::config::Config;
use cs_base::{Items, NoMemory, PortKind};
use std::alloc::Global;

fn push_ports(ports: &mut Items<PortKind>, count: u32, kind: PortKind) -> Result<(), NoMemory>
    ensures { OnOk result (ports.new ≡ ports.old ++ replicate count kind) }
{
    for _port in 0..count {
        ports.push(kind)?;
    }
    Ok(())
}

/// The kinds of a component's ports.
pub(crate) fn ports_of(alloc: Global, config: &Config) -> Result<Items<PortKind>, NoMemory>
    ensures { IfOk result (λ ports. ports ≡ ports_of config.now) }
{
    let mut ports = Items::new(alloc);
    match config {
        Config::Beacon(_) => {
            ports.push(PortKind::Eth)?;
            Ok(ports)
        }
        Config::Switch(config) => {
            push_ports(&mut ports, config.ports, PortKind::Eth)?;
            Ok(ports)
        }
        Config::Memory(_) => {
            ports.push(PortKind::MemDev)?;
            Ok(ports)
        }
        Config::Host(config) => {
            push_ports(&mut ports, config.pcie, PortKind::PcieHost)?;
            push_ports(&mut ports, config.mem, PortKind::MemHost)?;
            Ok(ports)
        }
        Config::Nic(_) => {
            ports.push(PortKind::PcieDev)?;
            ports.push(PortKind::Eth)?;
            Ok(ports)
        }
    }
}

/// The kinds of the ports of each component, in order.
pub fn kinds_of(alloc: Global, components: &[Component]) -> Result<Items<Items<PortKind>>, NoMemory>
    ensures { IfOk result (λ kinds. kinds ≡ kinds_of components.now) }
{
    let mut kinds = Items::new(alloc);
    for component in components {
        let ports = ports_of(alloc, &component.config)?;
        kinds.push(ports)?;
    }
    Ok(kinds)
}
