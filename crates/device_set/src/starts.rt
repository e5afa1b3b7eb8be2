//! The devices of a topology at their start.
ghost use Rattle.std.specs.Prelude.{◌≡◌, ◌↔◌, ℕ, All, IfOk, None, Some, Err, true};
ghost use Rattle.device_set.specs.AnyKind.{IsSettledDevice};
ghost use Rattle.device_set.specs.Images.{fits, too_long_from};
ghost use Rattle.device_set.specs.Starts.{start_of, starts_of, too_long, AreStarted};
ghost use Rattle.device_set.specs.declared.start_bad.StartBad.TheVariants.{ImageTooLong};

use crate::any_device::AnyDevice;
use crate::images::{first_too_long, images_after, next_image};
use crate::start_bad::StartBad;
use cs_base::{NoMemory, Octets};
use device_api::Beacon;
use host_sim::Host;
use mem_sim::Memory;
use nic_8254x::Nic;
use std::alloc::Global;
use switch_sim::Switch;
use topology_file::{Component, Config, Topology};

/// The device of a configuration at its start.
fn start_one(alloc: Global, config: &Config, image: &[u8]) -> Result<AnyDevice, NoMemory>
    requires { fits config.now image.now ≡ true }
    ensures started { IfOk result (λ device. device ≡ start_of config.now image.now) }
    ensures at_start { IfOk result (λ device. IsSettledDevice device 0) }
{
    match config {
        Config::Beacon(config) => {
            let beacon = Beacon::start(alloc, config)?;
            Ok(AnyDevice::Beacon(beacon))
        }
        Config::Switch(config) => {
            let switch = Switch::start(alloc, config)?;
            Ok(AnyDevice::Switch(switch))
        }
        Config::Memory(config) => {
            let memory = Memory::start(alloc, config)?;
            Ok(AnyDevice::Memory(memory))
        }
        Config::Host(config) => {
            let host = Host::start(alloc, config, image)?;
            Ok(AnyDevice::Host(host))
        }
        Config::Nic(config) => {
            let nic = Nic::start(alloc, config)?;
            Ok(AnyDevice::Nic(nic))
        }
    }
}

/// The devices at their start.
fn start_all(
    alloc: Global,
    components: &[Component],
    images: &[Octets],
) -> Result<Vec<AnyDevice>, NoMemory>
    requires { too_long_from 0 components.now images.now ≡ None }
    ensures starts { IfOk result (λ devices. devices.items ≡ starts_of components.now images.now) }
    ensures at_start { IfOk result (λ devices. All (λ device. IsSettledDevice device 0) devices.items) }
{
    let mut devices = Vec::with_capacity(alloc, components.len())?;
    let mut left = images;
    for component in components {
        let device = start_one(alloc, &component.config, next_image(left))?;
        devices.push(device)?;
        left = images_after(&component.config, left);
    }
    Ok(devices)
}

/// The devices of a topology at their start, in the order of its components. `images` has the program of each host,
/// in that order. `ImageTooLong` names the first host whose program is longer than its RAM.
pub fn start(
    alloc: Global,
    topology: &Topology,
    images: Vec<Octets>,
) -> Result<Vec<AnyDevice>, StartBad>
    ensures started { IfOk result (λ devices. AreStarted topology.now images.items devices.items) }
    ensures refused { (component : ℕ) → (result ≡ Err (ImageTooLong component))
        ↔ (too_long topology.now images.items ≡ Some component) }
{
    let components = topology.components.as_slice();
    if let Some(component) = first_too_long(components, images.as_slice()) {
        return Err(StartBad::ImageTooLong { component });
    }
    Ok(start_all(alloc, components, images.as_slice())?)
}
