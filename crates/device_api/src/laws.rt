ghost use Rattle.device_api.specs.Reached.{KeepsItsPorts};

use crate::device::Device;

/// Whatever state a device comes to from its start, its ports are those that it had there, at most 32.
pub fn devices_keep_their_ports<V: Device>()
    ensures { KeepsItsPorts V.behaviour V.settled }
{}
