//! Whether a host may stand as it does: what is tested of parts before they are a host again.

ghost use Rattle.std.specs.Prelude.{◌≡◌, ◌↔◌, IsTrue};
ghost use Rattle.device_api.specs.Behaviour.{IsNotPast};
ghost use Rattle.host_sim.specs.Machine.{due_of};
ghost use Rattle.host_sim.specs.Sound.{IsUnended, port_at, port_asked, AllFits, IsWhole, StandsAt};

use crate::console::LONGEST;
use crate::host::Host;
use crate::state::HostState;
use cs_base::time::Time;
use ram_map::{Map, Place};
use rv32_core::Pending;

fn is_unended(kept: &[u8]) -> bool
    ensures { IsTrue result ↔ IsUnended kept.now }
{
    kept.len() < LONGEST && kept.iter().all(|byte| *byte != b'\n')
}

/// The port of the device at a place.
fn port_at(place: Place) -> Option<u32>
    ensures { result ≡ port_at place }
{
    match place {
        Place::Bar { port, .. } => Some(port),
        Place::Window { port, .. } => Some(port),
        _ => None,
    }
}

/// The port of the device whose BAR or window an access goes to.
fn port_asked(map: &Map, pending: Pending) -> Option<u32>
    ensures { result ≡ port_asked map.now pending }
{
    match pending {
        Pending::Nothing => None,
        Pending::Load { addr, .. } => port_at(map.place(addr)),
        Pending::Store { addr, .. } => port_at(map.place(addr)),
    }
}

impl Host {
    /// Whether RAM has its size, there is a level for each PCIe port, the external line fits the levels, and the console
    /// keeps the beginning of one line.
    fn is_whole(&self) -> bool
        ensures { IsTrue result ↔ IsWhole self.now }
    {
        self.ram.len() == self.map.ram as usize
            && self.levels.len() == self.map.pcie as usize
            && self.core.is_external_high() == self.levels.is_any_high()
            && is_unended(self.kept.as_slice())
    }

    /// Whether what the host waits for fits the rest of it.
    fn fits(&self) -> bool
        ensures { IsTrue result ↔ AllFits self.now }
    {
        let pending = self.core.pending();
        match self.phase {
            HostState::Due(_) => pending == Pending::Nothing,
            HostState::Access { port, id } => {
                port_asked(&self.map, pending) == Some(port) && id < self.next_id
            }
            HostState::Asleep => pending == Pending::Nothing && !self.core.wakes(),
            HostState::Halted => pending == Pending::Nothing && self.kept.is_empty(),
        }
    }

    /// Whether the host is not due before a time.
    fn is_not_past(&self, at: Time) -> bool
        ensures { IsTrue result ↔ IsNotPast at (due_of self.now.phase) }
    {
        match self.phase.due() {
            Some(due) => at.picoseconds() <= due.picoseconds(),
            None => true,
        }
    }

    /// Whether a host may stand so before all events at a time.
    pub(crate) fn stands_at(&self, at: Time) -> bool
        ensures { IsTrue result ↔ StandsAt at self.now }
    {
        self.is_whole() && self.fits() && self.is_not_past(at)
    }
}
