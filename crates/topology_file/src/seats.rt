//! The table of the ports that are in a link.
ghost use Rattle.std.specs.Prelude.{◌≡◌, ◌<◌, ◌+◌, ◌∷◌, ◌++◌, [], IfOk, OnOk, OnErr};
ghost use Rattle.topology_file.specs.Seats.{seat_of, HasSeats};
ghost use Rattle.topology_file.specs.Links.{is_free};

use crate::joined::Joined;
use cs_base::limits::{MOST_COMPONENTS, MOST_PORTS};
use cs_base::{Items, Link, NoMemory};
use std::alloc::Global;

/// One seat for each port that there can be.
const SEATS: usize = MOST_COMPONENTS * MOST_PORTS;

fn seat_of(component: u32, port: u32) -> usize
    requires component { component < 64 }
    requires port { port < 32 }
    ensures seat { result ≡ seat_of component port }
    ensures within { result < SEATS }
{
    component as usize * MOST_PORTS + port as usize
}

impl Joined {
    /// No links yet.
    pub(crate) fn new(alloc: Global) -> Result<Joined, NoMemory>
        ensures { IfOk result (λ joined. joined.links ≡ []) }
    {
        Ok(Joined {
            links: Items::new(alloc),
            taken: vec![in alloc; false; SEATS]?,
        })
    }

    /// Whether no link has an end at the port.
    pub(crate) fn is_free(&self, component: u32, port: u32) -> bool
        requires component { component < 64 }
        requires port { port < 32 }
        ensures { result ≡ is_free self.now.links (record { component = component; port = port }) }
    {
        !self.taken[seat_of(component, port)]
    }

    /// Adds a link at the end.
    pub(crate) fn push(&mut self, link: Link) -> Result<(), NoMemory>
        requires { HasSeats link }
        ensures ok { OnOk result (self.new.links ≡ self.old.links ++ link ∷ []) }
    {
        let first = seat_of(link.a, link.a_port);
        let second = seat_of(link.b, link.b_port);
        self.links.push(link)?;
        self.taken[first] = true;
        self.taken[second] = true;
        Ok(())
    }
}
