ghost use Rattle.topology_file.specs.Seats.{IsMarked};

use cs_base::{Items, Link};

/// The links so far, and a table of the ports at their ends.
#[derive(Drop)]
pub(crate) struct Joined {
    pub(crate) links: Items<Link>,
    pub(crate) taken: Vec<bool>,
    pub(crate) ghost marked: { IsMarked links taken.items },
}
