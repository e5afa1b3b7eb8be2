//! Room for what a crew leaves.
ghost use Rattle.std.specs.Prelude.{◌≡◌, ◌≤◌, length, sum_by, IfOk};
ghost use Rattle.run_threads.specs.Closing.{HasRoomFor};
ghost use Rattle.run_threads.specs.Proxied.{queues_on};

use crate::part::Part;
use cs_base::link::Link;
use cs_base::no_memory::NoMemory;
use cs_base::port_kind::Via;
use cs_base::wiring::Wiring;
use device_api::Device;
use mesh_core::build::ways_of;
use mesh_core::outcome::Room;
use mesh_core::way::Way;
use slot_queue::{Consumer, Producer, RxEnd, TxEnd};
use std::alloc::Global;
use sync_rule::Runner;

/// The room for what a crew leaves. It is made with the crew, so that taking the crew apart needs no memory.
#[derive(Drop)]
pub(crate) struct Closing<'q, V> {
    /// How many components there are.
    pub(crate) components: usize,
    /// For their parts, and for the runners of these.
    pub(crate) parts: Vec<Part<'q, V>>,
    pub(crate) runners: Vec<Runner<V>>,
    /// For their logs and the counts of the channels.
    pub(crate) room: Room,
    /// Where the channels lead, by their numbers.
    pub(crate) ways: Vec<Way>,
    /// A slot by the number of each channel for either end of it.
    pub(crate) senders: Vec<Option<TxEnd<'q>>>,
    pub(crate) receivers: Vec<Option<RxEnd<'q>>>,
    /// For the sides of their queues that the components have, in the order of the channels.
    pub(crate) producers: Vec<Producer>,
    pub(crate) consumers: Vec<Consumer>,
    /// How the channels go, and room for the sides of all queues, in the order of the queues.
    pub(crate) links: Vec<Link>,
    pub(crate) all_producers: Vec<Producer>,
    pub(crate) all_consumers: Vec<Consumer>,
}

/// So many slots with nothing in them.
fn vacant<X: Drop>(alloc: Global, count: usize) -> Result<Vec<Option<X>>, NoMemory>
    ensures { IfOk result (λ slots. length slots.items ≡ count) }
{
    let mut slots = Vec::new(alloc);
    for _slot in 0..count {
        slots.push(None)?;
    }
    Ok(slots)
}

/// How many queues the two channels of a link have together.
fn queue_count(link: Link) -> usize
    ensures { result ≡ queues_on link }
{
    match link.via {
        Via::Queue => 2,
        Via::Proxy => 4,
    }
}

/// How many queues the channels of these links have.
fn count_queues(links: &[Link]) -> usize
    requires { length links.now ≤ 1024 }
    ensures { result ≡ sum_by queues_on links.now }
{
    let mut count = 0;
    for link in links {
        count += queue_count(*link);
    }
    count
}

impl<'q, V: Device> Closing<'q, V> {
    /// The room for the components of a wiring and their channels.
    pub(crate) fn new(alloc: Global, wiring: &Wiring) -> Result<Closing<'q, V>, NoMemory>
        ensures { IfOk result (HasRoomFor (length wiring.now.kinds) wiring.now.links) }
    {
        let components = wiring.kinds.len();
        let links = wiring.links.as_slice();
        let ways = ways_of(alloc, links)?;
        let channels = ways.len();
        let queues = count_queues(links);
        Ok(Closing {
            components,
            parts: Vec::with_capacity(alloc, components)?,
            runners: Vec::with_capacity(alloc, components)?,
            room: Room::new(alloc, components, channels)?,
            ways,
            senders: vacant(alloc, channels)?,
            receivers: vacant(alloc, channels)?,
            producers: Vec::with_capacity(alloc, channels)?,
            consumers: Vec::with_capacity(alloc, channels)?,
            links: Vec::from_slice(alloc, links)?,
            all_producers: Vec::with_capacity(alloc, queues)?,
            all_consumers: Vec::with_capacity(alloc, queues)?,
        })
    }
}
