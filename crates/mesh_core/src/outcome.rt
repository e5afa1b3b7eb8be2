//! What a mesh leaves.
ghost use Rattle.std.specs.Prelude.{◌≡◌, ◌≤◌, [], map, length, slice_get, vec_capacity, IfOk};
ghost use Rattle.mesh_core.specs.Left.{IsRoomFor, counts_by_port, counts_along, count_at, count_or_none};

use crate::way::{Seat, Way};
use cs_base::items::Items;
use cs_base::no_memory::NoMemory;
use device_api::{Count, Device, Line};
use std::alloc::Global;
use sync_rule::Runner;

/// The room for what a mesh leaves, which is made with the mesh.
#[derive(Drop)]
pub struct Room {
    /// For the components' logs.
    pub logs: Vec<Items<Line>>,
    /// For what each component has made for each of its ports.
    pub by_port: Vec<Items<Count>>,
    /// For the counts of the channels.
    pub counts: Vec<Count>,
}

impl Room {
    /// Room for so many components and channels.
    pub fn new(alloc: Global, components: usize, channels: usize) -> Result<Room, NoMemory>
        ensures { IfOk result (IsRoomFor components channels) }
    {
        let logs = Vec::with_capacity(alloc, components)?;
        let by_port = Vec::with_capacity(alloc, components)?;
        let counts = Vec::with_capacity(alloc, channels)?;
        Ok(Room {
            logs,
            by_port,
            counts,
        })
    }
}

/// Takes what each runner leaves into lists that have room for it.
pub fn finish_all<V: Device>(
    runners: Vec<Runner<V>>,
    logs: &mut Vec<Items<Line>>,
    by_port: &mut Vec<Items<Count>>,
)
    requires no_logs { logs.old.items ≡ [] }
    requires no_counts { by_port.old.items ≡ [] }
    requires for_logs { length runners.items ≤ vec_capacity logs.old }
    requires for_counts { length runners.items ≤ vec_capacity by_port.old }
    ensures logged { logs.new.items ≡ map (λ r. r.log) runners.items }
    ensures counted { by_port.new.items ≡ map counts_by_port runners.items }
{
    let mut left = Items::from_vec(runners);
    left.reverse();
    'runners: while let Some(runner) = left.pop() {
        let (device, log, counts) = runner.finish();
        drop(device);
        logs.push_reserved(log);
        by_port.push_reserved(counts);
    }
}

/// Takes the count of each channel into a list that has room for them.
pub fn count_all(ways: &[Way], by_port: &[Items<Count>], counts: &mut Vec<Count>)
    requires none { counts.old.items ≡ [] }
    requires room { length ways.now ≤ vec_capacity counts.old }
    ensures { counts.new.items ≡ counts_along ways.now by_port.now }
{
    for way in ways {
        counts.push_reserved(count_at(by_port, way.from));
    }
}

fn count_at(by_port: &[Items<Count>], seat: Seat) -> Count
    ensures { result ≡ count_at by_port.now seat }
{
    let component = seat.component as usize;
    if component >= by_port.len() {
        return count_of(&[], 0);
    }
    count_of(by_port[component].as_slice(), seat.port as usize)
}

/// The count of a port that is there.
fn count_of(counts: &[Count], port: usize) -> Count
    ensures { result ≡ count_or_none (slice_get counts.now port) }
{
    match counts.get(port) {
        Some(count) => *count,
        None => Count { syncs: 0, sends: 0 },
    }
}
