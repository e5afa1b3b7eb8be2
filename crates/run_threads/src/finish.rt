//! What a crew leaves.
ghost use Rattle.std.specs.Prelude.{◌≡◌, map, length};
ghost use Rattle.mesh_core.specs.Left.{IsRoomFor, counts_by_port, counts_along};
ghost use Rattle.run_threads.specs.Finishing.{MayFinish, Finishes};

use crate::closing::Closing;
use crate::crew::Crew;
use crate::dealing::collect_parts;
use crate::merging::{merge_before, merge_behind};
use crate::parting::{consumers_in, open_all, producers_in};
use cs_base::WireEnd;
use cs_base::items::Items;
use device_api::{Device, Logs, Outcome};
use mesh_core::outcome::{Room, count_all, finish_all};
use mesh_core::way::Way;
use proxy_crew::Dismissed;
use slot_queue::{Consumer, Producer};
use sync_rule::Runner;

/// What runners leave, in the room for it.
fn outcome_of<V: Device>(runners: Vec<Runner<V>>, ways: &[Way], room: Room) -> Outcome
    requires { IsRoomFor (length runners.items) (length ways.now) room }
    ensures logs { result.logs.lists ≡ map (λ r. r.log) runners.items }
    ensures counts { result.counts ≡ counts_along ways.now (map counts_by_port runners.items) }
{
    let Room {
        mut logs,
        mut by_port,
        mut counts,
    } = room;
    finish_all(runners, &mut logs, &mut by_port);
    count_all(ways, by_port.as_slice(), &mut counts);
    Outcome {
        logs: Logs {
            lists: Items::from_vec(logs),
        },
        counts: Items::from_vec(counts),
    }
}

impl<'q, V: Device, O: Drop, I: Drop> Crew<'q, V, O, I> {
    /// What the components have logged so far, and how many messages were made for each channel; the two sides of each
    /// queue, in the order of the queues; and what is left of the channels that go by proxy. It takes no memory, and serves
    /// after a fault, too. It is called after `run_mesh`, or where no channel goes by proxy.
    pub fn finish(self) -> (Outcome, Vec<Producer>, Vec<Consumer>, Vec<WireEnd<O, I>>)
        requires dismissed { MayFinish self }
        ensures { Finishes self.entry result.0.logs.lists result.0.counts
            result.1.items result.2.items result.3.items }
    {
        let Crew {
            mut workers,
            dismissed,
            closing,
            ..
        } = self;
        let Closing {
            components,
            mut parts,
            mut runners,
            room,
            ways,
            mut senders,
            mut receivers,
            mut producers,
            mut consumers,
            links,
            mut all_producers,
            mut all_consumers,
        } = closing;
        let Dismissed { ends, near, far } = dismissed;
        collect_parts(workers.as_mut_slice(), components, &mut parts);
        open_all(
            parts,
            &mut runners,
            senders.as_mut_slice(),
            receivers.as_mut_slice(),
        );
        producers_in(senders, &mut producers);
        consumers_in(receivers, &mut consumers);
        let outcome = outcome_of(runners, ways.as_slice(), room);
        merge_behind(links.as_slice(), producers, far, &mut all_producers);
        merge_before(links.as_slice(), consumers, near, &mut all_consumers);
        (outcome, all_producers, all_consumers, ends)
    }
}
