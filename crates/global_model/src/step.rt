ghost use Rattle.std.specs.Prelude.{◌≡◌, ◌^◌, ◌<◌, [], IfOk, OnOk};
ghost use Rattle.global_model.specs.Step.{MayStep, Steps, CountsStep};

use crate::inboxes::Inboxes;
use crate::post::post;
use crate::routes::Routes;
use crate::soonest::{late, soonest};
use crate::tallies::Tallies;
use crate::turn::turn;
use cs_base::no_memory::NoMemory;
use cs_base::time::Time;
use device_api::{Component, Device, Effects};
use moment_tree::{Agenda, Moment};
use std::alloc::Global;

/// One moment of one component. What it sends is then in the inboxes where it arrives, noted in the agenda and
/// counted. It answers when the component has something to do again.
pub fn step<V: Device>(
    alloc: Global,
    moment: &Moment,
    components: &mut Vec<Component<V>>,
    routes: &Routes,
    inboxes: &mut Inboxes,
    agenda: &mut Agenda,
    tallies: &mut Tallies,
    done: &mut Effects,
) -> Result<Time, NoMemory>
    requires in_run { moment.now.at < 10 ^ 15 }
    requires ready { MayStep V.behaviour V.settled moment.now routes.now
        components.old.items inboxes.old }
    requires nothing_sent { done.old.sends ≡ [] }
    requires nothing_logged { done.old.lines ≡ [] }
    ensures stepped { IfOk result (Steps V.behaviour V.settled moment.now routes.now
        components.old.items inboxes.old agenda.old components.new.items inboxes.new agenda.new) }
    ensures counted { OnOk result (CountsStep V.behaviour moment.now routes.now
        components.old.items inboxes.old tallies.old tallies.new) }
    ensures all_sent { OnOk result (done.new.sends ≡ []) }
    ensures all_logged { OnOk result (done.new.lines ≡ []) }
{
    let component = &mut components[moment.component as usize];
    let ports = component.device.ports();
    let due = turn(alloc, component, moment, inboxes, done)?;
    post(
        moment.component,
        moment.at,
        &mut done.sends,
        routes,
        inboxes,
        agenda,
        tallies,
    )?;
    let last = late(due);
    let next = soonest(inboxes, moment.component, ports, last);
    Ok(next)
}
