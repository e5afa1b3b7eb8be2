ghost use Rattle.std.specs.Prelude.{◌≡◌, ◌+◌, ◌≤◌, ◌<◌, ◌^◌, [], OnOk, IfOk, Some};
ghost use Rattle.global_model.specs.RunOn.{GoesOn, MayRunOn, RunsOn, CountsOn, HasTicked, HasLogged, OthersFrom};

use crate::inboxes::Inboxes;
use crate::post::post;
use crate::routes::Routes;
use crate::soonest::{LATEST, first_of, late, sooner, soonest};
use crate::tallies::Tallies;
use crate::turn::log_lines;
use cs_base::no_memory::NoMemory;
use cs_base::time::Time;
use device_api::{Component, Device, Effects};
use moment_tree::Agenda;
use std::alloc::Global;

/// Where a component that ran on stands.
#[derive(Clone, Copy)]
pub struct Stood {
    /// Its last moment.
    pub last: Time,
    /// When it has something to do again.
    pub next: Time,
}

/// A component whose moment `from` is over, and which has something to do again at `first`, ticks on as long as nothing
/// arrives for it and no other component's moment comes. It stops after a tick that sends. The agenda is asked once.
#[inline(never)]
pub fn run_on<V: Device>(
    alloc: Global,
    component: u32,
    from: Time,
    first: Time,
    until: Time,
    components: &mut Vec<Component<V>>,
    routes: &Routes,
    inboxes: &mut Inboxes,
    agenda: &mut Agenda,
    tallies: &mut Tallies,
    done: &mut Effects,
) -> Result<Stood, NoMemory>
    requires stands { MayRunOn V.behaviour V.settled routes.now from until component first
        components.old.items inboxes.old agenda.old }
    requires goes_on { GoesOn V.behaviour component components.old.items inboxes.old first }
    requires before { from < until }
    requires nothing_sent { done.old.sends ≡ [] }
    requires nothing_logged { done.old.lines ≡ [] }
    ensures comes { IfOk result (RunsOn V.behaviour V.settled routes.now from until component first
        components.old.items inboxes.old agenda.old components.new.items inboxes.new agenda.new) }
    ensures counted { IfOk result (CountsOn V.behaviour V.settled routes.now from until component
        first components.old.items inboxes.old agenda.old tallies.old tallies.new) }
    ensures later { IfOk result (λ stood. from ≤ stood.last) }
    ensures in_time { IfOk result (λ stood. stood.last < until) }
    ensures short { IfOk result (λ stood. stood.next ≤ 10 ^ 15) }
    ensures all_sent { OnOk result (done.new.sends ≡ []) }
    ensures all_logged { OnOk result (done.new.lines ≡ []) }
{
    let here = &mut components[component as usize];
    let ports = here.device.ports();
    let waiting = soonest(inboxes, component, ports, LATEST);
    let limit = first_of(waiting, others_from(until, component, agenda));
    let mut last = from;
    let mut next = first;
    'ticks: while next < limit {
        let due = tick_alone(alloc, here, next, done)?;
        last = next;
        if !done.sends.is_empty() {
            agenda.set(component, Some(last));
            post(
                component,
                last,
                &mut done.sends,
                routes,
                inboxes,
                agenda,
                tallies,
            )?;
            next = soonest(inboxes, component, ports, late(due));
            return Ok(Stood { last, next });
        }
        next = sooner(waiting, due);
    }
    Ok(Stood { last, next })
}

/// The first time at which another component has something to do, or `until` where that is sooner.
fn others_from(until: Time, component: u32, agenda: &Agenda) -> Time
    ensures ends { result ≤ until }
    ensures others { OthersFrom result component agenda.now }
{
    match agenda.first_but(component) {
        Some(moment) => until.min(moment.at),
        None => until,
    }
}

/// A moment of a component at which nothing arrives: its device ticks, and what it logs is logged. What it sends is
/// left in `done`. It answers when the device is due next.
#[inline(always)]
fn tick_alone<V: Device>(
    alloc: Global,
    component: &mut Component<V>,
    t: Time,
    done: &mut Effects,
) -> Result<Option<Time>, NoMemory>
    requires due_now { V.behaviour.due component.old.device ≡ Some t }
    requires in_run { t < 10 ^ 15 }
    requires settled_then { V.settled component.old.device (t + 1) }
    requires nothing_sent { done.old.sends ≡ [] }
    requires nothing_logged { done.old.lines ≡ [] }
    ensures device { OnOk result (HasTicked V.behaviour t component.old component.new) }
    ensures log { OnOk result (HasLogged V.behaviour t component.old component.new) }
    ensures sends { OnOk result (done.new.sends ≡ (V.behaviour.tick component.old.device t).sends) }
    ensures all_logged { OnOk result (done.new.lines ≡ []) }
    ensures due { IfOk result (λ due. due ≡ V.behaviour.due component.new.device) }
{
    component.device.tick(alloc, t, done)?;
    log_lines(t, &mut done.lines, &mut component.log)?;
    Ok(component.device.due())
}
