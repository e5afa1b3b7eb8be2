ghost use Rattle.std.specs.Prelude.{◌≡◌, ◌≤◌, ◌<◌, ◌^◌, [], length, map, All, IfOk, OnOk};
ghost use Rattle.global_model.specs.Runs.{HasLogsOf, HasCountsOf};
ghost use Rattle.global_model.specs.RunOn.{GoesOn, MayRunOn, RunsOn, CountsOn};
ghost use Rattle.global_model.specs.Tallied.{CountsUntil};
ghost use Rattle.global_model.specs.UnderWay.{fresh, AreDuesNoted, MayGoOn, RunsUntil};

use crate::inboxes::Inboxes;
use crate::routes::Routes;
use crate::run_on::{Stood, run_on};
use crate::soonest::late;
use crate::step::step;
use crate::tallies::Tallies;
use cs_base::items::Items;
use cs_base::no_memory::NoMemory;
use cs_base::time::Time;
use cs_base::wiring::Wiring;
use device_api::{Component, Count, Device, Effects, Logs, Outcome};
use moment_tree::Agenda;
use std::alloc;

/// A run of devices that are joined by a wiring, which has come to some time: all moments before it have been
/// processed, and no other. Events are processed by time; at one time by component; and for one component first
/// the messages, by port and then in the order of sending, and then the device's own due time.
#[derive(Drop)]
pub struct Global<V> {
    time: Time,
    components: Vec<Component<V>>,
    routes: Routes,
    inboxes: Inboxes,
    agenda: Agenda,
    tallies: Tallies,
    done: Effects,
}

impl<V: Device> Global<V> {
    ghost use Rattle.global_model.specs.Runs.{system_of, IsAt, IsRun, MayRunUntil, ComesTo, AreComponents, AreCounts, HasLogs, HasCounts};

    /// The run of devices at their start.
    pub fn start(
        alloc: alloc::Global,
        devices: Vec<V>,
        wiring: &Wiring,
    ) -> Result<Global<V>, NoMemory>
        requires matches { map V.behaviour.ports devices.items ≡ wiring.now.kinds }
        requires at_start { All (λ device. V.settled device 0) devices.items }
        ensures { IfOk result (IsAt V.behaviour V.settled (system_of wiring.now devices.items) 0) }
    {
        let kinds = wiring.kinds.as_slice();
        let routes = Routes::new(alloc, kinds, wiring.links.as_slice())?;
        let inboxes = Inboxes::new(alloc, kinds)?;
        let components = components_of(alloc, devices)?;
        let agenda = first_agenda(alloc, components.as_slice())?;
        let tallies = Tallies::new(alloc, wiring.links.as_slice())?;
        Ok(Global {
            time: Time(0),
            components,
            routes,
            inboxes,
            agenda,
            tallies,
            done: Effects::new(alloc),
        })
    }

    /// The time that the run has come to.
    pub fn time(&self) -> Time
        ensures { result ≡ self.now.time }
    {
        self.time
    }

    /// Processes all moments before a time, at most the end of the wiring. After `NoMemory` nothing is told of the
    /// run.
    pub fn advance(&mut self, alloc: alloc::Global, until: Time) -> Result<(), NoMemory>
        requires may_run { MayRunUntil V.behaviour V.settled self.old until }
        requires later { self.old.time ≤ until }
        ensures { OnOk result (ComesTo V.behaviour V.settled self.old until self.new) }
    {
        run_until(
            alloc,
            self.time,
            until,
            &mut self.components,
            &self.routes,
            &mut self.inboxes,
            &mut self.agenda,
            &mut self.tallies,
            &mut self.done,
        )?;
        self.time = until;
        Ok(())
    }

    /// The components as they are, with their logs.
    pub fn into_components(self) -> Vec<Component<V>>
        ensures { AreComponents V.behaviour V.settled self result.items }
    {
        self.components
    }

    /// What went on each channel, by the channels' numbers: link `j` has the channels `2 * j`, from its first end to
    /// its second, and `2 * j + 1` back.
    pub fn counts(&self, alloc: alloc::Global) -> Result<Items<Count>, NoMemory>
        requires { IsRun V.behaviour V.settled self.now }
        ensures { IfOk result (AreCounts V.behaviour V.settled self.now) }
    {
        self.tallies.counts_before(alloc, self.time)
    }

    /// What the components have logged, and what went on the channels.
    pub fn into_outcome(self, alloc: alloc::Global) -> Result<Outcome, NoMemory>
        requires { IsRun V.behaviour V.settled self }
        ensures logs { IfOk result (HasLogs V.behaviour V.settled self) }
        ensures counts { IfOk result (HasCounts V.behaviour V.settled self) }
    {
        let counts = self.tallies.counts_before(alloc, self.time)?;
        let logs = finish(alloc, self.components)?;
        Ok(Outcome { logs, counts })
    }
}

/// Runs devices that are joined by a wiring, from their starts to the wiring's end, and gives what they logged and how
/// many messages went on each channel.
pub fn simulate<V: Device>(
    alloc: alloc::Global,
    devices: Vec<V>,
    wiring: &Wiring,
) -> Result<Outcome, NoMemory>
    requires matches { map V.behaviour.ports devices.items ≡ wiring.now.kinds }
    requires at_start { All (λ device. V.settled device 0) devices.items }
    ensures logs { IfOk result (HasLogsOf V.behaviour devices.items wiring.now) }
    ensures counts { IfOk result (HasCountsOf V.behaviour devices.items wiring.now) }
{
    let mut run = Global::start(alloc, devices, wiring)?;
    run.advance(alloc, wiring.end)?;
    run.into_outcome(alloc)
}

/// Processes all moments from a time on that are before another.
fn run_until<V: Device>(
    alloc: alloc::Global,
    from: Time,
    until: Time,
    components: &mut Vec<Component<V>>,
    routes: &Routes,
    inboxes: &mut Inboxes,
    agenda: &mut Agenda,
    tallies: &mut Tallies,
    done: &mut Effects,
) -> Result<(), NoMemory>
    requires may_run { MayGoOn V.behaviour V.settled routes.now from until
        components.old.items inboxes.old agenda.old }
    requires later { from ≤ until }
    requires nothing_sent { done.old.sends ≡ [] }
    requires nothing_logged { done.old.lines ≡ [] }
    ensures comes { OnOk result (RunsUntil V.behaviour V.settled routes.now from until
        components.old.items inboxes.old agenda.old components.new.items inboxes.new agenda.new) }
    ensures counted { OnOk result (CountsUntil V.behaviour V.settled routes.now from until
        components.old.items inboxes.old agenda.old tallies.old tallies.new) }
    ensures all_sent { OnOk result (done.new.sends ≡ []) }
    ensures all_logged { OnOk result (done.new.lines ≡ []) }
{
    // How far the run has come: the components below `turn` have had their turn at `time`.
    let mut time = from.picoseconds();
    let mut turn = 0u32;
    'moments: while let Some(moment) = agenda.first() {
        if until <= moment.at {
            return Ok(());
        }
        let next = step(
            alloc, &moment, components, routes, inboxes, agenda, tallies, done,
        )?;
        let behind = moment.component + 1;
        let stood = go_on(
            alloc,
            behind == turn,
            moment.component,
            moment.at,
            next,
            until,
            components,
            routes,
            inboxes,
            agenda,
            tallies,
            done,
        )?;
        agenda.set(moment.component, Some(stood.next));
        time = stood.last.picoseconds();
        turn = behind;
    }
    Ok(())
}

/// Where a component stands after its moment `from`. One that had the moment before too runs on: how far it may is not
/// asked where moments go from one component to another.
#[inline(always)]
fn go_on<V: Device>(
    alloc: alloc::Global,
    had_the_moment_before: bool,
    component: u32,
    from: Time,
    first: Time,
    until: Time,
    components: &mut Vec<Component<V>>,
    routes: &Routes,
    inboxes: &mut Inboxes,
    agenda: &mut Agenda,
    tallies: &mut Tallies,
    done: &mut Effects,
) -> Result<Stood, NoMemory>
    requires stands { MayRunOn V.behaviour V.settled routes.now from until component first
        components.old.items inboxes.old agenda.old }
    requires goes_on { GoesOn V.behaviour component components.old.items inboxes.old first }
    requires before { from < until }
    requires nothing_sent { done.old.sends ≡ [] }
    requires nothing_logged { done.old.lines ≡ [] }
    ensures comes { IfOk result (RunsOn V.behaviour V.settled routes.now from until component first
        components.old.items inboxes.old agenda.old components.new.items inboxes.new agenda.new) }
    ensures counted { IfOk result (CountsOn V.behaviour V.settled routes.now from until component
        first components.old.items inboxes.old agenda.old tallies.old tallies.new) }
    ensures later { IfOk result (λ stood. from ≤ stood.last) }
    ensures in_time { IfOk result (λ stood. stood.last < until) }
    ensures short { IfOk result (λ stood. stood.next ≤ 10 ^ 15) }
    ensures all_sent { OnOk result (done.new.sends ≡ []) }
    ensures all_logged { OnOk result (done.new.lines ≡ []) }
{
    if had_the_moment_before {
        return run_on(
            alloc, component, from, first, until, components, routes, inboxes, agenda, tallies,
            done,
        );
    }
    Ok(Stood {
        last: from,
        next: first,
    })
}

/// Components that have logged nothing yet.
fn components_of<V: Device>(
    alloc: alloc::Global,
    devices: Vec<V>,
) -> Result<Vec<Component<V>>, NoMemory>
    ensures { IfOk result (λ components. components.items ≡ map fresh devices.items) }
{
    let mut components = Vec::new(alloc);
    for device in devices {
        components.push(Component {
            device,
            log: Items::new(alloc),
        })?;
    }
    Ok(components)
}

/// When devices are due by themselves.
fn first_agenda<V: Device>(
    alloc: alloc::Global,
    components: &[Component<V>],
) -> Result<Agenda, NoMemory>
    requires some { 1 ≤ length components.now }
    requires few { length components.now ≤ 64 }
    ensures noted { IfOk result (AreDuesNoted V.behaviour components.now) }
    ensures roomy { IfOk result (λ agenda. length agenda ≡ length components.now) }
{
    let mut agenda = Agenda::new(alloc, components.len())?;
    for (index, component) in components.iter().enumerate() {
        agenda.set(index as u32, Some(late(component.device.due())));
    }
    Ok(agenda)
}

/// The components' logs.
fn finish<V: Device>(alloc: alloc::Global, components: Vec<Component<V>>) -> Result<Logs, NoMemory>
    ensures { IfOk result (λ logs. logs.lists ≡ map (λ component. component.log) components.items) }
{
    let mut lists = Items::new(alloc);
    for component in components {
        let Component { device, log } = component;
        drop(device);
        lists.push(log)?;
    }
    Ok(Logs { lists })
}
