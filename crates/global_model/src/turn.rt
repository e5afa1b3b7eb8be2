ghost use Rattle.std.specs.Prelude.{length, ◌≡◌, ◌+◌, ◌++◌, ◌^◌, ◌<◌, [], IsSome, OnOk, IfOk};
ghost use Rattle.device_api.specs.World.{followed_by, rest, take_all, logged_at};
ghost use Rattle.global_model.specs.Inboxes.{port_of, end_at};
ghost use Rattle.global_model.specs.Reactions.{IsTaking, IsMoment};
ghost use Rattle.device_api.specs.Behaviour.{IsNotPast};
ghost use Rattle.global_model.specs.Step.{moment_in, reaction_at};
ghost use Rattle.global_model.specs.Turn.{so_far, take_waiting, arriving, IsQueueFor, AreQueuesFor, HasTaken, HaveTaken};

use crate::inboxes::Inboxes;
use cs_base::items::Items;
use cs_base::no_memory::NoMemory;
use cs_base::time::Time;
use device_api::{Component, Device, Effects, Line, LineText, log_all};
use moment_tree::Moment;
use std::alloc::Global;

/// A device takes what waits for a moment at one of its ports. Its effects come after what it has done so far.
fn take_from_port<V: Device>(
    alloc: Global,
    device: &mut V,
    moment: &Moment,
    port: u32,
    inboxes: &mut Inboxes,
    done: &mut Effects,
) -> Result<(), NoMemory>
    requires in_run { moment.now.at < 10 ^ 15 }
    requires there { IsSome (port_of inboxes.old (end_at moment.now.component port)) }
    requires waits { IsQueueFor (V.behaviour.ports device.old) port moment.now inboxes.old }
    requires taking { IsTaking V.behaviour V.settled device.old moment.now.at
        (so_far device.old done.old) }
    ensures reaction { OnOk result (so_far device.new done.new ≡ followed_by
        (so_far device.old done.old) (take_waiting V.behaviour moment.now port inboxes.old)) }
    ensures left { OnOk result (HasTaken moment.now port inboxes.old inboxes.new) }
    ensures still_taking { OnOk result (IsTaking V.behaviour V.settled device.old moment.now.at
        (so_far device.new done.new)) }
{
    'messages: while let Some(body) = inboxes.take_at(moment.component, port, moment.at) {
        device.take(alloc, moment.at, port, body, done)?;
    }
    Ok(())
}

/// A device takes what waits for a moment at all its ports, one port after another.
fn take_arrivals<V: Device>(
    alloc: Global,
    device: &mut V,
    moment: &Moment,
    inboxes: &mut Inboxes,
    done: &mut Effects,
) -> Result<(), NoMemory>
    requires in_run { moment.now.at < 10 ^ 15 }
    requires waits { AreQueuesFor (V.behaviour.ports device.old) moment.now inboxes.old }
    requires nothing_sent { done.old.sends ≡ [] }
    requires nothing_logged { done.old.lines ≡ [] }
    requires taking { IsTaking V.behaviour V.settled device.old moment.now.at (rest device.old) }
    ensures reaction { OnOk result (so_far device.new done.new ≡ take_all V.behaviour moment.now.at
        (arriving V.behaviour moment.now inboxes.old device.old) device.old) }
    ensures left { OnOk result (HaveTaken moment.now (length (V.behaviour.ports device.old))
        inboxes.old inboxes.new) }
    ensures still_taking { OnOk result (IsTaking V.behaviour V.settled device.old moment.now.at
        (so_far device.new done.new)) }
{
    let ports = device.ports();
    let mut port = inboxes.filled_from(moment.component, 0, ports);
    'filled: while port < ports {
        take_from_port(alloc, device, moment, port, inboxes, done)?;
        port = inboxes.filled_from(moment.component, port + 1, ports);
    }
    Ok(())
}

/// One moment of a device: it takes what waits for it, and then it ticks if it is due. Its effects are left in
/// `done`. It answers when the device is due next.
fn react<V: Device>(
    alloc: Global,
    device: &mut V,
    moment: &Moment,
    inboxes: &mut Inboxes,
    done: &mut Effects,
) -> Result<Option<Time>, NoMemory>
    requires in_run { moment.now.at < 10 ^ 15 }
    requires waits { AreQueuesFor (V.behaviour.ports device.old) moment.now inboxes.old }
    requires nothing_sent { done.old.sends ≡ [] }
    requires nothing_logged { done.old.lines ≡ [] }
    requires settled_then { V.settled device.old (moment.now.at + 1) }
    requires not_past { IsNotPast moment.now.at (V.behaviour.due device.old) }
    ensures reaction { OnOk result (so_far device.new done.new ≡
        moment_in V.behaviour moment.now.at moment.now.component inboxes.old device.old) }
    ensures left { OnOk result (HaveTaken moment.now (length (V.behaviour.ports device.old))
        inboxes.old inboxes.new) }
    ensures whole { OnOk result (IsMoment V.behaviour V.settled device.old moment.now.at
        (so_far device.new done.new)) }
    ensures due { IfOk result (λ due. due ≡ V.behaviour.due device.new) }
{
    take_arrivals(alloc, device, moment, inboxes, done)?;
    match device.due() {
        Some(due) if due == moment.at => {}
        other => return Ok(other),
    }
    device.tick(alloc, moment.at, done)?;
    Ok(device.due())
}

/// One moment of a component: its device reacts, and what it logs is logged. What it sends is left in `done`. It
/// answers when the device is due next.
pub fn turn<V: Device>(
    alloc: Global,
    component: &mut Component<V>,
    moment: &Moment,
    inboxes: &mut Inboxes,
    done: &mut Effects,
) -> Result<Option<Time>, NoMemory>
    requires in_run { moment.now.at < 10 ^ 15 }
    requires waits { AreQueuesFor (V.behaviour.ports component.old.device) moment.now inboxes.old }
    requires settled_then { V.settled component.old.device (moment.now.at + 1) }
    requires not_past { IsNotPast moment.now.at (V.behaviour.due component.old.device) }
    requires nothing_sent { done.old.sends ≡ [] }
    requires nothing_logged { done.old.lines ≡ [] }
    ensures device { OnOk result (component.new.device ≡
        (reaction_at V.behaviour moment.now inboxes.old component.old).state) }
    ensures log { OnOk result (component.new.log ≡ component.old.log ++ logged_at moment.now.at
        (reaction_at V.behaviour moment.now inboxes.old component.old).lines) }
    ensures sends { OnOk result (done.new.sends ≡
        (reaction_at V.behaviour moment.now inboxes.old component.old).sends) }
    ensures left { OnOk result (HaveTaken moment.now
        (length (V.behaviour.ports component.old.device)) inboxes.old inboxes.new) }
    ensures whole { OnOk result (IsMoment V.behaviour V.settled component.old.device moment.now.at
        (reaction_at V.behaviour moment.now inboxes.old component.old)) }
    ensures all_logged { OnOk result (done.new.lines ≡ []) }
    ensures due { IfOk result (λ due. due ≡ V.behaviour.due component.new.device) }
{
    let due = react(alloc, &mut component.device, moment, inboxes, done)?;
    log_lines(moment.at, &mut done.lines, &mut component.log)?;
    Ok(due)
}

/// Logs the lines of a time. Where there is none or one, as at most moments, no list is turned round.
#[inline(always)]
pub fn log_lines(
    t: Time,
    lines: &mut Items<LineText>,
    log: &mut Items<Line>,
) -> Result<(), NoMemory>
    ensures logged { OnOk result (log.new ≡ log.old ++ logged_at t lines.old) }
    ensures emptied { OnOk result (lines.new ≡ []) }
{
    let Some(text) = lines.pop() else {
        return Ok(());
    };
    if lines.is_empty() {
        return log.push(Line { at: t, text });
    }
    lines.push(text)?;
    log_all(t, lines, log)
}
