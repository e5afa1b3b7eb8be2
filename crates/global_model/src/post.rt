ghost use Rattle.std.specs.Prelude.{◌≡◌, ◌^◌, ◌<◌, [], OnOk};
ghost use Rattle.global_model.specs.Post.{events_along, note_all, AreRouted, Arrive};
ghost use Rattle.global_model.specs.Tally.{AreCounted};

use crate::inboxes::Inboxes;
use crate::routes::Routes;
use crate::tallies::Tallies;
use cs_base::items::Items;
use cs_base::no_memory::NoMemory;
use cs_base::time::Time;
use moment_tree::Agenda;
use sb_message::{Body, Msg};

/// Puts what a component sent at a time, by which port, into the inboxes where it arrives, notes when, and counts it.
/// Where it sent nothing, as at most moments, it makes no call.
#[inline(always)]
pub fn post(
    from: u32,
    t: Time,
    sends: &mut Items<(u32, Body)>,
    routes: &Routes,
    inboxes: &mut Inboxes,
    agenda: &mut Agenda,
    tallies: &mut Tallies,
) -> Result<(), NoMemory>
    requires in_run { t < 10 ^ 15 }
    requires routed { AreRouted routes.now inboxes.old from sends.old }
    ensures arrives { OnOk result (Arrive routes.now from t sends.old inboxes.old inboxes.new) }
    ensures noted { OnOk result
        (agenda.new ≡ note_all (events_along routes.now from t sends.old) agenda.old) }
    ensures counted { OnOk result (AreCounted routes.now from t sends.old tallies.old tallies.new) }
    ensures emptied { OnOk result (sends.new ≡ []) }
{
    if sends.is_empty() {
        return Ok(());
    }
    post_each(from, t, sends, routes, inboxes, agenda, tallies)
}

#[inline(never)]
fn post_each(
    from: u32,
    t: Time,
    sends: &mut Items<(u32, Body)>,
    routes: &Routes,
    inboxes: &mut Inboxes,
    agenda: &mut Agenda,
    tallies: &mut Tallies,
) -> Result<(), NoMemory>
    requires in_run { t < 10 ^ 15 }
    requires routed { AreRouted routes.now inboxes.old from sends.old }
    ensures arrives { OnOk result (Arrive routes.now from t sends.old inboxes.old inboxes.new) }
    ensures noted { OnOk result
        (agenda.new ≡ note_all (events_along routes.now from t sends.old) agenda.old) }
    ensures counted { OnOk result (AreCounted routes.now from t sends.old tallies.old tallies.new) }
    ensures emptied { OnOk result (sends.new ≡ []) }
{
    sends.reverse();
    'sends: while let Some((port, body)) = sends.pop() {
        let Some(route) = routes.get(from, port) else {
            continue;
        };
        let at = Time(t.picoseconds() + route.latency.picoseconds());
        inboxes.push(route.component, route.port, Msg { at, body })?;
        agenda.note(route.component, at);
        tallies.send(route.channel, t);
    }
    Ok(())
}
