ghost use Rattle.proxy_members.specs.Differing.{AreInOrder};
ghost use Rattle.run_threads.specs.Comparing.{EndsAgree};
ghost use Rattle.run_threads.specs.Whole.{MayRun, Runs};

use crate::closing::Closing;
use crate::laws::{
    a_crew_is_seated, rounds_keep_a_crew_standing, whatever_comes_leaves_parts_seated,
};
use crate::part::Part;
use crew_members::{Hand, rounds_of_components};
use cs_base::items::Items;
use cs_base::{Gate, WireEnd, WireIn, WireOut};
use device_api::Device;
use proxy_crew::{Dismissed, Route, dismiss, ends_stay_engaged};
use proxy_members::{InMember, OutMember, first_that_differs};
use std::alloc::Global;
use std::sync::Wait;
use std::thread::Threads;
use worker_rounds::{MeshBad, Worker, run_all};

/// The components of a run on their workers, with the ends of the channels that go by proxy; and what is left of these
/// channels after the run.
#[derive(Drop)]
pub struct Crew<'q, V, O, I> {
    pub(crate) workers: Vec<Worker<Hand<Part<'q, V>, OutMember<'q, O>, InMember<'q, I>>>>,
    /// The channels whose ends stand on the workers.
    pub(crate) routes: Items<Route>,
    pub(crate) dismissed: Dismissed<O, I>,
    pub(crate) closing: Closing<'q, V>,
}

/// That what came on each of these channels is a beginning of what was sent, or the first at which it isn't.
fn agree<O, I>(ends: &[WireEnd<O, I>]) -> Result<(), MeshBad>
    requires { AreInOrder ends.now }
    ensures { EndsAgree ends.now result }
{
    match first_that_differs(ends) {
        Some((channel, differ)) => Err(MeshBad::Differs { channel, differ }),
        None => Ok(()),
    }
}

/// Lets all workers make rounds, on threads where they can be had, until all components have ended or a turn has met a
/// fault. Then the ends of the channels by proxy leave the workers, and where no fault was met, what came on each channel is
/// compared with what was sent. It may wait for ever.
pub fn run_mesh<'q, R, V, O, I, G>(
    rt: &R,
    alloc: Global,
    crew: &mut Crew<'q, V, O, I>,
    gate: &G,
) -> Result<(), MeshBad>
where
    R: Threads + Wait + Sync,
    V: Device + Send,
    O: WireOut + Drop + Send,
    I: WireIn + Drop + Send,
    G: Gate + Sync,
    requires built { MayRun V.behaviour V.settled O.seen I.seen crew.old }
    ensures { Runs V.behaviour V.settled O.seen I.seen crew.old crew.new result }
{
    rounds_of_components::<Part<'q, V>, OutMember<'q, O>, InMember<'q, I>>();
    ends_stay_engaged::<Part<'q, V>, O, I>();
    rounds_keep_a_crew_standing::<V>();
    whatever_comes_leaves_parts_seated::<V>();
    a_crew_is_seated::<V>();
    let ran = run_all(rt, alloc, crew.workers.as_mut_slice(), gate);
    dismiss(
        crew.workers.as_mut_slice(),
        &mut crew.routes,
        &mut crew.dismissed,
    );
    match ran {
        Ok(()) => agree(crew.dismissed.ends.as_slice()),
        Err(fault) => Err(fault),
    }
}
