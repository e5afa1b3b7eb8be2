ghost use Rattle.std.specs.Prelude.{◌≡◌, ◌↔◌, ◌++◌, ◌∷◌, [], None, option_to_list, IsTrue, IfNone, IfErr, OnOk};
ghost use Rattle.worker_rounds.specs.Passes.{HaveEnded};
ghost use Rattle.worker_rounds.specs.Rounds.{Rounded, Worked, IsSound};

use crate::member::Member;
use crate::mesh_bad::MeshBad;
use crate::passes::{all_ended, passes};
use cs_base::Gate;
use cs_base::no_memory::NoMemory;
use std::alloc::Global;
use std::marker::Model;
use std::sync::atomic::{AtomicBool, Ordering};

/// The most rounds that a worker makes within one for-each.
const MOST_ROUNDS: u32 = 1 << 20;

/// How a round ended.
#[derive(Clone, Copy, Debug, PartialEq, Eq)]
pub enum RoundEnd {
    /// For long nothing has moved.
    Quiet,
    /// It has made as many passes as a round may have.
    Spent,
    /// A turn of a member met a fault.
    Faulted,
}

/// The members that one thread turns, and the first fault that a turn of them met.
#[derive(Drop)]
pub struct Worker<M> {
    number: u32,
    members: Vec<M>,
    fault: Option<MeshBad>,
}

impl<M> Model for Worker<M> {
    ghost use Rattle.worker_rounds.specs.Rounds.{Work};

    ghost Value = { Work M };

    ghost view = { λ worker. record { number = worker.number; members = worker.members.items; fault = worker.fault } };
}

impl<M> Worker<M> {
    /// A worker that has made no round.
    pub fn new(number: u32, members: Vec<M>) -> Worker<M>
        ensures { result ≡ record { number = number; members = members.items; fault = None } }
    {
        Worker {
            number,
            members,
            fault: None,
        }
    }

    /// The fault that it keeps.
    pub fn fault(&self) -> Option<MeshBad>
        ensures { result ≡ self.now.fault }
    {
        self.fault
    }

    /// Takes its last member out.
    pub fn take_last(&mut self) -> Option<M>
        ensures last { self.old.members ≡ self.new.members ++ option_to_list result }
        ensures none { IfNone result (self.old.members ≡ []) }
        ensures number { self.new.number ≡ self.old.number }
        ensures fault { self.new.fault ≡ self.old.fault }
    {
        self.members.pop()
    }

    /// Its members.
    pub fn into_members(self) -> Vec<M>
        ensures { result.items ≡ self.members }
    {
        let Worker { members, .. } = self;
        members
    }
}

impl<M: Drop> Worker<M> {
    /// One member more, behind the others. Where memory is wanting, all stays as it was.
    pub fn add(&mut self, member: M) -> Result<(), NoMemory>
        ensures members { OnOk result (self.new.members ≡ self.old.members ++ member ∷ []) }
        ensures number { self.new.number ≡ self.old.number }
        ensures fault { self.new.fault ≡ self.old.fault }
        ensures failed { IfErr result (λ _. self.new.members ≡ self.old.members) }
    {
        self.members.push(member)?;
        Ok(())
    }
}

impl<M: Member> Worker<M> {
    /// Passes the gate, and then makes passes, in each of which each member makes one turn: until, after 64 of them or more,
    /// the latest 64 turns of each member moved nothing; or 4,096; or until a turn meets a fault, which is kept.
    pub fn round<G: Gate>(&mut self, alloc: Global, gate: &G) -> RoundEnd
        requires { IsSound M.fits self.old }
        ensures number { self.new.number ≡ self.old.number }
        ensures rounded { Rounded M.does M.fails M.turns M.still self.old self.new result }
    {
        gate.pass(self.number);
        match passes(alloc, self.members.as_mut_slice()) {
            Ok(true) => RoundEnd::Quiet,
            Ok(false) => RoundEnd::Spent,
            Err(fault) => {
                self.fault = Some(fault);
                RoundEnd::Faulted
            }
        }
    }

    /// Whether all its members have ended.
    pub fn ended(&self) -> bool
        ensures { IsTrue result ↔ HaveEnded M.ended self.now.members }
    {
        all_ended(self.members.as_slice())
    }

    /// Makes rounds, until one meets a fault, which it tells the others, or is quiet and all members have ended, or so many in
    /// a row are quiet, or another worker has met a fault.
    pub(crate) fn work<G: Gate>(
        &mut self,
        alloc: Global,
        gate: &G,
        quiet_rounds: u32,
        faulted: &AtomicBool,
    )
        requires { IsSound M.fits self.old }
        ensures { Worked M.does M.fails M.fits self.old self.new }
    {
        let mut quiet = 0;
        for _ in 0..MOST_ROUNDS {
            let end = self.round(alloc, gate);
            if self.fault().is_some() {
                faulted.store(true, Ordering::SeqCst);
                return;
            }
            quiet = quiet_after(end, quiet);
            if quiet == quiet_rounds || (quiet > 0 && self.ended()) {
                return;
            }
            let over = faulted.load(Ordering::SeqCst);
            if over {
                return;
            }
        }
    }
}

/// How many rounds in a row were quiet.
fn quiet_after(end: RoundEnd, quiet: u32) -> u32 {
    match end {
        RoundEnd::Quiet => quiet.saturating_add(1),
        RoundEnd::Spent | RoundEnd::Faulted => 0,
    }
}
