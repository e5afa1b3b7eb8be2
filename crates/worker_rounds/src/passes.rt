//! Passes: one turn of each member, again and again.
ghost use Rattle.std.specs.Prelude.{◌≡◌, ◌+◌, ℕ, IfOk, IfErr, IsTrue, ◌↔◌};
ghost use Rattle.worker_rounds.specs.Passes.{AllFit, EachWent, PassFailed, AreStill, HaveEnded};
ghost use Rattle.worker_rounds.specs.Rounds.{Passed, Failed};

use crate::member::Member;
use crate::mesh_bad::MeshBad;
use std::alloc::Global;
use std::thread;

/// The most passes of a round, and the least after which it may be quiet.
const MOST: u32 = 4096;

const LEAST: u32 = 64;

/// One turn of each member.
fn pass<M: Member>(alloc: Global, members: &mut [M]) -> Result<(), MeshBad>
    requires fit { AllFit M.fits members.old }
    ensures went { IfOk result (λ _. EachWent M.does 1 members.old members.new) }
    ensures fit { IfOk result (λ _. AllFit M.fits members.new) }
    ensures failed { IfErr result (PassFailed M.does M.fails members.old members.new) }
{
    for place in 0..members.len() {
        members[place].turn(alloc)?;
    }
    Ok(())
}

/// Whether the latest 64 turns of each member, or more, moved nothing.
fn all_still<M: Member>(members: &[M]) -> bool
    ensures { IsTrue result ↔ AreStill M.still members.now }
{
    for member in members {
        if member.still() != 64 {
            return false;
        }
    }
    true
}

/// Whether the latest turn of some member moved something.
fn some_moved<M: Member>(members: &[M]) -> bool {
    for member in members {
        if member.still() == 0 {
            return true;
        }
    }
    false
}

/// Whether all members have ended.
pub(crate) fn all_ended<M: Member>(members: &[M]) -> bool
    ensures { IsTrue result ↔ HaveEnded M.ended members.now }
{
    for member in members {
        if !member.ended() {
            return false;
        }
    }
    true
}

/// Whether no member moves before something comes from another thread: the latest turns moved nothing, and not all have ended.
fn waits<M: Member>(members: &[M]) -> bool {
    !some_moved(members) && !all_ended(members)
}

/// Passes until each member is still, or as many as a round may have. It tells which.
pub(crate) fn passes<M: Member>(alloc: Global, members: &mut [M]) -> Result<bool, MeshBad>
    requires fit { AllFit M.fits members.old }
    ensures passed { IfOk result (Passed M.does M.turns M.still members.old members.new) }
    ensures fit { IfOk result (λ _. AllFit M.fits members.new) }
    ensures failed { IfErr result (Failed M.does M.fails members.old members.new) }
{
    for made in 0..MOST {
        pass(alloc, members)?;
        if made + 1 >= LEAST && all_still(members) {
            return Ok(true);
        }
        if waits(members) {
            thread::yield_now();
        }
    }
    Ok(false)
}
