ghost use Rattle.std.specs.Prelude.{MatchResult};
ghost use Rattle.sync_drive.specs.Standing.{IsFit};
ghost use Rattle.sync_drive.specs.Turns.{Turned, Failed, Cause, HasStopped};

use crate::tries::{poll_all, send_all};
use crate::turn::{Turn, Why};
use device_api::Device;
use port_queue::{RxPort, TxPort};
use std::alloc::Global;
use sync_rule::{RunBad, Runner};

/// Why a component moves nothing that may not process an event.
fn why<V: Device>(runner: &Runner<V>) -> Turn
    requires { HasStopped V.behaviour runner.now }
    ensures { Cause V.behaviour runner.now 0 result }
{
    if let Some(port) = runner.waiting() {
        return Turn::Idle(Why::Full { port });
    }
    match runner.barred() {
        Some(port) => Turn::Idle(Why::Bound { port }),
        None => Turn::Ended,
    }
}

/// The moves of a turn.
pub(crate) fn make<V: Device, T: TxPort, R: RxPort>(
    alloc: Global,
    runner: &mut Runner<V>,
    txs: &mut [T],
    rxs: &mut [R],
) -> Result<Turn, RunBad>
    requires { IsFit V.behaviour V.settled T.kind T.stands R.kind R.stands runner.old
        txs.old rxs.old }
    ensures { MatchResult result
        (Turned V.behaviour T.pushes T.refuses R.pops R.empties runner.old
        txs.old rxs.old runner.new txs.new rxs.new)
        (Failed T.pushes T.refuses R.pops R.empties runner.old
        txs.old rxs.old runner.new txs.new rxs.new) }
{
    let sent = send_all(runner, txs);
    let heard = poll_all(runner, rxs)?;
    let ran = match runner.events(alloc, 4096) {
        Err(_) => return Err(RunBad::NoMemory),
        Ok(ran) => ran,
    };
    if sent == 0 && heard == 0 && ran == 0 {
        Ok(why(runner))
    } else {
        Ok(Turn::Moved)
    }
}
