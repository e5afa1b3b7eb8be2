ghost use Rattle.std.specs.Prelude.{◌≡◌, length, MatchResult};
ghost use Rattle.sync_drive.specs.Tries.{SendsRan, PollsRan, PollsFailed};
ghost use Rattle.sync_drive.specs.Standing.{SendsStand, PollsStand};

use device_api::Device;
use port_queue::{RxPort, TxPort};
use sync_rule::{RunBad, Runner};

/// Tries at each port to send what waits first there, and tells how many messages went.
pub(crate) fn send_all<V: Device, T: TxPort>(runner: &mut Runner<V>, txs: &mut [T]) -> usize
    requires stands { SendsStand V.behaviour V.settled T.kind T.stands runner.old txs.old }
    ensures { SendsRan T.pushes T.refuses runner.old txs.old (length txs.old) result
        runner.new txs.new }
{
    let mut sent = 0;
    for port in 0..txs.len() {
        if runner.send(port as u32, &mut txs[port]) {
            sent += 1;
        }
    }
    sent
}

/// Tries at each port to receive a message, and tells how many came.
pub(crate) fn poll_all<V: Device, R: RxPort>(
    runner: &mut Runner<V>,
    rxs: &mut [R],
) -> Result<usize, RunBad>
    requires stands { PollsStand V.behaviour V.settled R.kind R.stands runner.old rxs.old }
    ensures { MatchResult result
        (λ n. PollsRan R.pops R.empties runner.old rxs.old (length rxs.old) n runner.new rxs.new)
        (PollsFailed R.pops R.empties runner.old rxs.old runner.new rxs.new) }
{
    let mut heard = 0;
    for port in 0..rxs.len() {
        if runner.poll(port as u32, &mut rxs[port])? {
            heard += 1;
        }
    }
    Ok(heard)
}
