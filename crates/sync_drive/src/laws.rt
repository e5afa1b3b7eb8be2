ghost use Rattle.std.specs.Prelude.{◌≡◌, ◌≤◌, ◌^◌, ℕ, List, [], All, map};
ghost use Rattle.sync_rule.specs.declared.run_bad.RunBad.{RunBad};
ghost use Rattle.sync_rule.specs.declared.port_plan.PortPlan.{PortPlan};
ghost use Rattle.sync_rule.specs.declared.runner.Runner.{Runner};
ghost use Rattle.sync_rule.specs.Ports.{In, Out, IsPlanned};
ghost use Rattle.sync_rule.specs.Steps.{started};
ghost use Rattle.sync_drive.specs.declared.turn.Turn.{Turn};
ghost use Rattle.sync_drive.specs.Standing.{TxsStand, RxsStand, StandsFrom, FailedFrom};
ghost use Rattle.sync_drive.specs.Tries.{AreTried};
ghost use Rattle.sync_drive.specs.Turns.{Turned, Failed};

use device_api::Device;
use port_queue::{RxPort, TxPort};

/// The driver of a new runner stands, if its ends of channels have sent and received nothing.
pub fn a_new_driver_stands<V: Device, T: TxPort, R: RxPort>()
    ensures { (device : V) (plans : List PortPlan) (end : ℕ) (txs : List T) (rxs : List R)
        → V.settled device 0 → end ≤ 10 ^ 15
        → map (λ (plan : PortPlan). plan.kind) plans ≡ V.behaviour.ports device
        → All IsPlanned plans
        → TxsStand T.kind T.stands (V.behaviour.ports device) (λ port. []) txs
        → RxsStand R.kind R.stands (V.behaviour.ports device) (λ port. []) rxs
        → StandsFrom V.behaviour V.settled T.kind T.stands R.kind R.stands device
        (started device plans end) txs rxs }
{}

/// A turn keeps a driver standing: its runner and its ends of channels then stand for the same lists by port.
pub fn a_turn_keeps_it_standing<V: Device, T: TxPort, R: RxPort>()
    ensures { (start : V) (old new : Runner V) (txs txs' : List T) (rxs rxs' : List R) (turn : Turn)
        → StandsFrom V.behaviour V.settled T.kind T.stands R.kind R.stands start old txs rxs
        → Turned V.behaviour T.pushes T.refuses R.pops R.empties old txs rxs new txs' rxs' turn
        → StandsFrom V.behaviour V.settled T.kind T.stands R.kind R.stands start new txs' rxs' }
{}

/// After a turn that failed the ends of its channels still stand, and so did its runner after the last move that was made.
/// A wrong introduction is the first message that came in at its port.
pub fn a_failed_turn_leaves_its_ends_standing<V: Device, T: TxPort, R: RxPort>()
    ensures { (start : V) (old new : Runner V) (txs txs' : List T) (rxs rxs' : List R)
        (bad : RunBad)
        → StandsFrom V.behaviour V.settled T.kind T.stands R.kind R.stands start old txs rxs
        → Failed T.pushes T.refuses R.pops R.empties old txs rxs new txs' rxs' bad
        → FailedFrom V.behaviour V.settled T.kind T.stands R.kind R.stands start old txs' rxs' bad }
{}

/// A turn changes neither the end of the run nor the plan of any port.
pub fn a_turn_keeps_its_plans<V: Device, T: TxPort, R: RxPort>()
    ensures end { (old new : Runner V) (txs txs' : List T) (rxs rxs' : List R) (turn : Turn)
        → Turned V.behaviour T.pushes T.refuses R.pops R.empties old txs rxs new txs' rxs' turn
        → new.end ≡ old.end }
    ensures outgoing { (old new : Runner V) (txs txs' : List T) (rxs rxs' : List R) (turn : Turn)
        → Turned V.behaviour T.pushes T.refuses R.pops R.empties old txs rxs new txs' rxs' turn
        → map (λ (o : Out). o.plan) new.outgoing ≡ map (λ (o : Out). o.plan) old.outgoing }
    ensures incoming { (old new : Runner V) (txs txs' : List T) (rxs rxs' : List R) (turn : Turn)
        → Turned V.behaviour T.pushes T.refuses R.pops R.empties old txs rxs new txs' rxs' turn
        → map (λ (i : In). i.plan) new.incoming ≡ map (λ (i : In). i.plan) old.incoming }
{}

/// A turn tries each end of a channel once at most, whether it fails or not.
pub fn a_turn_tries_each_end_once<V: Device, T: TxPort, R: RxPort>()
    ensures turned { (old new : Runner V) (txs txs' : List T) (rxs rxs' : List R) (turn : Turn)
        → Turned V.behaviour T.pushes T.refuses R.pops R.empties old txs rxs new txs' rxs' turn
        → AreTried T.pushes T.refuses txs txs' × AreTried R.pops R.empties rxs rxs' }
    ensures failed { (old new : Runner V) (txs txs' : List T) (rxs rxs' : List R) (bad : RunBad)
        → Failed T.pushes T.refuses R.pops R.empties old txs rxs new txs' rxs' bad
        → AreTried T.pushes T.refuses txs txs' × AreTried R.pops R.empties rxs rxs' }
{}
