ghost use Rattle.std.specs.Prelude.{◌≡◌, ◌≤◌, ◌^◌, ◌∷◌, ◌++◌, [], ℕ, List, All, map, slice_get, Some, None};
ghost use Rattle.cs_base.specs.Plan.{partner};
ghost use Rattle.sb_message.specs.declared.message.Msg.{Msg};
ghost use Rattle.device_api.specs.Position.{Position};
ghost use Rattle.run_laws.specs.NextEvent.{with_port};
ghost use Rattle.sync_rule.specs.declared.port_plan.PortPlan.{PortPlan};
ghost use Rattle.sync_rule.specs.declared.runner.Runner.{Runner};
ghost use Rattle.sync_rule.specs.Ports.{In, Out, IsPlanned};
ghost use Rattle.sync_rule.specs.Next.{IsReady};
ghost use Rattle.sync_rule.specs.Steps.{started, Processed, Passes, Receives, MaySendNext};
ghost use Rattle.sync_laws.specs.Stands.{Stands, place_of};

use device_api::Device;
use port_queue::{RxPort, TxPort};

/// A new runner stands at its start: nothing was received and nothing was sent.
pub fn a_new_runner_stands<V: Device>()
    ensures { (device : V) (plans : List PortPlan) (end : ℕ) → V.settled device 0 → end ≤ 10 ^ 15
        → map (λ (plan : PortPlan). plan.kind) plans ≡ V.behaviour.ports device
        → All IsPlanned plans
        → Stands V.behaviour V.settled device None (λ port. []) (λ port. [])
        (started device plans end) }
{}

/// A runner that stands may be asked for its next event.
pub fn what_stands_is_ready<V: Device>()
    ensures { (start : V) (position : Position) (received sent : ℕ → List Msg) (r : Runner V)
        → Stands V.behaviour V.settled start position received sent r
        → IsReady V.behaviour V.settled r }
{}

/// An event keeps it standing, at the event's place.
pub fn an_event_keeps_it_standing<V: Device>()
    ensures { (start : V) (position : Position) (received sent : ℕ → List Msg) (old new : Runner V)
        → Stands V.behaviour V.settled start position received sent old
        → (event : Processed V.behaviour old new)
        → Stands V.behaviour V.settled start
        (Some (place_of received old event.next)) received sent new }
{}

/// The end of a channel to the partner of a port, which stands for what the port has sent, may be given what waits first
/// there.
pub fn what_stands_may_send<V: Device, T: TxPort>()
    ensures { (tx : T) (start : V) (position : Position) (received sent : ℕ → List Msg)
        (r : Runner V) (port : ℕ) (o : Out)
        → Stands V.behaviour V.settled start position received sent r
        → slice_get r.outgoing port ≡ Some o
        → T.kind tx ≡ partner o.plan.kind → T.stands tx (sent port)
        → MaySendNext r port (T.kind tx) (T.stands tx) }
{}

/// A message that is sent goes to the end of the list sent by its port, for which the channel's end then stands.
pub fn a_send_keeps_it_standing<V: Device, T: TxPort>()
    ensures runner { (before after : T) (start : V) (position : Position)
        (received sent : ℕ → List Msg) (old new : Runner V) (port : ℕ)
        → Stands V.behaviour V.settled start position received sent old
        → (passes : Passes (λ m. T.pushes before m after) old new port)
        → Stands V.behaviour V.settled start position received
        (with_port port (sent port ++ passes.m ∷ []) sent) new }
    ensures channel { (before after : T) (start : V) (position : Position)
        (received sent : ℕ → List Msg) (old new : Runner V) (port : ℕ) (o : Out)
        → Stands V.behaviour V.settled start position received sent old
        → (passes : Passes (λ m. T.pushes before m after) old new port)
        → slice_get old.outgoing port ≡ Some o
        → T.kind before ≡ partner o.plan.kind → T.stands before (sent port)
        → T.stands after (sent port ++ passes.m ∷ []) }
{}

/// A message that is received goes to the end of the list received at its port, for which the channel's end then stands.
pub fn a_receipt_keeps_it_standing<V: Device, R: RxPort>()
    ensures runner { (before after : R) (start : V) (position : Position)
        (received sent : ℕ → List Msg) (old new : Runner V) (port : ℕ) (i : In)
        → Stands V.behaviour V.settled start position received sent old
        → (receipt : Receives (λ m. R.pops before m after) old new port)
        → slice_get old.incoming port ≡ Some i
        → R.kind before ≡ i.plan.kind → R.stands before (received port)
        → Stands V.behaviour V.settled start position
        (with_port port (received port ++ receipt.m ∷ []) received) sent new }
    ensures channel { (before after : R) (received : ℕ → List Msg) (old new : Runner V) (port : ℕ)
        → (receipt : Receives (λ m. R.pops before m after) old new port) → R.stands before
        (received port)
        → R.stands after (received port ++ receipt.m ∷ []) }
{}
