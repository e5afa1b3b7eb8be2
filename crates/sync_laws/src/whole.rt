ghost use Rattle.std.specs.Prelude.{◌≡◌, ◌≤◌, ◌^◌, ◌∷◌, ◌++◌, [], ℕ, List, slice_get, slice_set, Some, None};
ghost use Rattle.cs_base.specs.Plan.{End};
ghost use Rattle.sb_message.specs.declared.message.Msg.{Msg};
ghost use Rattle.device_api.specs.Channels.{Channel, channels};
ghost use Rattle.device_api.specs.Position.{Position};
ghost use Rattle.device_api.specs.World.{Network};
ghost use Rattle.run_laws.specs.Wired.{IsWired};
ghost use Rattle.sync_rule.specs.declared.runner.Runner.{Runner};
ghost use Rattle.sync_rule.specs.Steps.{Processed, Passes, Receives};
ghost use Rattle.sync_laws.specs.GlobalRun.{BeginsGlobalRun, IsGlobalRun};
ghost use Rattle.sync_laws.specs.Stands.{place_of};
ghost use Rattle.sync_laws.specs.Whole.{IsWhole, IsStill, AreStarted, HaveEnded, CanProcess, of_component, with_end, with_position};

use device_api::Device;
use port_queue::{RxPort, TxPort};

/// New runners of all components of a network, whose ports are planned as its links are, stand as a whole.
pub fn a_start_is_whole<V: Device>()
    ensures { (net : Network V) (end : ℕ) (runners : List (Runner V)) → net.behaviour ≡ V.behaviour
        → end ≤ 10 ^ 15
        → AreStarted net V.settled end runners
        → IsWhole net V.settled end (λ c. None) (λ at. []) (λ at. []) (λ at. []) runners }
{}

/// An event of one component keeps the whole standing.
pub fn an_event_keeps_the_whole<V: Device>()
    ensures { (net : Network V) (end : ℕ) (positions : ℕ → Position)
        (received sent held : End → List Msg) (runners : List (Runner V)) (c : ℕ)
        (old new : Runner V) → net.behaviour ≡ V.behaviour
        → IsWhole net V.settled end positions received sent held runners
        → slice_get runners c ≡ Some old
        → (event : Processed V.behaviour old new)
        → IsWhole net V.settled end
        (with_position c (Some (place_of (of_component c received) old event.next)) positions)
        received sent held (slice_set runners c new) }
{}

/// A message that one component sends keeps the whole standing: it is then between the ends of the channel.
pub fn a_send_keeps_the_whole<V: Device, T: TxPort>()
    ensures { (before after : T) (net : Network V) (end : ℕ) (positions : ℕ → Position)
        (received sent held : End → List Msg) (runners : List (Runner V)) (at : End)
        (old new : Runner V) → net.behaviour ≡ V.behaviour
        → IsWhole net V.settled end positions received sent held runners
        → slice_get runners at.component ≡ Some old
        → (passes : Passes (λ m. T.pushes before m after) old new at.port)
        → IsWhole net V.settled end positions received (with_end at (sent at ++ passes.m ∷ []) sent)
        (with_end at (held at ++ passes.m ∷ []) held) (slice_set runners at.component new) }
{}

/// The first message between the ends of a channel, when it is received, keeps the whole standing.
pub fn a_receipt_keeps_the_whole<V: Device, R: RxPort>()
    ensures { (before after : R) (net : Network V) (end : ℕ) (positions : ℕ → Position)
        (received sent held : End → List Msg) (runners : List (Runner V)) (k : ℕ) (ch : Channel)
        (old new : Runner V) (more : List Msg) → net.behaviour ≡ V.behaviour → IsWired net end
        → IsWhole net V.settled end positions received sent held runners
        → slice_get (channels net.links) k ≡ Some ch
        → slice_get runners ch.to.component ≡ Some old
        → (receipt : Receives (λ m. R.pops before m after) old new ch.to.port)
        → held ch.from ≡ receipt.m ∷ more
        → IsWhole net V.settled end positions
        (with_end ch.to (received ch.to ++ receipt.m ∷ []) received) sent
        (with_end ch.from more held) (slice_set runners ch.to.component new) }
{}

/// What stands as a whole begins the global run: the log of each component begins its log there, what was sent on each
/// channel begins the transcript of what is sent there, and what was received on it is the first part of what was sent.
pub fn a_whole_begins_the_global_run<V: Device>()
    ensures { (net : Network V) (end : ℕ) (positions : ℕ → Position)
        (received sent held : End → List Msg) (runners : List (Runner V))
        → net.behaviour ≡ V.behaviour → IsWired net end
        → IsWhole net V.settled end positions received sent held runners
        → BeginsGlobalRun net end received sent runners }
{}

/// Where all components have ended, each log is that of the global run, what was sent on each channel is the transcript of
/// what is sent there, and each port has counted as many null messages and events as that has, 2^64 - 1 at most.
pub fn an_ended_whole_is_the_global_run<V: Device>()
    ensures { (net : Network V) (end : ℕ) (positions : ℕ → Position)
        (received sent held : End → List Msg) (runners : List (Runner V))
        → net.behaviour ≡ V.behaviour → IsWired net end
        → IsWhole net V.settled end positions received sent held runners
        → HaveEnded V.behaviour runners → IsGlobalRun net end sent runners }
{}

/// Nothing is stuck: where no message waits to be sent and none is between two ends, and not all components have ended,
/// some component may process its next event.
pub fn some_component_can_go_on<V: Device>()
    ensures { (net : Network V) (end : ℕ) (positions : ℕ → Position)
        (received sent held : End → List Msg) (runners : List (Runner V))
        → net.behaviour ≡ V.behaviour → IsWired net end
        → IsWhole net V.settled end positions received sent held runners → IsStill net held runners
        → (HaveEnded V.behaviour runners → ⊥) → CanProcess V.behaviour runners }
{}
