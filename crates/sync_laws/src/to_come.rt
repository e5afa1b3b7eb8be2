ghost use Rattle.std.specs.Prelude.{◌≡◌, ◌+◌, ◌∷◌, ◌++◌, [], ℕ, List, slice_get, slice_set, Some};
ghost use Rattle.cs_base.specs.Plan.{End};
ghost use Rattle.sb_message.specs.declared.message.Msg.{Msg};
ghost use Rattle.device_api.specs.Channels.{Channel, channels};
ghost use Rattle.device_api.specs.Position.{Position};
ghost use Rattle.device_api.specs.World.{Network};
ghost use Rattle.run_laws.specs.Wired.{IsWired};
ghost use Rattle.sync_rule.specs.declared.runner.Runner.{Runner};
ghost use Rattle.sync_rule.specs.Steps.{Processed, Passes, Receives};
ghost use Rattle.sync_laws.specs.Stands.{place_of};
ghost use Rattle.sync_laws.specs.Whole.{IsWhole, HaveEnded, of_component, with_end, with_position};
ghost use Rattle.sync_laws.specs.ToCome.{left};

use device_api::Device;
use port_queue::{RxPort, TxPort};

/// An event of one component lowers what is left by one.
pub fn an_event_lowers_what_is_left<V: Device>()
    ensures { (net : Network V) (end : ℕ) (positions : ℕ → Position)
        (received sent held : End → List Msg) (runners : List (Runner V)) (c : ℕ)
        (old new : Runner V) → net.behaviour ≡ V.behaviour → IsWired net end
        → IsWhole net V.settled end positions received sent held runners
        → slice_get runners c ≡ Some old → (event : Processed V.behaviour old new)
        → left net end positions received sent runners
        ≡ left net end
        (with_position c (Some (place_of (of_component c received) old event.next)) positions)
        received sent (slice_set runners c new) + 1 }
{}

/// A message that is sent on a channel lowers it by one.
pub fn a_send_lowers_what_is_left<V: Device, T: TxPort>()
    ensures { (before after : T) (net : Network V) (end : ℕ) (positions : ℕ → Position)
        (received sent held : End → List Msg) (runners : List (Runner V)) (k : ℕ) (ch : Channel)
        (old new : Runner V) → net.behaviour ≡ V.behaviour → IsWired net end
        → IsWhole net V.settled end positions received sent held runners
        → slice_get (channels net.links) k ≡ Some ch
        → slice_get runners ch.from.component ≡ Some old
        → (passes : Passes (λ m. T.pushes before m after) old new ch.from.port)
        → left net end positions received sent runners
        ≡ left net end positions received (with_end ch.from (sent ch.from ++ passes.m ∷ []) sent)
        (slice_set runners ch.from.component new) + 1 }
{}

/// And so does the first message between the ends of a channel, when it is received.
pub fn a_receipt_lowers_what_is_left<V: Device, R: RxPort>()
    ensures { (before after : R) (net : Network V) (end : ℕ) (positions : ℕ → Position)
        (received sent held : End → List Msg) (runners : List (Runner V)) (k : ℕ) (ch : Channel)
        (old new : Runner V) (more : List Msg) → net.behaviour ≡ V.behaviour → IsWired net end
        → IsWhole net V.settled end positions received sent held runners
        → slice_get (channels net.links) k ≡ Some ch
        → slice_get runners ch.to.component ≡ Some old
        → (receipt : Receives (λ m. R.pops before m after) old new ch.to.port)
        → held ch.from ≡ receipt.m ∷ more
        → left net end positions received sent runners
        ≡ left net end positions (with_end ch.to (received ch.to ++ receipt.m ∷ []) received) sent
        (slice_set runners ch.to.component new) + 1 }
{}

/// Nothing is left where all components have ended and nothing is held between the two ends of a channel.
pub fn nothing_is_left_in_the_end<V: Device>()
    ensures { (net : Network V) (end : ℕ) (positions : ℕ → Position)
        (received sent held : End → List Msg) (runners : List (Runner V))
        → net.behaviour ≡ V.behaviour → IsWired net end
        → IsWhole net V.settled end positions received sent held runners
        → HaveEnded V.behaviour runners
        → ((k : ℕ) (ch : Channel) → slice_get (channels net.links) k ≡ Some ch → held ch.from ≡ [])
        → left net end positions received sent runners ≡ 0 }
{}
