ghost use Rattle.std.specs.Prelude.{◌≡◌, ℕ, Some, slice_get, List};
ghost use Rattle.cs_base.specs.declared.port_kind.PortKind.{PortKind};
ghost use Rattle.cs_base.specs.Plan.{End};
ghost use Rattle.sb_message.specs.declared.message.Msg.{Msg};
ghost use Rattle.device_api.specs.Channels.{Channel};
ghost use Rattle.device_api.specs.World.{Network, global_until, sends_on};
ghost use Rattle.device_api.specs.Transcript.{transcript};
ghost use Rattle.run_laws.specs.Wired.{IsWired, SendsEvents, IsChannel};
ghost use Rattle.run_laws.specs.LocalRuns.{AreLocalRuns, local_run};

/// Local runs make up the global run. Where each component ran by itself on what it received, and on each
/// channel was received what was sent as far as `end`, each run is that component's part of the global run
/// (its state, log and sends), and what was sent on each channel is the transcript of the global run's sends.
pub fn local_runs_are_the_global_run<S>()
    ensures runs { (net : Network S) (sent received : End → List Msg) (end : ℕ) → IsWired net end
        → SendsEvents net.behaviour
        → AreLocalRuns net sent received end → (c : ℕ) (s : S) → slice_get net.starts c ≡ Some s
        → slice_get (global_until net end).runs c ≡ Some (local_run net received c s end) }
    ensures transcripts { (net : Network S) (sent received : End → List Msg) (end : ℕ)
        → IsWired net end → SendsEvents net.behaviour
        → AreLocalRuns net sent received end → (ch : Channel) (s : S) (kind : PortKind)
        → IsChannel net ch s kind
        → sent ch.from ≡ transcript kind ch (sends_on ch (global_until net end)) end }
{}
