ghost use Rattle.std.specs.Prelude.{◌≡◌, ◌++◌, [], ℕ, Some, false, slice_get, List, length};
ghost use Rattle.cs_base.specs.declared.port_kind.PortKind.{PortKind};
ghost use Rattle.cs_base.specs.Plan.{End};
ghost use Rattle.sb_message.specs.declared.message.Msg.{Msg};
ghost use Rattle.device_api.specs.Channels.{Channel};
ghost use Rattle.device_api.specs.World.{Network, global_until, log_of, sends_on};
ghost use Rattle.device_api.specs.Transcript.{RisesFrom, transcript, bodies};
ghost use Rattle.device_api.specs.Position.{Position, is_reached, next_key};
ghost use Rattle.run_laws.specs.Wired.{IsWired, SendsEvents, IsChannel};
ghost use Rattle.run_laws.specs.LocalRuns.{IsPrefix};
ghost use Rattle.run_laws.specs.NextEvent.{AreAhead};
ghost use Rattle.run_laws.specs.Upto.{AreLocalRunsUpto, local_run_upto};

/// Local runs begin the global run. Wherever each component stands, if nothing can still come in for a moment
/// that it has passed, its log begins its log of the global run, and what it has made on a channel begins the
/// transcript of the global run's sends.
pub fn local_runs_begin_the_global_run<S>()
    ensures logs { (net : Network S) (position : ℕ → Position) (made received : End → List Msg)
        (end : ℕ) → IsWired net end
        → SendsEvents net.behaviour → AreLocalRunsUpto net position made received end
        → (c : ℕ) (s : S)
        → slice_get net.starts c ≡ Some s
        → IsPrefix (local_run_upto net received c s (position c) end).log
        (log_of c (global_until net end)) }
    ensures transcripts { (net : Network S) (position : ℕ → Position)
        (made received : End → List Msg) (end : ℕ) → IsWired net end
        → SendsEvents net.behaviour → AreLocalRunsUpto net position made received end
        → (ch : Channel) (s : S)
        (kind : PortKind) → IsChannel net ch s kind
        → IsPrefix (made ch.from) (transcript kind ch (sends_on ch (global_until net end)) end) }
{}

/// Nothing that can still come in on a channel was missed, where that is so for an empty inbox: what waits in an
/// inbox is after the position, and what comes in later is after what waits.
pub fn nothing_to_come_was_missed()
    ensures { (position : Position) (ch : Channel) (received handled inbox : List Msg)
        → RisesFrom 0 received
        → bodies received ≡ handled ++ inbox → AreAhead position ch.to.port (length handled) inbox
        → (inbox ≡ [] → is_reached position (next_key ch received) ≡ false)
        → is_reached position (next_key ch received) ≡ false }
{}
