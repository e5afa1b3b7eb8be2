ghost use Rattle.std.specs.Prelude.{◌≤◌, ℕ, List};
ghost use Rattle.cs_base.specs.declared.port_kind.PortKind.{PortKind};
ghost use Rattle.sb_message.specs.declared.message.Msg.{Msg};
ghost use Rattle.device_api.specs.Channels.{Channel};
ghost use Rattle.device_api.specs.World.{Sent};
ghost use Rattle.device_api.specs.Transcript.{RisesFrom, transcript, bodies, bound_of};
ghost use Rattle.device_api.specs.Position.{Position, transcript_upto};
ghost use Rattle.run_laws.specs.Whole.{TimersAreWithin};

/// The timestamps of a transcript never fall, nor do those of its events.
pub fn timestamps_never_fall()
    ensures whole { (kind : PortKind) (ch : Channel) (sends : List Sent) (end : ℕ)
        → RisesFrom 0 (transcript kind ch sends end) }
    ensures so_far { (kind : PortKind) (ch : Channel) (sends : List Sent) (position : Position)
        (end : ℕ)
        → RisesFrom 0 (transcript_upto kind ch sends position end) }
    ensures events { (messages : List Msg) → RisesFrom 0 messages → RisesFrom 0 (bodies messages) }
{}

/// A whole transcript reaches its end: its last timestamp isn't before it.
pub fn a_transcript_reaches_its_end()
    ensures { (kind : PortKind) (ch : Channel) (sends : List Sent) (end : ℕ) → 1 ≤ ch.interval
        → ch.interval ≤ ch.latency
        → end ≤ bound_of (transcript kind ch sends end) }
{}

/// A port's next null message is due no later than the last timestamp that it has sent: whoever has heard all of it
/// has heard as far as that.
pub fn a_timer_is_within_what_was_said()
    ensures { TimersAreWithin }
{}
