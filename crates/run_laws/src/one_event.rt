ghost use Rattle.std.specs.Prelude.{◌≡◌, ◌<◌, ◌++◌, ◌∷◌, [], ℕ, Some, List, false};
ghost use Rattle.cs_base.specs.declared.port_kind.PortKind.{PortKind};
ghost use Rattle.sb_message.specs.declared.message.Msg.{Msg};
ghost use Rattle.device_api.specs.Behaviour.{Behaviour, Reaction};
ghost use Rattle.device_api.specs.Channels.{Channel};
ghost use Rattle.device_api.specs.World.{after, sends_by, sent_at};
ghost use Rattle.device_api.specs.Transcript.{stamped_after, with_messages, null_message};
ghost use Rattle.device_api.specs.Position.{Key, Position, is_reached, sync_key, tick_key, local_upto};
ghost use Rattle.run_laws.specs.Wired.{SendsEvents};
ghost use Rattle.run_laws.specs.NextEvent.{AreInboxes, IsNextTake, IsNextTick, IsNextSync, IsBeforeTimer, ComesAfter, head_key, with_port, local_script};

/// Where the next event of a component is to take the head of an inbox, the local run up to that event is the
/// run before it and then that take, and the message leaves its inbox.
pub fn a_take_is_one_event<S>()
    ensures run { (b : Behaviour S) (ports : ℕ) (inputs handled inbox : ℕ → List Msg) (s : S)
        (position : Position) (end : ℕ)
        (port : ℕ) (m : Msg) (more : List Msg) → AreInboxes position ports inputs handled inbox
        → IsNextTake b ports handled inbox
        (local_upto b ports inputs s position end).state port m more → m.at < end
        → local_upto b ports inputs s (Some (head_key handled port m)) end
        ≡ after m.at (local_upto b ports inputs s position end)
        (b.take (local_upto b ports inputs s position end).state m.at port m.body) }
    ensures inboxes { (b : Behaviour S) (ports : ℕ) (inputs handled inbox : ℕ → List Msg) (s : S)
        (position : Position) (end : ℕ)
        (port : ℕ) (m : Msg) (more : List Msg) → AreInboxes position ports inputs handled inbox
        → IsNextTake b ports handled inbox
        (local_upto b ports inputs s position end).state port m more
        → AreInboxes (Some (head_key handled port m)) ports inputs
        (with_port port (handled port ++ m ∷ []) handled) (with_port port more inbox) }
{}

/// Where the next event of a component is a tick, the local run up to it is the run before it and then that
/// tick, and the inboxes stay as they are.
pub fn a_tick_is_one_event<S>()
    ensures run { (b : Behaviour S) (ports : ℕ) (inputs handled inbox : ℕ → List Msg) (s : S)
        (position : Position) (end t : ℕ)
        → AreInboxes position ports inputs handled inbox
        → IsNextTick b position ports handled inbox
        (local_upto b ports inputs s position end).state t → t < end
        → local_upto b ports inputs s (Some (tick_key t)) end
        ≡ after t (local_upto b ports inputs s position end)
        (b.tick (local_upto b ports inputs s position end).state t) }
    ensures inboxes { (b : Behaviour S) (ports : ℕ) (inputs handled inbox : ℕ → List Msg) (s : S)
        (position : Position) (end t : ℕ)
        → AreInboxes position ports inputs handled inbox
        → IsNextTick b position ports handled inbox
        (local_upto b ports inputs s position end).state t
        → AreInboxes (Some (tick_key t)) ports inputs handled inbox }
{}

/// Where the next event of a component is a null message, the local run up to it is the run before it, and the
/// inboxes stay as they are.
pub fn a_null_message_is_no_event_of_the_device<S>()
    ensures run { (b : Behaviour S) (ports : ℕ) (inputs handled inbox : ℕ → List Msg) (s : S)
        (position : Position)
        (end u port : ℕ) → AreInboxes position ports inputs handled inbox
        → IsNextSync b position ports handled inbox
        (local_upto b ports inputs s position end).state u port → u < end
        → local_upto b ports inputs s (Some (sync_key u port)) end
        ≡ local_upto b ports inputs s position end }
    ensures inboxes { (b : Behaviour S) (ports : ℕ) (inputs handled inbox : ℕ → List Msg) (s : S)
        (position : Position)
        (end u port : ℕ) → AreInboxes position ports inputs handled inbox
        → IsNextSync b position ports handled inbox
        (local_upto b ports inputs s position end).state u port
        → AreInboxes (Some (sync_key u port)) ports inputs handled inbox }
{}

/// Where a component's run grows by the reaction to an event that passes no null message of a port, the
/// transcript on the channel out of that port grows by the reaction's sends there, and each send puts the timer
/// off.
pub fn a_transcript_grows_by_an_event<S>()
    ensures { (b : Behaviour S) (ports : ℕ) (inputs : ℕ → List Msg) (s : S) (position : Position)
        (last : Key) (end : ℕ)
        (kind : PortKind) (ch : Channel) (r : Reaction S) → SendsEvents b
        → is_reached position last ≡ false
        → last.time < end
        → local_upto b ports inputs s (Some last) end
        ≡ after last.time (local_upto b ports inputs s position end) r
        → IsBeforeTimer last ch (local_script kind ch
        (local_upto b ports inputs s position end) position end)
        → local_script kind ch (local_upto b ports inputs s (Some last) end) (Some last) end
        ≡ with_messages ch last.time (local_script kind ch
        (local_upto b ports inputs s position end) position end)
        (stamped_after ch (sends_by ch.from.port (local_upto b ports inputs s position end).sent)
        (sends_by ch.from.port (sent_at last.time r.sends))) }
{}

/// Where a null message is due on a channel, the transcript up to it is the transcript before it and then that
/// null message, which puts the timer off; every other transcript of the component stays.
pub fn a_transcript_grows_by_a_null_message<S>()
    ensures own { (b : Behaviour S) (ports : ℕ) (inputs : ℕ → List Msg) (s : S)
        (position : Position) (u end : ℕ)
        (kind : PortKind) (ch : Channel) → SendsEvents b
        → is_reached position (sync_key u ch.from.port) ≡ false
        → u < end
        → local_upto b ports inputs s (Some (sync_key u ch.from.port)) end
        ≡ local_upto b ports inputs s position end
        → (local_script kind ch (local_upto b ports inputs s position end)
        position end).sync_due ≡ u
        → local_script kind ch (local_upto b ports inputs s (Some (sync_key u ch.from.port)) end)
        (Some (sync_key u ch.from.port)) end
        ≡ with_messages ch u (local_script kind ch
        (local_upto b ports inputs s position end) position end)
        (null_message ch u ∷ []) }
    ensures others { (b : Behaviour S) (ports : ℕ) (inputs : ℕ → List Msg) (s : S)
        (position : Position) (u port end : ℕ)
        (kind : PortKind) (ch : Channel) → SendsEvents b
        → is_reached position (sync_key u port) ≡ false → u < end
        → local_upto b ports inputs s (Some (sync_key u port)) end
        ≡ local_upto b ports inputs s position end
        → IsBeforeTimer (sync_key u port) ch
        (local_script kind ch (local_upto b ports inputs s position end) position end)
        → local_script kind ch (local_upto b ports inputs s (Some (sync_key u port)) end)
        (Some (sync_key u port)) end
        ≡ local_script kind ch (local_upto b ports inputs s position end) position end }
{}

/// A message that comes in after the position changes nothing of the run, and goes to the end of its port's
/// inbox.
pub fn a_message_received_waits_in_its_inbox<S>()
    ensures run { (b : Behaviour S) (ports : ℕ) (inputs handled inbox : ℕ → List Msg) (s : S)
        (position : Position) (end port : ℕ)
        (m : Msg) → AreInboxes position ports inputs handled inbox
        → ComesAfter position inputs port m
        → local_upto b ports (with_port port (inputs port ++ m ∷ []) inputs) s position end
        ≡ local_upto b ports inputs s position end }
    ensures inboxes { (ports : ℕ) (inputs handled inbox : ℕ → List Msg) (position : Position)
        (port : ℕ) (m : Msg)
        → AreInboxes position ports inputs handled inbox → ComesAfter position inputs port m
        → AreInboxes position ports (with_port port (inputs port ++ m ∷ []) inputs) handled
        (with_port port (inbox port ++ m ∷ []) inbox) }
{}
