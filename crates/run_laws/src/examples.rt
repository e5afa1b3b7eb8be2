ghost use Rattle.std.specs.Prelude.{◌≡◌, ℕ, [], ◌∷◌, List, length};
ghost use Rattle.cs_base.specs.Plan.{End};
ghost use Rattle.cs_base.specs.declared.port_kind.PortKind.TheVariants.{Eth};
ghost use Rattle.sb_message.specs.declared.message.Msg.{Msg};
ghost use Rattle.device_api.specs.World.{global_until, logs_of, sends_on};
ghost use Rattle.device_api.specs.Transcript.{transcript, introduction, null_message, bodies, bound_of};
ghost use Rattle.run_laws.specs.LocalRuns.{AreLocalRuns, local_run};
ghost use Rattle.run_laws.specs.TwoBeacons.{sender, two_beacons, broadcasts, there, back, sent_at_time, received_at_time, null_times};

use crate::lift::local_runs_are_the_global_run;
use device_api::Beacon;

/// The runs of two beacons at a link of latency 500, of which the first sends at 1000 and 2000, or both at 1000.
pub fn two_beacons_log_what_they_send_and_receive()
    ensures until_2600 { logs_of (global_until (broadcasts 500 500) 2600)
        ≡ (sent_at_time 1000 ∷ (sent_at_time 2000 ∷ []))
        ∷ ((received_at_time 1500 ∷ (received_at_time 2500 ∷ [])) ∷ []) }
    ensures until_2500 { logs_of (global_until (broadcasts 500 500) 2500)
        ≡ (sent_at_time 1000 ∷ (sent_at_time 2000 ∷ [])) ∷ ((received_at_time 1500 ∷ []) ∷ []) }
    ensures both_send { logs_of
        (global_until (two_beacons (sender 1000 1 1) (sender 1000 1 1) 500 500) 2000)
        ≡ (sent_at_time 1000 ∷ (received_at_time 1500 ∷ []))
        ∷ ((sent_at_time 1000 ∷ (received_at_time 1500 ∷ [])) ∷ []) }
{}

/// The times of the null messages of the first run: one each 500 on both channels, since a frame too is sent
/// just when a null message is.
pub fn a_null_message_is_sent_each_interval()
    ensures with_two_frames { null_times (there 500 500)
        (transcript Eth (there 500 500)
        (sends_on (there 500 500) (global_until (broadcasts 500 500) 2600))
        2600)
        ≡ 0 ∷ (500 ∷ (1000 ∷ (1500 ∷ (2000 ∷ (2500 ∷ []))))) }
    ensures on_the_quiet_channel { null_times (back 500 500)
        (transcript Eth (back 500 500)
        (sends_on (back 500 500) (global_until (broadcasts 500 500) 2600))
        2600)
        ≡ 0 ∷ (500 ∷ (1000 ∷ (1500 ∷ (2000 ∷ (2500 ∷ []))))) }
{}

/// A channel without sends: its introduction comes first, then a null message each interval, and whoever has
/// received them all has heard as far as the last of them arrives.
pub fn a_quiet_channel_carries_its_introduction_and_null_messages()
    ensures messages { transcript Eth (back 500 500) [] 1000
        ≡ introduction Eth (back 500 500)
        ∷ (null_message (back 500 500) 0 ∷ (null_message (back 500 500) 500 ∷ [])) }
    ensures no_events { bodies (transcript Eth (back 500 500) [] 2600) ≡ [] }
    ensures heard { bound_of (transcript Eth (back 500 500) [] 2600) ≡ 3000 }
{}

/// With latency 700 and interval 300 each frame puts the timer off, and the quiet channel carries nine null
/// messages.
pub fn a_frame_puts_the_timer_off()
    ensures logs { logs_of (global_until (broadcasts 700 300) 2600)
        ≡ (sent_at_time 1000 ∷ (sent_at_time 2000 ∷ [])) ∷ ((received_at_time 1700 ∷ []) ∷ []) }
    ensures with_two_frames { null_times (there 700 300)
        (transcript Eth (there 700 300)
        (sends_on (there 700 300) (global_until (broadcasts 700 300) 2600))
        2600)
        ≡ 0 ∷ (300 ∷ (600 ∷ (900 ∷ (1300 ∷ (1600 ∷ (1900 ∷ (2300 ∷ []))))))) }
    ensures two_sends { length
        (sends_on (there 700 300) (global_until (broadcasts 700 300) 2600))
        ≡ 2 }
    ensures nine_on_the_quiet_channel { null_times (back 700 300)
        (transcript Eth (back 700 300)
        (sends_on (back 700 300) (global_until (broadcasts 700 300) 2600))
        2600)
        ≡ 0 ∷ (300 ∷ (600 ∷ (900 ∷ (1200 ∷ (1500 ∷ (1800 ∷ (2100 ∷ (2400 ∷ [])))))))) }
{}

/// Each of the two beacons by itself, on what it received, logs what it logs in the run of both.
pub fn each_beacon_by_itself_logs_the_same()
    ensures first { (sent received : End → List Msg)
        → AreLocalRuns (broadcasts 500 500) sent received 2600
        → (local_run (broadcasts 500 500) received 0 (sender 1000 1000 2) 2600).log
        ≡ sent_at_time 1000 ∷ (sent_at_time 2000 ∷ []) }
    ensures second { (sent received : End → List Msg)
        → AreLocalRuns (broadcasts 500 500) sent received 2600
        → (local_run (broadcasts 500 500) received 1 (sender 0 1 0) 2600).log
        ≡ received_at_time 1500 ∷ (received_at_time 2500 ∷ []) }
{
    two_beacons_log_what_they_send_and_receive();
    local_runs_are_the_global_run::<Beacon>();
}
