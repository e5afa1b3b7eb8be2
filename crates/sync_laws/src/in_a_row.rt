ghost use Rattle.std.specs.Prelude.{ℕ, List};
ghost use Rattle.sb_message.specs.declared.message.Msg.{Msg};
ghost use Rattle.device_api.specs.Position.{Position};
ghost use Rattle.sync_rule.specs.declared.runner.Runner.{Runner};
ghost use Rattle.sync_rule.specs.Events.{EventsRan, IsReadyThroughout};
ghost use Rattle.sync_laws.specs.Stands.{Stands};
ghost use Rattle.sync_laws.specs.InARow.{StandsSomewhere};

use device_api::Device;

/// A runner that stands may process events in a row.
pub fn what_stands_is_ready_throughout<V: Device>()
    ensures { (start : V) (position : Position) (received sent : ℕ → List Msg) (r : Runner V)
        → Stands V.behaviour V.settled start position received sent r
        → IsReadyThroughout V.behaviour V.settled r }
{}

/// Events in a row keep it standing.
pub fn events_in_a_row_keep_it_standing<V: Device>()
    ensures { (start : V) (position : Position) (received sent : ℕ → List Msg) (old new : Runner V) (n : ℕ)
        → Stands V.behaviour V.settled start position received sent old → EventsRan V.behaviour old n new
        → StandsSomewhere V.behaviour V.settled start received sent new }
{}
