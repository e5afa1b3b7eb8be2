ghost use Rattle.std.specs.Prelude.{ℕ};
ghost use Rattle.device_api.specs.World.{Network};
ghost use Rattle.run_laws.specs.Wired.{IsWired, SendsEvents};
ghost use Rattle.run_laws.specs.LocalRuns.{AreLocalRuns};
ghost use Rattle.run_laws.specs.GlobalMessages.{global_sent, global_received};

/// The global run is made of local runs: where each port sends the transcript of the global run's sends and
/// all of it is received, each component ran by itself on what it received. So there always is what
/// `local_runs_are_the_global_run` speaks of.
pub fn the_global_run_is_one<S>()
    ensures { (net : Network S) (end : ℕ) → IsWired net end → SendsEvents net.behaviour
        → AreLocalRuns net (global_sent net end) (global_received net end) end }
{}
