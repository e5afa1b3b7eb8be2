//! The text of what a run leaves.
ghost use Rattle.std.specs.Prelude.{◌≡◌, List, IfOk};
ghost use Rattle.device_set.specs.declared.any_device.AnyDevice.{AnyDevice};
ghost use Rattle.cosim_cmd.specs.Model.{run_text};
ghost use Rattle.cosim_cmd.specs.Outcomes.{IsOutcomeOf};

use crate::names::names_of;
use channel_stats::channel_lines;
use cs_base::{NoMemory, Octets};
use device_api::Outcome;
use log_join::join;
use std::alloc::Global;
use topology_file::Topology;

/// The joined log of what the run of a topology's devices left, and where they are asked for, the statistics after it.
pub fn outcome_text(
    alloc: Global,
    stats: bool,
    topology: &Topology,
    outcome: &Outcome,
) -> Result<Octets, NoMemory>
    requires { (devices : List AnyDevice) × IsOutcomeOf topology.now devices outcome.now }
    ensures { IfOk result (λ text. (devices : List AnyDevice)
        → IsOutcomeOf topology.now devices outcome.now
        → text ≡ run_text stats topology.now devices) }
{
    let names = names_of(alloc, topology.components.as_slice())?;
    let mut text = join(alloc, &outcome.logs, names.as_slice())?;
    if !stats {
        return Ok(text);
    }
    let links = topology.wiring.links.as_slice();
    let lines = channel_lines(alloc, names.as_slice(), links, outcome.counts.as_slice())?;
    text.append(lines.as_slice())?;
    Ok(text)
}
