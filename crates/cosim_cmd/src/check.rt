//! The command `check`: the topology with every key of every entry written out.
ghost use Rattle.std.specs.Prelude.{IfOk, IfErr};
ghost use Rattle.cosim_cmd.specs.Check.{IsChecked};
ghost use Rattle.cosim_cmd.specs.NoTopology.{IsNoTopology};
ghost use Rattle.cosim_cmd.specs.Refusals.{IsFault};

use crate::refusal::Fault;
use crate::topology_text::topology;
use cs_base::Octets;
use std::alloc::Global;

/// The output of `check` on a topology text.
pub fn printed(alloc: Global, bytes: &[u8]) -> Result<Octets, Fault>
    ensures checked { IfOk result (IsChecked bytes.now) }
    ensures refused { IfErr result (IsFault (IsNoTopology bytes.now)) }
{
    let topology = topology(alloc, bytes)?;
    Ok(topology_file::print(alloc, &topology)?)
}
