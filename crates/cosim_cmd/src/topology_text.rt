ghost use Rattle.std.specs.Prelude.{IfOk, IfErr};
ghost use Rattle.topology_file.specs.Reading.{IsTopologyText};
ghost use Rattle.cosim_cmd.specs.NoTopology.{IsNoTopology};
ghost use Rattle.cosim_cmd.specs.Refusals.{IsFault};

use crate::line::{toml_line, topology_line};
use crate::refusal::Fault;
use std::alloc::Global;
use topology_file::{TopoBad, Topology};

/// The topology of a text.
pub fn topology(alloc: Global, bytes: &[u8]) -> Result<Topology, Fault>
    ensures spelled { IfOk result (λ topology. IsTopologyText bytes.now topology) }
    ensures refused { IfErr result (IsFault (IsNoTopology bytes.now)) }
{
    match topology_file::read(alloc, bytes) {
        Ok(topology) => Ok(topology),
        Err(TopoBad::NoMemory) => Err(Fault::NoMemory),
        Err(TopoBad::Toml) => Err(Fault::Line(toml_line(alloc)?)),
        Err(TopoBad::At { reason, entry }) => Err(Fault::Line(topology_line(
            alloc, reason, entry,
        )?)),
    }
}
