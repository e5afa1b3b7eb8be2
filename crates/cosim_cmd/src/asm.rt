//! The command `asm`: the bytes of a source.
ghost use Rattle.std.specs.Prelude.{IfOk, IfErr};
ghost use Rattle.cosim_cmd.specs.Asm.{IsAssembled, IsNoProgram};
ghost use Rattle.cosim_cmd.specs.Refusals.{IsFault};

use crate::line::asm_line;
use crate::refusal::Fault;
use cs_base::Octets;
use rv32_asm::{AsmBad, assemble};
use std::alloc::Global;

/// The output of `asm` on a source.
pub fn assembled(alloc: Global, source: &[u8]) -> Result<Octets, Fault>
    ensures assembled { IfOk result (IsAssembled source.now) }
    ensures refused { IfErr result (IsFault (IsNoProgram source.now)) }
{
    match assemble(alloc, source) {
        Ok(bytes) => Ok(bytes),
        Err(AsmBad::At { line, reason }) => Err(Fault::Line(asm_line(alloc, line, reason)?)),
        Err(AsmBad::NoMemory) => Err(Fault::NoMemory),
    }
}
