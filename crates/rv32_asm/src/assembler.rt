ghost use Rattle.std.specs.Prelude.{◌≡◌, Ok, IfOk, IfErr};
ghost use Rattle.rv32_asm.specs.Assembled.{assembled, IsRefusal};
ghost use Rattle.rv32_asm.specs.Decoding.{IsDecoded};

use crate::emit::append_line;
use crate::faults::fault;
use crate::layout::lay_out;
use crate::reason::AsmBad;
use cs_base::Octets;
use std::alloc::Global;

/// The bytes of a source, the first of which stands at 0x8000_0000.
///
/// Instructions are those of the RISC-V unprivileged ISA (RV32I, M, Zicsr, Zifencei), with MRET and WFI of the privileged
/// ISA, and `li`, `la`, `j`, `nop`, `mv` and `ret` of its assembler's pseudoinstructions. It takes time linear in the
/// source and the bytes.
///
/// # Errors
///
/// [`AsmBad::At`] for the first line at fault, with its reason of the least number, and [`AsmBad::NoMemory`] where memory
/// is wanting.
pub fn assemble(alloc: Global, source: &[u8]) -> Result<Octets, AsmBad>
    ensures bytes { IfOk result (λ bytes. assembled source.now ≡ Ok bytes) }
    ensures refusal { IfErr result (IsRefusal source.now) }

    // At the address of each line stand the words of the instructions that it names.
    ensures decoded { IfOk result (IsDecoded source.now) }
{
    let layout = lay_out(alloc, source)?;
    let mut out = Octets::new(alloc);
    let mut number = 0;
    for line in layout.lines.as_slice() {
        number += 1;
        if let Some(reason) = fault(line, &layout.labels) {
            return Err(AsmBad::At {
                line: number,
                reason,
            });
        }
        append_line(line, &layout.labels, &mut out)?;
    }
    Ok(out)
}
