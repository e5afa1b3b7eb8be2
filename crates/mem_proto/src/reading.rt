ghost use Rattle.std.specs.Prelude.{◌≡◌, length, IfOk};
ghost use Rattle.field_layout.specs.Layout.{fault_named};
ghost use Rattle.mem_proto.specs.Spelling.{IsSpelled, ReadsSpelled, type_at, refusal, access_refusal, fault_of};

use crate::mem_bad::MemBad;
use crate::message::MemMsg;
use access_proto::Operation;
use std::alloc::Global;

/// The message that a type, 48 bytes of fields and a payload are.
pub fn read(alloc: Global, ty: u8, fields: &[u8], payload: &[u8]) -> Result<MemMsg, MemBad>
    requires { length fields.now ≡ 48 }
    // What is read is spelled so.
    ensures found { IfOk result (λ message. IsSpelled message ty fields.now payload.now) }
    // What is spelled so is read, unless memory runs out.
    ensures only { ReadsSpelled result ty fields.now payload.now }
    // Each refusal comes exactly where it is the first fault, unless memory runs out.
    ensures refused { fault_named fault_of result ≡ refusal ty fields.now payload.now }
{
    parse(alloc, ty, fields, payload)
}

fn parse(alloc: Global, ty: u8, fields: &[u8], payload: &[u8]) -> Result<MemMsg, MemBad>
    requires { length fields.now ≡ 48 }
    ensures found { IfOk result (λ message. IsSpelled message ty fields.now payload.now) }
    ensures refused { fault_named fault_of result ≡ refusal ty fields.now payload.now }
{
    match ty {
        0x50 => read_as(alloc, Operation::Read, fields, payload),
        0x51 => read_as(alloc, Operation::Write, fields, payload),
        0x52 => read_as(alloc, Operation::ReadDone, fields, payload),
        0x53 => read_as(alloc, Operation::WriteDone, fields, payload),
        _ => Err(MemBad::UnknownType),
    }
}

fn read_as(
    alloc: Global,
    operation: Operation,
    fields: &[u8],
    payload: &[u8],
) -> Result<MemMsg, MemBad>
    requires { length fields.now ≡ 48 }
    ensures found { IfOk result (λ message. IsSpelled message (type_at operation) fields.now payload.now) }
    ensures refused { fault_named fault_of result ≡ access_refusal operation fields.now payload.now }
{
    let access = access_proto::read(alloc, operation, fields, payload)?;
    Ok(MemMsg::of(access))
}
