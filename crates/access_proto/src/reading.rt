ghost use Rattle.std.specs.Prelude.{◌≡◌, length, false, IfOk, IfNone, IfSome};
ghost use Rattle.field_layout.specs.Layout.{Holds, entry, number_in, fault_named};
ghost use Rattle.access_proto.specs.Lengths.{is_length};
ghost use Rattle.access_proto.specs.Spelling.{IsSpelled, operation_of, length_field, refusal, fault_of, ReadsSpelled};

use crate::access::{Access, Operation};
use crate::access_bad::AccessBad;
use crate::data::Data;
use crate::fields::{bytes_fields, id_fields, request_fields};
use crate::length::Length;
use field_layout::{u16_at, u64_at};
use std::alloc::Global;

/// The access that a message of this operation, with these 48 bytes of fields and this payload, is.
pub fn read(
    alloc: Global,
    operation: Operation,
    fields: &[u8],
    payload: &[u8],
) -> Result<Access, AccessBad>
    requires { length fields.now ≡ 48 }
    // What is read is of this operation, and is spelled so.
    ensures operation { IfOk result (λ access. operation_of access ≡ operation) }
    ensures found { IfOk result (λ access. IsSpelled access fields.now payload.now) }
    // What is spelled so is read, unless memory runs out.
    ensures only { ReadsSpelled result operation fields.now payload.now }
    // Each refusal comes exactly where it is the first fault, unless memory runs out.
    ensures refused { fault_named fault_of result ≡ refusal operation fields.now payload.now }
{
    parse(alloc, operation, fields, payload)
}

fn parse(
    alloc: Global,
    operation: Operation,
    fields: &[u8],
    payload: &[u8],
) -> Result<Access, AccessBad>
    requires { length fields.now ≡ 48 }
    ensures operation { IfOk result (λ access. operation_of access ≡ operation) }
    ensures found { IfOk result (λ access. IsSpelled access fields.now payload.now) }
    ensures refused { fault_named fault_of result ≡ refusal operation fields.now payload.now }
{
    match operation {
        Operation::Read => read_read(fields, payload),
        Operation::Write => read_write(alloc, fields, payload),
        Operation::ReadDone => read_read_done(alloc, fields, payload),
        Operation::WriteDone => read_write_done(fields, payload),
    }
}

fn length_at(fields: &[u8]) -> Option<Length>
    requires { length fields.now ≡ 48 }
    ensures none { IfNone result (is_length (number_in fields.now length_field) ≡ false) }
    ensures value { IfSome result (λ len. len ≡ number_in fields.now length_field) }
    ensures held { IfSome result (λ len. Holds fields.now (entry 16 2 len)) }
{
    Length::new(u32::from(u16_at(fields, 16)))
}

fn read_read(fields: &[u8], payload: &[u8]) -> Result<Access, AccessBad>
    requires { length fields.now ≡ 48 }
    ensures operation { IfOk result (λ access. operation_of access ≡ Operation.Read) }
    ensures found { IfOk result (λ access. IsSpelled access fields.now payload.now) }
    ensures refused { fault_named fault_of result ≡ refusal Operation.Read fields.now payload.now }
{
    let Some(len) = length_at(fields) else {
        return Err(AccessBad::LengthRange);
    };
    if !payload.is_empty() {
        return Err(AccessBad::LengthDiffers);
    }
    let id = u64_at(fields, 0);
    let addr = u64_at(fields, 8);
    if fields != &request_fields(id, addr, len)[..] {
        return Err(AccessBad::FieldNotZero);
    }
    Ok(Access::Read { id, addr, len })
}

fn read_write(alloc: Global, fields: &[u8], payload: &[u8]) -> Result<Access, AccessBad>
    requires { length fields.now ≡ 48 }
    ensures operation { IfOk result (λ access. operation_of access ≡ Operation.Write) }
    ensures found { IfOk result (λ access. IsSpelled access fields.now payload.now) }
    ensures refused { fault_named fault_of result ≡ refusal Operation.Write fields.now payload.now }
{
    let Some(len) = length_at(fields) else {
        return Err(AccessBad::LengthRange);
    };
    if payload.len() != len.bytes() as usize {
        return Err(AccessBad::LengthDiffers);
    }
    let id = u64_at(fields, 0);
    let addr = u64_at(fields, 8);
    if fields != &request_fields(id, addr, len)[..] {
        return Err(AccessBad::FieldNotZero);
    }
    let bytes = Data::from_slice(alloc, payload)?;
    Ok(Access::Write { id, addr, bytes })
}

fn read_read_done(alloc: Global, fields: &[u8], payload: &[u8]) -> Result<Access, AccessBad>
    requires { length fields.now ≡ 48 }
    ensures operation { IfOk result (λ access. operation_of access ≡ Operation.ReadDone) }
    ensures found { IfOk result (λ access. IsSpelled access fields.now payload.now) }
    ensures refused { fault_named fault_of result ≡ refusal Operation.ReadDone fields.now payload.now }
{
    let Some(len) = length_at(fields) else {
        return Err(AccessBad::LengthRange);
    };
    if payload.len() != len.bytes() as usize {
        return Err(AccessBad::LengthDiffers);
    }
    let id = u64_at(fields, 0);
    if fields != &bytes_fields(id, len)[..] {
        return Err(AccessBad::FieldNotZero);
    }
    let bytes = Data::from_slice(alloc, payload)?;
    Ok(Access::ReadDone { id, bytes })
}

fn read_write_done(fields: &[u8], payload: &[u8]) -> Result<Access, AccessBad>
    requires { length fields.now ≡ 48 }
    ensures operation { IfOk result (λ access. operation_of access ≡ Operation.WriteDone) }
    ensures found { IfOk result (λ access. IsSpelled access fields.now payload.now) }
    ensures refused { fault_named fault_of result ≡ refusal Operation.WriteDone fields.now payload.now }
{
    if !payload.is_empty() {
        return Err(AccessBad::LengthDiffers);
    }
    let id = u64_at(fields, 0);
    if fields != &id_fields(id)[..] {
        return Err(AccessBad::FieldNotZero);
    }
    Ok(Access::WriteDone { id })
}
