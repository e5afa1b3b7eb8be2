ghost use Rattle.std.specs.Prelude.{◌≡◌, length, IfOk};
ghost use Rattle.field_layout.specs.Layout.{fault_named, first_fault};
ghost use Rattle.pcie_proto.specs.Refusals.{access_refusal, fault_of};
ghost use Rattle.pcie_proto.specs.FromDevice as dev;
ghost use Rattle.pcie_proto.specs.FromHost as host;

use crate::from_device::{DevMsg, level_fields};
use crate::from_host::HostMsg;
use crate::pcie_bad::PcieBad;
use access_proto::Operation;
use field_layout::u8_at;
use std::alloc::Global;

/// The message from a device that a type, 48 bytes of fields and a payload are.
pub fn read_dev(alloc: Global, ty: u8, fields: &[u8], payload: &[u8]) -> Result<DevMsg, PcieBad>
    requires { length fields.now ≡ 48 }
    // What is read is spelled so.
    ensures found { IfOk result (λ message. dev.IsSpelled message ty fields.now payload.now) }
    // What is spelled so is read, unless memory runs out.
    ensures only { dev.ReadsSpelled result ty fields.now payload.now }
    // Each refusal comes exactly where it is the first fault, unless memory runs out.
    ensures refused { fault_named fault_of result ≡ dev.refusal ty fields.now payload.now }
{
    parse_dev(alloc, ty, fields, payload)
}

/// The message from a host that a type, 48 bytes of fields and a payload are.
pub fn read_host(alloc: Global, ty: u8, fields: &[u8], payload: &[u8]) -> Result<HostMsg, PcieBad>
    requires { length fields.now ≡ 48 }
    // What is read is spelled so.
    ensures found { IfOk result (λ message. host.IsSpelled message ty fields.now payload.now) }
    // What is spelled so is read, unless memory runs out.
    ensures only { host.ReadsSpelled result ty fields.now payload.now }
    // Each refusal comes exactly where it is the first fault, unless memory runs out.
    ensures refused { fault_named fault_of result ≡ host.refusal ty fields.now payload.now }
{
    parse_host(alloc, ty, fields, payload)
}

fn parse_dev(alloc: Global, ty: u8, fields: &[u8], payload: &[u8]) -> Result<DevMsg, PcieBad>
    requires { length fields.now ≡ 48 }
    ensures found { IfOk result (λ message. dev.IsSpelled message ty fields.now payload.now) }
    ensures refused { fault_named fault_of result ≡ dev.refusal ty fields.now payload.now }
{
    match ty {
        0x40 => dev_access(alloc, Operation::Read, fields, payload),
        0x41 => dev_access(alloc, Operation::Write, fields, payload),
        0x42 => level(fields, payload),
        0x43 => dev_access(alloc, Operation::ReadDone, fields, payload),
        0x44 => dev_access(alloc, Operation::WriteDone, fields, payload),
        _ => Err(PcieBad::UnknownType),
    }
}

fn dev_access(
    alloc: Global,
    operation: Operation,
    fields: &[u8],
    payload: &[u8],
) -> Result<DevMsg, PcieBad>
    requires { length fields.now ≡ 48 }
    ensures found { IfOk result (λ m. dev.IsSpelled m (dev.type_at operation) fields.now payload.now) }
    ensures refused { fault_named fault_of result ≡ access_refusal operation fields.now payload.now }
{
    let access = access_proto::read(alloc, operation, fields, payload)?;
    Ok(DevMsg::of(access))
}

fn level(fields: &[u8], payload: &[u8]) -> Result<DevMsg, PcieBad>
    requires { length fields.now ≡ 48 }
    ensures found { IfOk result (λ message. dev.IsSpelled message 0x42 fields.now payload.now) }
    ensures refused { fault_named fault_of result ≡ first_fault (dev.level_faults fields.now payload.now) }
{
    if !payload.is_empty() {
        return Err(PcieBad::LengthDiffers);
    }
    let number = u8_at(fields, 0);
    if number > 1 {
        return Err(PcieBad::FieldNotZero);
    }
    if fields != &level_fields(number)[..] {
        return Err(PcieBad::FieldNotZero);
    }
    Ok(DevMsg::Level { high: number == 1 })
}

fn parse_host(alloc: Global, ty: u8, fields: &[u8], payload: &[u8]) -> Result<HostMsg, PcieBad>
    requires { length fields.now ≡ 48 }
    ensures found { IfOk result (λ message. host.IsSpelled message ty fields.now payload.now) }
    ensures refused { fault_named fault_of result ≡ host.refusal ty fields.now payload.now }
{
    match ty {
        0x60 => request(alloc, Operation::Read, fields, payload),
        0x61 => request(alloc, Operation::Write, fields, payload),
        0x62 => host_access(alloc, Operation::ReadDone, fields, payload),
        0x63 => host_access(alloc, Operation::WriteDone, fields, payload),
        _ => Err(PcieBad::UnknownType),
    }
}

fn request(
    alloc: Global,
    operation: Operation,
    fields: &[u8],
    payload: &[u8],
) -> Result<HostMsg, PcieBad>
    requires { length fields.now ≡ 48 }
    ensures found { IfOk result (λ m. host.IsSpelled m (host.type_at operation) fields.now payload.now) }
    ensures refused { fault_named fault_of result ≡ host.request_refusal operation fields.now payload.now }
{
    if u8_at(fields, 18) != 0 {
        return Err(PcieBad::BadBar);
    }
    host_access(alloc, operation, fields, payload)
}

fn host_access(
    alloc: Global,
    operation: Operation,
    fields: &[u8],
    payload: &[u8],
) -> Result<HostMsg, PcieBad>
    requires { length fields.now ≡ 48 }
    ensures found { IfOk result (λ m. host.IsSpelled m (host.type_at operation) fields.now payload.now) }
    ensures refused { fault_named fault_of result ≡ access_refusal operation fields.now payload.now }
{
    let access = access_proto::read(alloc, operation, fields, payload)?;
    Ok(HostMsg::of(access))
}
