ghost use Rattle.std.specs.Prelude.{◌≡◌, ◌↔◌, IsTrue, length, IfOk, IfErr, true};
ghost use Rattle.field_layout.specs.Layout.{fault_named};
ghost use Rattle.sb_message.specs.Spelling.{Spells, SpellsBody, ReadsSpelled, upper_refusal, refusal, fault_of, NamesFault};
ghost use Rattle.sb_message.specs.Types.{is_type_of, is_event_type_of, is_known_type};

use crate::message::{Body, Msg};
use crate::msg_bad::{MsgBad, UpperBad};
use crate::owner::OWNER_BIT;
use cs_base::port_kind::PortKind;
use cs_base::time::Time;
use field_layout::{u8_at, u64_at};
use std::alloc::Global;

const HEADER_BYTES: usize = 64;

/// The message that the bytes spell, for a receiver of this kind.
pub fn decode(alloc: Global, kind: PortKind, bytes: &[u8]) -> Result<Msg, MsgBad>
    // What is decoded is spelled so.
    ensures found { IfOk result (λ message. Spells kind message bytes.now) }
    // What is spelled so is decoded, unless memory runs out.
    ensures only { ReadsSpelled result kind bytes.now }
    // Each refusal comes exactly where it is the first fault, unless memory runs out.
    ensures refused { fault_named fault_of result ≡ refusal kind bytes.now }
    // The body was tried for its own type alone, and want of memory is a refusal of its own.
    ensures upper { IfErr result NamesFault }
{
    parse(alloc, kind, bytes)
}

fn parse(alloc: Global, kind: PortKind, bytes: &[u8]) -> Result<Msg, MsgBad>
    ensures found { IfOk result (λ message. Spells kind message bytes.now) }
    ensures refused { fault_named fault_of result ≡ refusal kind bytes.now }
{
    if bytes.len() < HEADER_BYTES {
        return Err(MsgBad::Short);
    }
    let last = u8_at(bytes, 63);
    if last < OWNER_BIT {
        return Err(MsgBad::OwnerClear);
    }
    let ty = last - OWNER_BIT;
    if !is_type_of(kind, ty) {
        return Err(MsgBad::TypeNotOfKind);
    }
    if &bytes[56..63] != &[0; 7][..] {
        return Err(MsgBad::ReservedNotZero);
    }
    let at = Time(u64_at(bytes, 48));
    let body = read_body(alloc, ty, &bytes[0..48], &bytes[HEADER_BYTES..])?;
    Ok(Msg { at, body })
}

fn is_type_of(kind: PortKind, ty: u8) -> bool
    ensures { result ≡ is_type_of kind ty }
{
    match ty {
        0x00 | 0x01 => true,
        _ => is_event_type_of(kind, ty),
    }
}

fn is_event_type_of(kind: PortKind, ty: u8) -> bool
    ensures { result ≡ is_event_type_of kind ty }
{
    match ty {
        0x40..=0x44 => matches!(kind, PortKind::PcieHost),
        0x60..=0x63 => matches!(kind, PortKind::PcieDev),
        0x50..=0x53 => {
            if ty <= 0x51 {
                matches!(kind, PortKind::MemDev)
            } else {
                matches!(kind, PortKind::MemHost)
            }
        }
        _ => ty == 0x70 && matches!(kind, PortKind::Eth),
    }
}

fn read_body(alloc: Global, ty: u8, fields: &[u8], payload: &[u8]) -> Result<Body, MsgBad>
    requires whole { length fields.now ≡ 48 }
    requires known { is_known_type ty ≡ true }
    ensures found { IfOk result (λ body. SpellsBody body ty fields.now payload.now) }
    ensures refused { fault_named fault_of result ≡ upper_refusal ty fields.now payload.now }
{
    match ty {
        0x00 => read_sync(fields, payload),
        0x01 => {
            let intro = sb_intro::read(0x01, fields, payload)?;
            Ok(Body::Intro(intro))
        }
        0x40..=0x44 => {
            let message = pcie_proto::read_dev(alloc, ty, fields, payload)?;
            Ok(Body::Dev(message))
        }
        0x60..=0x63 => {
            let message = pcie_proto::read_host(alloc, ty, fields, payload)?;
            Ok(Body::Host(message))
        }
        0x50..=0x53 => {
            let message = mem_proto::read(alloc, ty, fields, payload)?;
            Ok(Body::Mem(message))
        }
        _ => {
            let message = eth_proto::read(alloc, 0x70, fields, payload)?;
            Ok(Body::Eth(message))
        }
    }
}

fn read_sync(fields: &[u8], payload: &[u8]) -> Result<Body, MsgBad>
    requires { length fields.now ≡ 48 }
    ensures found { IfOk result (λ body. SpellsBody body 0 fields.now payload.now) }
    ensures refused { fault_named fault_of result ≡ upper_refusal 0 fields.now payload.now }
{
    if fields != &[0; 48][..] || !payload.is_empty() {
        return Err(MsgBad::Upper(UpperBad::Sync));
    }
    Ok(Body::Sync)
}
