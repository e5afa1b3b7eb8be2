//! What the pair of beacons sends over its two channels, byte by byte, from the rules of messages and frames.
use cs_base::Octets;
use std::alloc::Global;
use std::test::Fail;

/// The bytes that go over the two channels of the pair.
#[derive(Debug, Drop)]
pub(super) struct Streams {
    /// Those from `a` to `b`.
    pub(super) first: Octets,
    /// Those from `b` to `a`.
    pub(super) second: Octets,
}

/// How an introduction's fields begin: version 1, kind 0, latency 500, interval 500.
const INTRODUCTION: [u8; 24] = [
    1, 0, 0, 0, 0, 0, 0, 0, 0xf4, 1, 0, 0, 0, 0, 0, 0, 0xf4, 1, 0, 0, 0, 0, 0, 0,
];

/// How each frame begins: to all, from `a`, and the type.
const ADDRESSES: [u8; 14] = [255, 255, 255, 255, 255, 255, 2, 0, 0, 0, 0, 1, 0x88, 0xb5];

/// A frame up to its payload: the length, the fields, the timestamp, zeros, and the type with the owner's bit.
fn message(out: &mut Octets, length: u8, fields: &[u8], at: u64, ty: u8) -> Result<(), Fail> {
    out.append(&[length, 0, 0, 0])?;
    out.append(fields)?;
    for _ in fields.len()..48 {
        out.push(0)?;
    }
    out.append(&at.to_le_bytes())?;
    out.append(&[0, 0, 0, 0, 0, 0, 0, ty])?;
    Ok(())
}

fn sync(out: &mut Octets, at: u64) -> Result<(), Fail> {
    message(out, 64, &[], at, 0x80)
}

/// A packet of 60 bytes, all of this value behind the addresses.
fn packet(out: &mut Octets, at: u64, byte: u8) -> Result<(), Fail> {
    message(out, 124, &[60], at, 0xf0)?;
    out.append(&ADDRESSES)?;
    for _ in 14..60u32 {
        out.push(byte)?;
    }
    Ok(())
}

fn first(alloc: Global) -> Result<Octets, Fail> {
    let mut out = Octets::new(alloc);
    message(&mut out, 64, &INTRODUCTION, 0, 0x81)?;
    for at in [500, 1000, 1500] {
        sync(&mut out, at)?;
    }
    packet(&mut out, 1500, 0)?;
    for at in [2000, 2500] {
        sync(&mut out, at)?;
    }
    packet(&mut out, 2500, 1)?;
    sync(&mut out, 3000)?;
    Ok(out)
}

fn second(alloc: Global) -> Result<Octets, Fail> {
    let mut out = Octets::new(alloc);
    message(&mut out, 64, &INTRODUCTION, 0, 0x81)?;
    for at in [500, 1000, 1500, 2000, 2500, 3000] {
        sync(&mut out, at)?;
    }
    Ok(out)
}

/// What goes over the pair's channels in a run to its end.
pub(super) fn whole_streams(alloc: Global) -> Result<Streams, Fail> {
    Ok(Streams {
        first: first(alloc)?,
        second: second(alloc)?,
    })
}

/// These bytes with another one at a place.
pub(super) fn with_byte(alloc: Global, bytes: &[u8], at: usize, byte: u8) -> Result<Octets, Fail> {
    let mut changed = Octets::new(alloc);
    for (place, one) in bytes.iter().enumerate() {
        changed.push(if place == at { byte } else { *one })?;
    }
    Ok(changed)
}
