use crate::message::{Body, Msg};
use crate::msg_bad::{MsgBad, UpperBad};
use crate::owner::word_of;
use crate::reading::decode;
use crate::writing::encode;
use access_proto::{Data, Length};
use cs_base::items::Octets;
use cs_base::port_kind::PortKind;
use cs_base::time::Time;
use eth_proto::{EthBad, EthMsg};
use mem_proto::{MemBad, MemMsg};
use pcie_proto::{Bar, DevMsg, HostMsg, PcieBad};
use sb_intro::IntroBad;
use std::test::Fail;

fn is_sent<T: Send>() {}

// A header of zeros with these bytes at these places.
fn header(changes: [(usize, u8); 6]) -> [u8; 64] {
    let mut bytes = [0; 64];
    for (place, value) in changes {
        if let Some(byte) = bytes.get_mut(place) {
            *byte = value;
        }
    }
    bytes
}

fn length(bytes: u32) -> Result<Length, Fail> {
    Ok(Length::new(bytes).ok_or("a length")?)
}

fn data(rt: &HostRuntime, bytes: &[u8]) -> Result<Data, Fail> {
    let mut copied = Octets::new(rt.alloc());
    copied.append(bytes)?;
    Ok(Data::new(copied).ok_or("data")?)
}

// A body is encoded, decoded, copied and encoded again, with the same bytes.
fn comes_back(rt: &HostRuntime, kind: PortKind, body: Body) -> Result<(), Fail> {
    let at = Time(500);
    let mut once = Octets::new(rt.alloc());
    encode(&Msg { at, body }, &mut once)?;
    let back = decode(rt.alloc(), kind, once.as_slice())?;
    let again = Msg {
        at,
        body: back.body.copy()?,
    };
    let mut twice = Octets::new(rt.alloc());
    encode(&again, &mut twice)?;
    if twice.as_slice() != once.as_slice() {
        Err("other bytes")?;
    }
    Ok(())
}

fn dev_write(rt: &HostRuntime) -> Result<Body, Fail> {
    let bytes = data(rt, &[0xab, 0xcd])?;
    Ok(Body::Dev(DevMsg::Write {
        id: u64::MAX,
        addr: 7,
        bytes,
    }))
}

fn host_read() -> Result<Body, Fail> {
    let len = length(4)?;
    Ok(Body::Host(HostMsg::Read {
        id: u64::MAX,
        bar: Bar::first(),
        offset: 8,
        len,
    }))
}

fn mem_read() -> Result<Body, Fail> {
    let len = length(4)?;
    Ok(Body::Mem(MemMsg::Read {
        id: 1,
        addr: 12,
        len,
    }))
}

fn mem_done(rt: &HostRuntime) -> Result<Body, Fail> {
    let bytes = data(rt, &[0xab])?;
    Ok(Body::Mem(MemMsg::ReadDone { id: 2, bytes }))
}

fn frame(rt: &HostRuntime) -> Result<Body, Fail> {
    let mut frame = Octets::new(rt.alloc());
    frame.append(&[0xab; 14])?;
    Ok(Body::Eth(EthMsg::new(frame).ok_or("a frame")?))
}

#[test]
fn there_and_back(rt: HostRuntime) -> Result<(), Fail> {
    is_sent::<Msg>();
    comes_back(&rt, PortKind::PcieHost, dev_write(&rt)?)?;
    comes_back(&rt, PortKind::PcieDev, host_read()?)?;
    comes_back(&rt, PortKind::MemHost, mem_done(&rt)?)?;
    comes_back(&rt, PortKind::Eth, frame(&rt)?)
}

#[test]
fn bytes_of_a_null_message(rt: HostRuntime) -> Result<(), Fail> {
    let at = Time(1500);
    let mut out = Octets::new(rt.alloc());
    encode(
        &Msg {
            at,
            body: Body::Sync,
        },
        &mut out,
    )?;
    let bytes = header([(48, 0xdc), (49, 0x05), (63, 0x80), (0, 0), (0, 0), (0, 0)]);
    assert!(rt; out.as_slice() == &bytes[..]);
    assert!(rt; decode(rt.alloc(), PortKind::MemHost, &bytes)?.at == at);
    Ok(())
}

#[test]
fn bytes_of_a_read(rt: HostRuntime) -> Result<(), Fail> {
    let body = mem_read()?;
    assert!(rt; word_of(body.ty(), true) == 0xd0 << 56);
    let at = Time(500);
    let mut out = Octets::new(rt.alloc());
    encode(&Msg { at, body }, &mut out)?;
    let bytes = header([(0, 1), (8, 12), (16, 4), (48, 0xf4), (49, 0x01), (63, 0xd0)]);
    assert!(rt; out.as_slice() == &bytes[..]);
    Ok(())
}

/// The kind of a port, what two bytes of a header are, and why it is no message.
const REFUSALS: [(PortKind, [(usize, u8); 2], MsgBad); 10] = [
    (
        PortKind::Eth,
        [(60, 1), (63, 0x80)],
        MsgBad::ReservedNotZero,
    ),
    (PortKind::Eth, [(60, 1), (63, 0x00)], MsgBad::OwnerClear),
    (PortKind::Eth, [(60, 1), (63, 0xd0)], MsgBad::TypeNotOfKind),
    (
        PortKind::MemHost,
        [(16, 4), (63, 0xd0)],
        MsgBad::TypeNotOfKind,
    ),
    (
        PortKind::Eth,
        [(0, 1), (63, 0x80)],
        MsgBad::Upper(UpperBad::Sync),
    ),
    (
        PortKind::Eth,
        [(0, 2), (63, 0x81)],
        MsgBad::Upper(UpperBad::Intro(IntroBad::Version)),
    ),
    (
        PortKind::MemDev,
        [(0, 1), (63, 0xd0)],
        MsgBad::Upper(UpperBad::Mem(MemBad::LengthRange)),
    ),
    (
        PortKind::PcieDev,
        [(18, 1), (63, 0xe0)],
        MsgBad::Upper(UpperBad::Pcie(PcieBad::BadBar)),
    ),
    (
        PortKind::PcieHost,
        [(0, 2), (63, 0xc2)],
        MsgBad::Upper(UpperBad::Pcie(PcieBad::FieldNotZero)),
    ),
    (
        PortKind::Eth,
        [(0, 14), (63, 0xf0)],
        MsgBad::Upper(UpperBad::Eth(EthBad::TooShort)),
    ),
];

#[test]
fn refusals(rt: HostRuntime) {
    for (kind, changes, bad) in REFUSALS {
        let bytes = header([changes[0], changes[1], (48, 1), (48, 1), (48, 1), (48, 1)]);
        assert_eq!(rt; decode(rt.alloc(), kind, &bytes).err(), Some(bad));
    }
    let short = [0; 63];
    assert_eq!(rt;
        decode(rt.alloc(), PortKind::Eth, &short).err(),
        Some(MsgBad::Short)
    );
}
