//! Streams whole, in pieces and with faults: what comes out of them, and why the others are refused.
ghost use Rattle.std.specs.Prelude.{◌≤◌, length};

use crate::{Deframer, FrameBad, frame};
use cs_base::items::Octets;
use cs_base::no_memory::NoMemory;
use cs_base::port_kind::PortKind;
use cs_base::time::Time;
use eth_proto::EthMsg;
use sb_intro::expected;
use sb_message::{Body, Msg, MsgBad};
use std::test::Fail;

const LONGEST: usize = 1_000_000;

// What came out of a stream, as frames again, and its first fault.
#[derive(Drop)]
struct Read {
    frames: Octets,
    fault: Option<FrameBad>,
}

fn add(out: &mut Octets, at: u64, body: Body) -> Result<(), NoMemory> {
    frame(&Msg { at: Time(at), body }, out)
}

fn intro() -> Body {
    Body::Intro(expected(PortKind::Eth, Time(500), Time(500)))
}

fn packet(rt: &HostRuntime) -> Result<Body, Fail> {
    let frame = Octets::from_slice(rt.alloc(), &[0; 60])?;
    Ok(Body::Eth(EthMsg::new(frame).ok_or("a frame")?))
}

// What a station sends over 500 ps that has frames of 60 bytes to send at 1000 and at 2000.
fn stream(rt: &HostRuntime) -> Result<Octets, Fail> {
    let mut out = Octets::new(rt.alloc());
    add(&mut out, 0, intro())?;
    add(&mut out, 500, Body::Sync)?;
    add(&mut out, 1000, Body::Sync)?;
    add(&mut out, 1500, Body::Sync)?;
    add(&mut out, 1500, packet(rt)?)?;
    add(&mut out, 2000, Body::Sync)?;
    add(&mut out, 2500, Body::Sync)?;
    add(&mut out, 2500, packet(rt)?)?;
    add(&mut out, 3000, Body::Sync)?;
    Ok(out)
}

// Frames all messages that wait.
fn drain(rt: &HostRuntime, deframer: &mut Deframer) -> Result<Octets, Fail> {
    let mut frames = Octets::new(rt.alloc());
    for _ in 0..100 {
        let Some(m) = deframer.next() else {
            break;
        };
        frame(&m, &mut frames)?;
    }
    Ok(frames)
}

fn in_two(rt: &HostRuntime, bytes: &[u8], at: usize) -> Result<Read, Fail>
    requires { at ≤ length bytes.now }
{
    if bytes.len() > LONGEST {
        Err("a long stream")?;
    }
    let mut deframer = Deframer::new(rt.alloc(), PortKind::Eth);
    let fault = match deframer.feed(&bytes[..at]) {
        Ok(()) => deframer.feed(&bytes[at..]).err(),
        Err(bad) => Some(bad),
    };
    let frames = drain(rt, &mut deframer)?;
    Ok(Read { frames, fault })
}

fn by_bytes(rt: &HostRuntime, bytes: &[u8]) -> Result<Read, Fail> {
    if bytes.len() > LONGEST {
        Err("a long stream")?;
    }
    let mut deframer = Deframer::new(rt.alloc(), PortKind::Eth);
    let mut fault = None;
    for at in 0..bytes.len() {
        if let Err(bad) = deframer.feed(&bytes[at..at + 1]) {
            fault = Some(bad);
            break;
        }
    }
    let frames = drain(rt, &mut deframer)?;
    Ok(Read { frames, fault })
}

// The stream with other bytes at two places.
fn changed(rt: &HostRuntime, bytes: &[u8], changes: [(usize, u8); 2]) -> Result<Vec<u8>, Fail> {
    let mut wrong = Vec::from_slice(rt.alloc(), bytes)?;
    for (place, value) in changes {
        if let Some(byte) = wrong.get_mut(place) {
            *byte = value;
        }
    }
    Ok(wrong)
}

// Whether what comes out of a stream is its part before the fault, whole and byte by byte.
fn is_refused(rt: &HostRuntime, wrong: &[u8], bad: FrameBad, offset: usize) -> Result<bool, Fail> {
    let whole = in_two(rt, wrong, wrong.len())?;
    let slow = by_bytes(rt, wrong)?;
    let before = wrong.get(..offset).ok_or("a place")?;
    Ok(
        whole.fault == Some(bad)
            && slow.fault == Some(bad)
            && whole.frames.as_slice() == before
            && slow.frames.as_slice() == before,
    )
}

#[test]
fn a_stream_in_any_pieces(rt: HostRuntime) -> Result<(), Fail> {
    let bytes = stream(&rt)?;
    let slow = by_bytes(&rt, bytes.as_slice())?;
    assert_eq!(rt; slow.fault, None);
    assert!(rt; slow.frames.as_slice() == bytes.as_slice());
    for at in 0..bytes.len() + 1 {
        let read = in_two(&rt, bytes.as_slice(), at)?;
        assert_eq!(rt; read.fault, None, "at {at}");
        assert!(rt; read.frames.as_slice() == bytes.as_slice(), "at {at}");
    }
    Ok(())
}

#[test]
fn each_fault_of_a_frame(rt: HostRuntime) -> Result<(), Fail> {
    let bytes = stream(&rt)?;
    for start in [0usize, 68, 272] {
        let offset = start as u64;
        let message = |bad| FrameBad::Message { offset, bad };
        let rows = [
            ((0, 63), (1, 0), FrameBad::Length { offset }),
            ((0, 0x41), (1, 0x08), FrameBad::Length { offset }),
            ((3, 1), (3, 1), FrameBad::Length { offset }),
            ((67, 0x00), (67, 0x00), message(MsgBad::OwnerClear)),
            ((67, 0xd0), (67, 0xd0), message(MsgBad::TypeNotOfKind)),
            ((60, 1), (60, 1), message(MsgBad::ReservedNotZero)),
            ((63, 1), (63, 1), message(MsgBad::ReservedNotZero)),
            ((66, 1), (66, 1), message(MsgBad::ReservedNotZero)),
        ];
        for ((first, a), (second, b), bad) in rows {
            let wrong = changed(
                &rt,
                bytes.as_slice(),
                [(start + first, a), (start + second, b)],
            )?;
            assert!(rt; is_refused(&rt, wrong.as_slice(), bad, start)?, "{bad}");
        }
    }
    Ok(())
}

#[test]
fn faults_of_the_order(rt: HostRuntime) -> Result<(), Fail> {
    let bytes = stream(&rt)?;
    let falls = changed(&rt, bytes.as_slice(), [(189, 0), (189, 0)])?;
    assert!(rt; is_refused(&rt, falls.as_slice(), FrameBad::Falls { offset: 136 }, 136)?);
    let late = bytes.as_slice().get(68..).ok_or("a frame")?;
    assert!(rt; is_refused(&rt, late, FrameBad::Order { offset: 0 }, 0)?);
    let mut twice = bytes.copy()?;
    add(&mut twice, 3000, intro())?;
    let offset = bytes.len() as u64;
    assert!(rt;
        is_refused(
            &rt,
            twice.as_slice(),
            FrameBad::Order { offset },
            bytes.len()
        )?
    );
    Ok(())
}
