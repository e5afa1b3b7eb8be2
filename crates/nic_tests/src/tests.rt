//! What an adapter does, case by case, and its parts.

mod cases;

use access_proto::Data;
use cases::{CASES, Case, Given, SIZE_14};
use cs_base::{Mac, NicConfig, Octets, Time, decimal, hexadecimal};
use device_api::{Device, Effects, PartsBad};
use eth_proto::EthMsg;
use nic_8254x::{Nic, NicParts, RxStep, TxStep};
use pcie_proto::{Bar, DevMsg, HostMsg};
use sb_message::Body;
use std::alloc::Global;
use std::test::Fail;

const CONFIG: NicConfig = NicConfig {
    mac: Mac([2, 0, 0, 0, 0, 0x0a]),
};

const DIGITS: &[u8; 16] = b"0123456789abcdef";

fn data_of(bytes: Octets) -> Result<Data, Fail> {
    Ok(Data::new(bytes).ok_or("no data")?)
}

fn zeros(alloc: Global, len: usize) -> Result<Octets, Fail> {
    let mut zeros = Vec::new(alloc);
    zeros.resize(len, 0)?;
    Ok(Octets::from_vec(zeros))
}

/// A frame of zeros after its destination.
fn frame_to(alloc: Global, to: u64, len: usize) -> Result<EthMsg, Fail> {
    let mut frame = Octets::from_slice(alloc, &to.to_be_bytes()[2..8])?;
    frame.append(zeros(alloc, len.saturating_sub(6))?.as_slice())?;
    Ok(EthMsg::new(frame).ok_or("no frame")?)
}

fn body_of(alloc: Global, given: &Given) -> Result<Body, Fail> {
    let bar = Bar::first();
    let message = match *given {
        Given::Frames(to, len, _) => return Ok(Body::Eth(frame_to(alloc, to, len)?)),
        Given::Write(offset, value) => HostMsg::Write {
            id: 9,
            bar,
            offset,
            bytes: data_of(Octets::from_slice(alloc, &value.to_le_bytes())?)?,
        },
        Given::Read(offset, len) => HostMsg::Read {
            id: 9,
            bar,
            offset,
            len: data_of(zeros(alloc, len)?)?.len(),
        },
        Given::Bytes(id, bytes) => HostMsg::ReadDone {
            id,
            bytes: data_of(Octets::from_slice(alloc, bytes)?)?,
        },
        Given::Zeros(id, len) => HostMsg::ReadDone {
            id,
            bytes: data_of(zeros(alloc, len)?)?,
        },
        Given::Done(id) => HostMsg::WriteDone { id },
    };
    Ok(Body::Host(message))
}

/// Few bytes by their digits, many by their number.
fn append_bytes(text: &mut Octets, bytes: &[u8]) -> Result<(), Fail> {
    if bytes.len() > 16 {
        return Ok(decimal(bytes.len() as u64, text)?);
    }
    for byte in bytes {
        text.append(&[
            DIGITS[usize::from(*byte / 16)],
            DIGITS[usize::from(*byte % 16)],
        ])?;
    }
    Ok(())
}

fn append_access(text: &mut Octets, name: &str, id: u64, addr: u64) -> Result<(), Fail> {
    text.append(name.as_bytes())?;
    decimal(id, text)?;
    text.append(b" ")?;
    hexadecimal(addr, text)?;
    text.append(b" ")?;
    Ok(())
}

fn append_body(text: &mut Octets, body: &Body) -> Result<(), Fail> {
    match body {
        Body::Eth(frame) => {
            text.append(b"frame ")?;
            append_bytes(text, frame.frame())
        }
        Body::Dev(DevMsg::Read { id, addr, len }) => {
            append_access(text, "read ", *id, *addr)?;
            Ok(decimal(u64::from(len.bytes()), text)?)
        }
        Body::Dev(DevMsg::Write { id, addr, bytes }) => {
            append_access(text, "write ", *id, *addr)?;
            append_bytes(text, bytes.as_slice())
        }
        Body::Dev(DevMsg::ReadDone { bytes, .. }) => {
            text.append(b"is ")?;
            append_bytes(text, bytes.as_slice())
        }
        Body::Dev(DevMsg::WriteDone { .. }) => Ok(text.append(b"done")?),
        Body::Dev(DevMsg::Level { high: true }) => Ok(text.append(b"high")?),
        Body::Dev(DevMsg::Level { high: false }) => Ok(text.append(b"low")?),
        _ => Ok(text.append(b"?")?),
    }
}

/// What was sent and then what was logged, as a text.
fn text_of(alloc: Global, out: &Effects) -> Result<Octets, Fail> {
    let mut text = Octets::new(alloc);
    for (_port, body) in out.sends.as_slice() {
        append_body(&mut text, body)?;
        text.append(b", ")?;
    }
    for line in out.lines.as_slice() {
        text.append(line.as_slice())?;
        text.append(b", ")?;
    }
    text.truncate(text.len().saturating_sub(2));
    Ok(text)
}

/// What the adapter does with what is given to it.
fn does(alloc: Global, nic: &mut Nic, given: &Given) -> Result<Octets, Fail> {
    let times = match *given {
        Given::Frames(_, _, times) => times,
        _ => 1,
    };
    let mut out = Effects::new(alloc);
    for _ in 0..times {
        let body = body_of(alloc, given)?;
        nic.take(alloc, Time(0), 0, body, &mut out)?;
    }
    text_of(alloc, &out)
}

fn set_up(alloc: Global, registers: &[(u64, u32)]) -> Result<Nic, Fail> {
    let mut nic = Nic::start(alloc, &CONFIG)?;
    for (offset, value) in registers {
        let _done = does(alloc, &mut nic, &Given::Write(*offset, *value))?;
    }
    Ok(nic)
}

/// The first step at which something else is done, and what is done there.
fn first_wrong(alloc: Global, case: &Case) -> Result<Option<(usize, Octets)>, Fail> {
    let mut nic = set_up(alloc, case.registers)?;
    for (step, (given, text)) in case.steps.iter().enumerate() {
        let does = does(alloc, &mut nic, given)?;
        if does.as_slice() != text.as_bytes() {
            return Ok(Some((step, does)));
        }
    }
    Ok(None)
}

#[test]
fn each_step_does_what_the_manual_says(rt: HostRuntime) -> Result<(), Fail> {
    for (number, case) in CASES.iter().enumerate() {
        let wrong = first_wrong(rt.alloc(), case)?;
        assert!(rt; wrong.is_none(), "case {number}: {wrong:?}");
    }
    Ok(())
}

/// The parts of an adapter that has one descriptor to send, and the next id.
fn parts_with(alloc: Global, next_id: u64) -> Result<NicParts, Fail> {
    let mut parts = Nic::start(alloc, &CONFIG)?.into_parts(alloc, Time(0))?;
    parts.next_id = next_id;
    parts.regs.ctrl = 0x40;
    parts.regs.tdlen = 0x80;
    parts.regs.tdt = 1;
    Ok(parts)
}

/// What is done when sending is turned on, and when the descriptor came.
fn sends_with(alloc: Global, next_id: u64) -> Result<(Octets, Octets), Fail> {
    let parts = parts_with(alloc, next_id)?;
    let mut nic = Nic::from_parts(alloc, &CONFIG, Time(0), parts)?;
    let asked = does(alloc, &mut nic, &Given::Write(0x400, 2))?;
    let came = does(alloc, &mut nic, &Given::Bytes(next_id, &SIZE_14))?;
    Ok((asked, came))
}

#[test]
fn ids_come_to_an_end(rt: HostRuntime) -> Result<(), Fail> {
    let rows = [
        (
            0xffff_ffff_ffff_fffd,
            "done, read 18446744073709551613 0x0 16",
            "read 18446744073709551614 0x2000 14",
        ),
        (
            0xffff_ffff_ffff_fffe,
            "done, read 18446744073709551614 0x0 16",
            "",
        ),
        (0xffff_ffff_ffff_ffff, "done", ""),
    ];
    for (next_id, asks, goes_on) in rows {
        let (asked, came) = sends_with(rt.alloc(), next_id)?;
        assert_eq!(rt; asked.as_slice(), asks.as_bytes());
        assert_eq!(rt; came.as_slice(), goes_on.as_bytes());
    }
    Ok(())
}

/// Parts that are valid, at 0, or not.
fn parts_of(alloc: Global, way: u32) -> Result<NicParts, Fail> {
    let mut parts = parts_with(alloc, 0)?;
    match way {
        0 => {}
        1 => parts.told = true,
        2 => parts.from = 1,
        3 => parts.queue.push(zeros(alloc, 13)?)?,
        4 => parts.tx = TxStep::Back { id: 0 },
        5 => parts.rx = RxStep::Read { id: 0, place: 0 },
        _ => parts.regs.rdt = 0x10000,
    }
    Ok(parts)
}

#[test]
fn invalid_parts_are_refused(rt: HostRuntime) -> Result<(), Fail> {
    for way in 0..7u32 {
        let parts = parts_of(rt.alloc(), way)?;
        let made = Nic::from_parts(rt.alloc(), &CONFIG, Time(0), parts);
        let is_refused = matches!(made, Err(PartsBad::Invalid));
        assert_eq!(rt; (made.is_ok(), is_refused), (way == 0, way > 0), "{way}");
    }
    Ok(())
}

fn is_sent<T: Send>() {}

#[test]
fn adapters_may_go_to_threads(_rt: HostRuntime) {
    is_sent::<Nic>();
    is_sent::<NicParts>();
}
