//! Reads and writes at the edges, and parts.
ghost use Rattle.std.specs.Prelude.{◌≡◌, IfOk, true};
ghost use Rattle.cs_base.specs.declared.port_kind.PortKind.TheVariants.{MemDev};
ghost use Rattle.sb_message.specs.Receivable.{is_receiver};

use crate::{Memory, MemoryParts};
use access_proto::{Data, Length};
use cs_base::{MemoryConfig, Octets, Time};
use device_api::{Device, Effects, PartsBad};
use mem_proto::MemMsg;
use sb_message::Body;
use std::alloc::Global;
use std::test::Fail;

const CONFIG: MemoryConfig = MemoryConfig { size: 16 };

/// An access: bytes that are written, or how many are read where there are none; and what the device does.
struct Case {
    address: u64,
    write: &'static [u8],
    read: u32,
    logs: &'static str,
    answer: &'static [u8],
}

const CASES: [Case; 7] = [
    Case {
        address: 8,
        write: &[1, 2, 3, 4],
        read: 0,
        logs: "write 0x8 4",
        answer: &[],
    },
    Case {
        address: 10,
        write: &[],
        read: 6,
        logs: "read 0xa 6",
        answer: &[3, 4, 0, 0, 0, 0],
    },
    Case {
        address: 10,
        write: &[],
        read: 7,
        logs: "fault 0xa",
        answer: &[0, 0, 0, 0, 0, 0, 0],
    },
    Case {
        address: 15,
        write: &[9],
        read: 0,
        logs: "write 0xf 1",
        answer: &[],
    },
    Case {
        address: 15,
        write: &[7, 7],
        read: 0,
        logs: "fault 0xf",
        answer: &[],
    },
    Case {
        address: 0xffff_ffff_ffff_ffff,
        write: &[],
        read: 1,
        logs: "fault 0xffffffffffffffff",
        answer: &[0],
    },
    Case {
        address: 0,
        write: &[],
        read: 16,
        logs: "read 0x0 16",
        answer: &[0, 0, 0, 0, 0, 0, 0, 0, 1, 2, 3, 4, 0, 0, 0, 9],
    },
];

/// What is asked of the device.
fn message_of(alloc: Global, case: &Case) -> Result<MemMsg, Fail>
    ensures { IfOk result (λ message. is_receiver message MemDev ≡ true) }
{
    if case.write.is_empty() {
        let len = Length::new(case.read).ok_or("no length")?;
        return Ok(MemMsg::Read {
            id: 5,
            addr: case.address,
            len,
        });
    }
    let bytes = Octets::from_slice(alloc, case.write)?;
    let bytes = Data::new(bytes).ok_or("no data")?;
    Ok(MemMsg::Write {
        id: 5,
        addr: case.address,
        bytes,
    })
}

/// What the device does with a message at 0.
fn effects_of(alloc: Global, memory: &mut Memory, message: MemMsg) -> Result<Effects, Fail>
    requires { is_receiver message MemDev ≡ true }
{
    let mut out = Effects::new(alloc);
    memory.take(alloc, Time(0), 0, Body::Mem(message), &mut out)?;
    Ok(out)
}

/// Whether one line was logged, and one answer sent: of a read with these bytes.
fn is_done(out: &Effects, case: &Case) -> bool {
    for line in out.lines.as_slice() {
        if line.as_slice() != case.logs.as_bytes() {
            return false;
        }
    }
    for (_port, body) in out.sends.as_slice() {
        let answer = match body {
            Body::Mem(MemMsg::ReadDone { id: 5, bytes }) => bytes.as_slice(),
            Body::Mem(MemMsg::WriteDone { id: 5 }) => &[],
            _ => return false,
        };
        if answer != case.answer {
            return false;
        }
    }
    out.lines.len() == 1 && out.sends.len() == 1
}

#[test]
fn accesses_are_answered_at_once(rt: HostRuntime) -> Result<(), Fail> {
    let mut memory = Memory::start(rt.alloc(), &CONFIG)?;
    for case in &CASES {
        let message = message_of(rt.alloc(), case)?;
        let out = effects_of(rt.alloc(), &mut memory, message)?;
        assert!(rt; is_done(&out, case), "{}", case.logs);
    }
    Ok(())
}

#[test]
fn parts_have_all_bytes(rt: HostRuntime) -> Result<(), Fail> {
    let memory = Memory::start(rt.alloc(), &CONFIG)?;
    let parts = memory.into_parts(Time(0))?;
    assert_eq!(rt; parts.bytes.len(), 16);
    assert!(rt; Memory::from_parts(&CONFIG, Time(0), parts).is_ok());
    let bytes = Octets::from_slice(rt.alloc(), &[0; 15])?;
    let short = Memory::from_parts(&CONFIG, Time(0), MemoryParts { bytes });
    assert!(rt; matches!(short, Err(PartsBad::Invalid)));
    Ok(())
}

/// That threads may be handed a value of this type.
fn is_sent<T: Send>() {}

#[test]
fn memory_devices_may_go_to_threads(_rt: HostRuntime) {
    is_sent::<Memory>();
    is_sent::<MemoryParts>();
}
