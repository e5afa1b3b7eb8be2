//! That the calls succeed, and which parts are refused.
ghost use Rattle.std.specs.Prelude.{◌≤◌, ◌^◌};

use crate::{Beacon, BeaconParts, Component, Effects, LineText, Outcome, PartsBad, log_all};
use cs_base::{BeaconConfig, Items, Mac, Time};
use std::test::Fail;

/// Three frames: at 1000, 2000 and 3000.
const CONFIG: BeaconConfig = BeaconConfig {
    first: Time(1000),
    period: Time(1000),
    count: 3,
    length: 60,
    to: Mac([0xff; 6]),
    from: Mac([2, 0, 0, 0, 0, 1]),
};

#[test]
fn a_beacon_is_kept_and_made_again(rt: HostRuntime) -> Result<(), Fail> {
    let started = Beacon::start(rt.alloc(), &CONFIG)?;
    let none = started.into_parts(Time(0))?;
    assert_eq!(rt; none.sent, 0);
    assert!(rt; Beacon::from_parts(&CONFIG, Time(0), none).is_ok());
    Ok(())
}

struct Case {
    sent: u32,
    at: u64,
    valid: bool,
}

const CASES: [Case; 11] = [
    Case {
        sent: 0,
        at: 1000,
        valid: true,
    },
    Case {
        sent: 0,
        at: 1001,
        valid: false,
    },
    Case {
        sent: 1,
        at: 1000,
        valid: false,
    },
    Case {
        sent: 1,
        at: 1001,
        valid: true,
    },
    Case {
        sent: 1,
        at: 2000,
        valid: true,
    },
    Case {
        sent: 1,
        at: 2001,
        valid: false,
    },
    Case {
        sent: 3,
        at: 3000,
        valid: false,
    },
    Case {
        sent: 3,
        at: 3001,
        valid: true,
    },
    Case {
        sent: 3,
        at: 1_000_000_000_000_000,
        valid: true,
    },
    Case {
        sent: 4,
        at: 4001,
        valid: false,
    },
    Case {
        sent: 4_294_967_295,
        at: 1_000_000_000_000_000,
        valid: false,
    },
];

/// Whether the parts make a beacon; None where they are refused otherwise than as invalid.
fn is_made(sent: u32, at: u64) -> Option<bool>
    requires { at ≤ 10 ^ 15 }
{
    match Beacon::from_parts(&CONFIG, Time(at), BeaconParts { sent }) {
        Ok(_beacon) => Some(true),
        Err(PartsBad::Invalid) => Some(false),
        Err(PartsBad::NoMemory) => None,
    }
}

#[test]
fn parts_stand_between_two_frames(rt: HostRuntime) {
    for case in &CASES {
        if case.at <= 1_000_000_000_000_000 {
            let made = is_made(case.sent, case.at);
            assert!(rt; made == Some(case.valid), "{} at {}", case.sent, case.at);
        }
    }
}

/// That threads may be handed a value of this type.
fn is_sent<T: Send>() {}

#[test]
fn devices_and_logs_may_go_to_threads(_rt: HostRuntime) {
    is_sent::<Component<Beacon>>();
    is_sent::<Effects>();
    is_sent::<Outcome>();
}

#[test]
fn texts_are_short_or_long(rt: HostRuntime) -> Result<(), Fail> {
    let mut text = LineText::new(rt.alloc());
    text.append(b"store ")?;
    text.hexadecimal(0x8000_0000)?;
    text.append(b" by ")?;
    assert_eq!(rt; text.as_slice(), b"store 0x80000000 by ".as_slice());
    text.decimal(99)?;
    assert_eq!(rt; text.as_slice(), b"store 0x80000000 by 99".as_slice());
    assert_eq!(rt; text.len(), 22);
    text.decimal(100)?;
    assert_eq!(rt; text.as_slice(), b"store 0x80000000 by 99100".as_slice());
    Ok(())
}

#[test]
fn lines_are_logged_in_order(rt: HostRuntime) -> Result<(), Fail> {
    let mut out = Effects::new(rt.alloc());
    let mut log = Items::new(rt.alloc());
    out.line(b"one")?;
    out.line(b"two")?;
    log_all(Time(7), &mut out.lines, &mut log)?;
    assert!(rt; out.lines.is_empty());
    let second = log.pop().ok_or("no line")?;
    assert_eq!(rt; second.text.as_slice(), b"two".as_slice());
    assert_eq!(rt; second.at.picoseconds(), 7);
    let first = log.pop().ok_or("no line")?;
    assert_eq!(rt; first.text.as_slice(), b"one".as_slice());
    Ok(())
}
