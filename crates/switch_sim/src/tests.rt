//! The frames of a worked example, a full table, which parts are refused, and that calls succeed.
ghost use Rattle.std.specs.Prelude.{◌≡◌, ◌≤◌, ◌<◌, ◌+◌, ◌^◌, OnOk};
ghost use Rattle.switch_sim.specs.Switch.{IsSettledSwitch};

use crate::{Entry, Switch, SwitchParts};
use cs_base::{Items, Mac, Octets, SwitchConfig, Time, decimal};
use device_api::{Device, Effects, PartsBad};
use eth_proto::EthMsg;
use sb_message::Body;
use std::alloc::Global;
use std::test::Fail;

const A: [u8; 6] = [2, 0, 0, 0, 0, 0x0a];

const B: [u8; 6] = [2, 0, 0, 0, 0, 0x0b];

const C: [u8; 6] = [2, 0, 0, 0, 0, 0x0c];

const GROUP: [u8; 6] = [3, 0, 0, 0, 0, 1];

const RESERVED: [u8; 6] = [0x01, 0x80, 0xc2, 0, 0, 0];

/// A frame that arrives, and what is logged and by which ports it is sent.
struct Case {
    at: u64,
    port: u32,
    from: [u8; 6],
    to: [u8; 6],
    does: &'static str,
}

const CASES: [Case; 7] = [
    Case {
        at: 0,
        port: 0,
        from: A,
        to: B,
        does: "learn 02:00:00:00:00:0a 0, flood, 1 2 ",
    },
    Case {
        at: 10,
        port: 1,
        from: B,
        to: A,
        does: "learn 02:00:00:00:00:0b 1, forward 0, 0 ",
    },
    Case {
        at: 20,
        port: 0,
        from: C,
        to: A,
        does: "learn 02:00:00:00:00:0c 0, filter, ",
    },
    Case {
        at: 999,
        port: 1,
        from: B,
        to: A,
        does: "forward 0, 0 ",
    },
    Case {
        at: 1000,
        port: 1,
        from: B,
        to: A,
        does: "flood, 0 2 ",
    },
    Case {
        at: 1001,
        port: 2,
        from: GROUP,
        to: B,
        does: "forward 1, 1 ",
    },
    Case {
        at: 1002,
        port: 1,
        from: B,
        to: RESERVED,
        does: "filter, ",
    },
];

/// What the switch does with a frame of 60 bytes.
fn takes(alloc: Global, switch: &mut Switch, now: u64, case: &Case) -> Result<Effects, Fail>
    requires settled { IsSettledSwitch switch.old now }
    requires later { now ≤ case.now.at + 1 }
    requires in_run { case.now.at < 10 ^ 15 }
    requires port { case.now.port < switch.old.ports }
    ensures settled { OnOk result (IsSettledSwitch switch.new (case.now.at + 1)) }
    ensures ports { OnOk result (switch.new.ports ≡ switch.old.ports) }
{
    let mut out = Effects::new(alloc);
    let mut frame = Octets::new(alloc);
    frame.append(&case.to)?;
    frame.append(&case.from)?;
    frame.append(&[0; 48])?;
    let message = EthMsg::new(frame).ok_or("no frame")?;
    switch.take(
        alloc,
        Time(case.at),
        case.port,
        Body::Eth(message),
        &mut out,
    )?;
    Ok(out)
}

/// Lines and ports of sends as a text.
fn text_of(alloc: Global, out: &Effects) -> Result<Octets, Fail> {
    let mut text = Octets::new(alloc);
    for line in out.lines.as_slice() {
        text.append(line.as_slice())?;
        text.append(b", ")?;
    }
    for (port, _body) in out.sends.as_slice() {
        decimal(u64::from(*port), &mut text)?;
        text.append(b" ")?;
    }
    Ok(text)
}

/// What the switch does with a frame, as a text.
fn does(alloc: Global, switch: &mut Switch, now: u64, case: &Case) -> Result<Octets, Fail>
    requires settled { IsSettledSwitch switch.old now }
    requires later { now ≤ case.now.at + 1 }
    requires in_run { case.now.at < 10 ^ 15 }
    requires port { case.now.port < switch.old.ports }
    ensures settled { OnOk result (IsSettledSwitch switch.new (case.now.at + 1)) }
    ensures ports { OnOk result (switch.new.ports ≡ switch.old.ports) }
{
    let out = takes(alloc, switch, now, case)?;
    text_of(alloc, &out)
}

#[test]
fn frames_are_learned_from_and_relayed(rt: HostRuntime) -> Result<(), Fail> {
    let config = SwitchConfig {
        ports: 3,
        age: Time(1000),
    };
    let mut switch = Switch::start(rt.alloc(), &config)?;
    let mut now = 0;
    for case in &CASES {
        if case.port < 3 && now <= case.at && case.at < 2000 {
            let does = does(rt.alloc(), &mut switch, now, case)?;
            now = case.at + 1;
            assert_eq!(rt; does.as_slice(), case.does.as_bytes());
        }
    }
    assert_eq!(rt; now, 1003);
    Ok(())
}

fn station(number: u64) -> Mac
    requires { number < 65536 }
{
    Mac([2, 0, 0, 0, (number / 256) as u8, (number % 256) as u8])
}

/// Learns that a station is at a port of a switch of two ports, whose frames so far were before `now`.
fn learns(switch: &mut Switch, now: u64, t: u64, number: u64, port: u32) -> bool
    requires settled { IsSettledSwitch switch.old now }
    requires later { now ≤ t + 1 }
    requires number { number < 65536 }
    requires ports { switch.old.ports ≡ 2 }
    requires port { port < 2 }
    ensures settled { IsSettledSwitch switch.new (t + 1) }
    ensures ports { switch.new.ports ≡ 2 }
{
    switch.learn(Time(t), station(number), port)
}

#[test]
fn a_full_table_keeps_its_live_entries(rt: HostRuntime) -> Result<(), Fail> {
    let config = SwitchConfig {
        ports: 2,
        age: Time(5000),
    };
    let mut switch = Switch::start(rt.alloc(), &config)?;
    for number in 0..4096 {
        assert!(rt; learns(&mut switch, number, number, number, 0), "{number}");
    }
    assert!(rt; !learns(&mut switch, 4096, 4999, 5000, 1));
    assert!(rt; switch.lookup(Time(4999), station(5000)).is_none());
    assert!(rt; switch.lookup(Time(4999), station(0)) == Some(0));
    assert!(rt; learns(&mut switch, 5000, 5000, 5000, 1));
    assert!(rt; switch.lookup(Time(5000), station(5000)) == Some(1));
    assert!(rt; switch.lookup(Time(5000), station(0)).is_none());
    assert!(rt; switch.lookup(Time(5000), station(1)) == Some(0));
    assert!(rt; !learns(&mut switch, 5001, 5000, 5001, 1));
    Ok(())
}

#[test]
fn a_switch_may_have_no_port(rt: HostRuntime) -> Result<(), Fail> {
    let config = SwitchConfig {
        ports: 0,
        age: Time(1),
    };
    let switch = Switch::start(rt.alloc(), &config)?;
    assert_eq!(rt; switch.ports(), 0);
    assert!(rt; switch.due().is_none());
    Ok(())
}

const CONFIG: SwitchConfig = SwitchConfig {
    ports: 2,
    age: Time(1000),
};

#[test]
fn parts_make_the_switch_again(rt: HostRuntime) -> Result<(), Fail> {
    let mut switch = Switch::start(rt.alloc(), &CONFIG)?;
    assert!(rt; learns(&mut switch, 0, 0, 0x0b, 0));
    assert!(rt; learns(&mut switch, 1, 1, 0x0c, 0));
    assert!(rt; learns(&mut switch, 2, 999, 0x0a, 1));
    let parts = switch.into_parts(rt.alloc(), Time(1000))?;
    let live = [
        Entry {
            mac: Mac(A),
            port: 1,
            seen: Time(999),
        },
        Entry {
            mac: Mac(C),
            port: 0,
            seen: Time(1),
        },
    ];
    assert_eq!(rt; parts.entries.as_slice(), live.as_slice());
    let again = Switch::from_parts(rt.alloc(), &CONFIG, Time(1000), parts)?;
    assert!(rt; again.lookup(Time(1000), Mac(A)) == Some(1));
    assert!(rt; again.lookup(Time(1000), Mac(B)).is_none());
    assert!(rt; again.lookup(Time(1000), Mac(C)) == Some(0));
    assert!(rt; again.lookup(Time(1001), Mac(C)).is_none());
    Ok(())
}

/// An entry beside that of station B, and whether the two may be the parts of a switch at a time.
struct PartsCase {
    mac: Mac,
    port: u32,
    seen: u64,
    at: u64,
    valid: bool,
}

const PARTS_CASES: [PartsCase; 9] = [
    PartsCase {
        mac: Mac(C),
        port: 1,
        seen: 999,
        at: 1000,
        valid: true,
    },
    PartsCase {
        mac: Mac(C),
        port: 1,
        seen: 1,
        at: 1000,
        valid: true,
    },
    PartsCase {
        mac: Mac(C),
        port: 1,
        seen: 0,
        at: 1000,
        valid: false,
    },
    PartsCase {
        mac: Mac(C),
        port: 1,
        seen: 1000,
        at: 1000,
        valid: false,
    },
    PartsCase {
        mac: Mac(C),
        port: 2,
        seen: 999,
        at: 1000,
        valid: false,
    },
    PartsCase {
        mac: Mac(GROUP),
        port: 1,
        seen: 999,
        at: 1000,
        valid: false,
    },
    PartsCase {
        mac: Mac(A),
        port: 1,
        seen: 999,
        at: 1000,
        valid: false,
    },
    PartsCase {
        mac: Mac(B),
        port: 1,
        seen: 999,
        at: 1000,
        valid: false,
    },
    PartsCase {
        mac: Mac(C),
        port: 1,
        seen: 1499,
        at: 1500,
        valid: false,
    },
];

/// Whether the parts make a switch; None where they are refused otherwise than as invalid.
fn is_made(alloc: Global, case: &PartsCase) -> Result<Option<bool>, Fail>
    requires { case.now.at ≤ 10 ^ 15 }
{
    let mut entries = Items::new(alloc);
    entries.push(Entry {
        mac: Mac(B),
        port: 0,
        seen: Time(500),
    })?;
    entries.push(Entry {
        mac: case.mac,
        port: case.port,
        seen: Time(case.seen),
    })?;
    let made = Switch::from_parts(alloc, &CONFIG, Time(case.at), SwitchParts { entries });
    Ok(match made {
        Ok(_switch) => Some(true),
        Err(PartsBad::Invalid) => Some(false),
        Err(PartsBad::NoMemory) => None,
    })
}

#[test]
fn parts_are_live_entries_in_order(rt: HostRuntime) -> Result<(), Fail> {
    for case in &PARTS_CASES {
        if case.at <= 1_000_000_000_000_000 {
            let made = is_made(rt.alloc(), case)?;
            assert!(rt; made == Some(case.valid), "{} at {}", case.seen, case.at);
        }
    }
    Ok(())
}

/// That threads may be handed a value of this type.
fn is_sent<T: Send>() {}

#[test]
fn switches_may_go_to_threads(_rt: HostRuntime) {
    is_sent::<Switch>();
    is_sent::<SwitchParts>();
}
