//! Joined texts from outside, and what no clause says: that a call succeeds.
use crate::join;
use cs_base::{Items, Name, Octets, Time};
use device_api::{Line, LineText, Logs};
use std::alloc::Global;
use std::test::Fail;

fn log(alloc: Global, lines: &[(u64, &[u8])]) -> Result<Items<Line>, Fail> {
    let mut log = Items::new(alloc);
    for (at, bytes) in lines {
        let mut text = LineText::new(alloc);
        text.append(bytes)?;
        log.push(Line {
            at: Time(*at),
            text,
        })?;
    }
    Ok(log)
}

fn joined(alloc: Global, a: &[(u64, &[u8])], b: &[(u64, &[u8])]) -> Result<Octets, Fail> {
    let names = [
        Name::new(b"a").ok_or("no name")?,
        Name::new(b"b").ok_or("no name")?,
    ];
    let mut lists = Items::new(alloc);
    lists.push(log(alloc, a)?)?;
    lists.push(log(alloc, b)?)?;
    Ok(join(alloc, &Logs { lists }, &names)?)
}

#[test]
fn lines_come_by_time(rt: HostRuntime) -> Result<(), Fail> {
    let a: &[(u64, &[u8])] = &[(1000, b"tx 60"), (2000, b"tx 60")];
    let b: &[(u64, &[u8])] = &[(1500, b"rx 60"), (2500, b"rx 60")];
    assert_eq!(rt;
        joined(rt.alloc(), a, b)?.as_slice(),
        b"1000 a tx 60\n1500 b rx 60\n2000 a tx 60\n2500 b rx 60\n".as_slice()
    );
    assert_eq!(rt; joined(rt.alloc(), &[], &[])?.as_slice(), b"".as_slice());
    Ok(())
}

#[test]
fn lines_of_one_time_come_by_component_and_then_by_place(rt: HostRuntime) -> Result<(), Fail> {
    let a: &[(u64, &[u8])] = &[(2, b"last"), (1, b"first"), (1, b"second")];
    let b: &[(u64, &[u8])] = &[
        (0, b""),
        (1, b"third"),
        (1, b"first"),
        (10_000_000_000, b"end"),
    ];
    assert_eq!(rt;
        joined(rt.alloc(), a, b)?.as_slice(),
        b"0 b \n1 a first\n1 a second\n1 b third\n1 b first\n2 a last\n10000000000 b end\n".as_slice()
    );
    Ok(())
}
