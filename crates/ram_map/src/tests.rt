//! Each call once, and the address map at its edges.

use crate::{Map, Place, Ram};
use cs_base::Octets;

#[test]
fn numbers_lie_lowest_byte_first(rt: HostRuntime) {
    let mut ram = Ram::new(rt.alloc(), 8, b"\x01\x02").expect(&rt, "memory");
    assert_eq!(rt; ram.load(0, 4), Some(0x0201));
    assert!(rt; ram.store(4, 4, 0x1234_5678));
    assert!(rt; ram.store(4, 1, 0xFFFF_FF9A));
    assert_eq!(rt; ram.load(4, 4), Some(0x1234_569A));
    assert_eq!(rt; ram.load(6, 2), Some(0x1234));
    assert_eq!(rt; ram.load(7, 2), None);
    assert!(rt; !ram.store(u64::MAX, 4, 0));
}

#[test]
fn bytes_go_in_and_out_whole(rt: HostRuntime) {
    let mut ram = Ram::new(rt.alloc(), 4, b"").expect(&rt, "memory");
    let mut out = Octets::new(rt.alloc());
    assert!(rt; ram.copy_in(1, b"abc"));
    assert!(rt; !ram.copy_in(2, b"xyz"));
    assert!(rt; ram.copy_out(0, 4, &mut out).expect(&rt, "memory"));
    assert!(rt; !ram.copy_out(1, 4, &mut out).expect(&rt, "memory"));
    assert!(rt; out.as_slice() == b"\0abc".as_slice());
}

#[test]
fn addresses_lead_to_their_places(rt: HostRuntime) {
    let map = Map {
        ram: 0x1_0000,
        pcie: 2,
        mem: 1,
    };
    let rows = [
        (0x7FFF_FFFF, Place::Nowhere),
        (0x8000_0000, Place::Ram(0)),
        (0x8000_FFFF, Place::Ram(0xFFFF)),
        (0x8001_0000, Place::Nowhere),
        (0x1000_0000, Place::Console),
        (0x1000_0004, Place::Halt),
        (0x1000_0008, Place::Cycles),
        (0x1000_000C, Place::Nowhere),
        (
            0x4011_FFFF,
            Place::Bar {
                port: 1,
                offset: 0x1_FFFF,
            },
        ),
        (0x4012_0000, Place::Nowhere),
        (0x4020_0000, Place::Nowhere),
        (
            0x60FF_FFFF,
            Place::Window {
                port: 2,
                offset: 0xFF_FFFF,
            },
        ),
        (0x6100_0000, Place::Nowhere),
    ];
    for (addr, place) in rows {
        assert!(rt; map.place(addr) == place, "{addr}");
    }
}
