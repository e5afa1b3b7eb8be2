//! Rings at their edges, a descriptor as it is written back, and that both may go to threads.
use crate::{Ring, RxDesc, TxDesc};

fn assert_send<T: Send + Sync>(_value: &T) {}

#[test]
fn rings_at_their_edges(rt: HostRuntime) {
    // length, head, tail, free
    let rings = [
        (128, 7, 0, 1),
        (128, 0, 7, 7),
        (128, 3, 3, 0),
        (0, 0, 0, 0),
        (128, 8, 0, 0),
        (128, 0, 8, 0),
        (0xfff80, 0, 65527, 65527),
    ];
    for (len, head, tail, free) in rings {
        let ring = Ring {
            base: 0xffff_ffff_ffff_fff0,
            len,
            head,
            tail,
        };
        assert_eq!(rt; ring.free(), free);
    }
    let last = Ring {
        base: 0xffff_ffff_ffff_ff90,
        len: 128,
        head: 7,
        tail: 0,
    };
    assert_send(&last);
    assert_eq!(rt; (last.count(), last.address(), last.advance()), (8, 0, 0));
}

#[test]
fn descriptors_and_their_bytes(rt: HostRuntime) {
    let filled = RxDesc {
        addr: 0x8000_4000,
        length: 60,
        checksum: 0,
        status: 3,
        errors: 0,
        special: 0,
    };
    let bytes = [0, 0x40, 0, 0x80, 0, 0, 0, 0, 0x3c, 0, 0, 0, 3, 0, 0, 0];
    assert_eq!(rt; filled.to_bytes(), bytes);
    assert_eq!(rt; RxDesc::from_bytes(&bytes), filled);
    let sent = TxDesc::from_bytes(&[1, 0, 0, 0, 0, 0, 0, 2, 0xea, 5, 59, 0x0d, 0xf1, 14, 3, 4]);
    assert_eq!(rt;
        (sent.addr, sent.length, sent.special),
        (0x0200_0000_0000_0001, 1514, 0x0403)
    );
    assert_eq!(rt;
        (sent.cso, sent.cmd, sent.status, sent.css),
        (59, 0x0d, 0xf1, 14)
    );
    assert_eq!(rt; TxDesc::from_bytes(&sent.to_bytes()), sent);
    assert_send(&filled);
    assert_send(&sent);
}
