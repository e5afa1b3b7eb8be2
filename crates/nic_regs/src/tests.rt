//! The bits that each register stores, causes and their mask, addresses that are accepted, and parts.
use crate::{RegAct, Regs};
use cs_base::Mac;

const OWN: Mac = Mac([2, 0, 0, 0, 0, 0x0a]);

const OTHER: Mac = Mac([2, 0, 0, 0, 0, 0x0b]);

fn assert_send<T: Send + Sync>(_value: &T) {}

#[test]
fn what_registers_store(rt: HostRuntime) {
    // the offset, and what it reads after all ones were written there
    let rows = [
        (0x0000, 0),
        (0x0008, 1),
        (0x00c8, 0),
        (0x00d0, 0xd7),
        (0x00d8, 0),
        (0x0100, 0xffff_ffff),
        (0x0400, 0xffff_ffff),
        (0x2800, 0xffff_fff0),
        (0x2804, 0xffff_ffff),
        (0x2808, 0x000f_ff80),
        (0x2810, 0xffff),
        (0x3818, 0xffff),
        (0x5000, 0xff),
        (0x5400, 0xffff_ffff),
        (0x547c, 0x8000_ffff),
        (0x5480, 0),
        (0x5402, 0),
        (0x0004, 0),
    ];
    for (offset, read) in rows {
        let mut regs = Regs::new(OWN);
        assert_eq!(rt;
            (regs.read(8), regs.read(0x5400), regs.read(0x5404)),
            (1, 2, 0x8000_0a00)
        );
        let act = regs.write(offset, 0xffff_ffff);
        assert_eq!(rt; act == RegAct::Reset, offset == 0);
        assert_eq!(rt; regs.read(offset), read);
    }
}

#[test]
fn sizes_of_receive_buffers(rt: HostRuntime) {
    // RCTL with BSIZE 0 to 3, without BSEX and with it
    let rows = [
        (0x0000_0000, 2048),
        (0x0001_0000, 1024),
        (0x0002_0000, 512),
        (0x0003_0000, 256),
        (0x0200_0000, 2048),
        (0x0201_0000, 16384),
        (0x0202_0000, 8192),
        (0x0203_0000, 4096),
    ];
    for (rctl, size) in rows {
        let mut regs = Regs::new(OWN);
        let _stored = regs.write(0x0100, rctl);
        assert_eq!(rt; regs.buffer_size(), size);
    }
}

#[test]
fn causes_and_their_mask(rt: HostRuntime) {
    let mut regs = Regs::new(OWN);
    regs.raise(0xffff_ffff);
    assert_eq!(rt; regs.line(), false);
    let _stored = regs.write(0x00d0, 0x80);
    assert_eq!(rt; (regs.line(), regs.read(0x00d0)), (true, 0x80));
    let _stored = regs.write(0x00c0, 0x80);
    assert_eq!(rt;
        (regs.line(), regs.read(0x00c0), regs.read(0x00c0)),
        (false, 0x57, 0)
    );
    let _stored = regs.write(0x00c8, 0x84);
    let _stored = regs.write(0x00d8, 0xff);
    assert_eq!(rt; (regs.line(), regs.read(0x00c0)), (false, 0x84));
}

#[test]
fn addresses_rings_and_parts(rt: HostRuntime) {
    let mut regs = Regs::new(OWN);
    assert_send(&regs);
    assert_eq!(rt; (regs.accepts(OWN), regs.accepts(OTHER)), (true, false));
    let _stored = regs.write(0x0100, 0x0200_8002);
    assert_eq!(rt;
        (
            regs.accepts(Mac([0xff; 6])),
            regs.accepts(Mac([3; 6])),
            regs.rx_on()
        ),
        (true, false, false)
    );
    let _stored = regs.write(0x0000, 0x40);
    let _stored = regs.write(0x2804, 1);
    assert_eq!(rt;
        (regs.rx_on(), regs.buffer_size(), regs.rx_ring().base),
        (true, 2048, 1 << 32)
    );
    let mut parts = regs.into_parts();
    assert_eq!(rt; Regs::from_parts(OWN, parts).is_some(), true);
    parts.causes = 8;
    assert_eq!(rt; Regs::from_parts(OWN, parts).is_none(), true);
}
