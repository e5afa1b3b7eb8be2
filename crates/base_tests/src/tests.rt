//! Values from outside, and what no clause says: that calls succeed.
mod wires;

use cs_base::{
    FileBad, Files, Items, Link, Mac, MemFile, MemFiles, MemSink, Name, Octets, PortKind,
    RealFiles, RealSink, Sink, Text, Time, Via, Wiring, decimal, hexadecimal, mac_text,
};
use std::alloc::Global;
use std::fs;
use std::test::Fail;

fn items<T: Copy>(alloc: Global, list: &[T]) -> Result<Items<T>, Fail> {
    Ok(Items::from_vec(Vec::from_slice(alloc, list)?))
}

#[test]
fn numbers_are_written(rt: HostRuntime) -> Result<(), Fail> {
    let mut text = Octets::new(rt.alloc());
    decimal(0, &mut text)?;
    decimal(18_446_744_073_709_551_615, &mut text)?;
    hexadecimal(0, &mut text)?;
    hexadecimal(0xdead_beef, &mut text)?;
    mac_text(Mac([0x02, 0, 0, 0, 0xab, 0x0f]), &mut text)?;
    let expected = b"0184467440737095516150x00xdeadbeef02:00:00:00:ab:0f";
    assert_eq!(rt; text.copy()?.as_slice(), expected.as_slice());
    Ok(())
}

#[test]
fn names_are_of_their_letters(rt: HostRuntime) {
    for name in ["a", "host_0", "abcdefghijklmnop", "0"] {
        assert!(rt; Name::new(name.as_bytes()).is_some(), "{name}");
    }
    for name in ["", "abcdefghijklmnopq", "A", "a b", "a-b"] {
        assert!(rt; Name::new(name.as_bytes()).is_none(), "{name}");
    }
    assert!(rt; Mac([2, 0, 0, 0, 0, 1]).is_individual());
    assert!(rt; !Mac([3, 0, 0, 0, 0, 1]).is_individual());
}

#[test]
fn files_in_memory_fail_as_stated(rt: HostRuntime) -> Result<(), Fail> {
    let alloc = rt.alloc();
    let mut entries = Items::new(alloc);
    entries.push(MemFile {
        name: Text::new(alloc, "t1.toml")?,
        content: Octets::from_slice(alloc, b"end = 1")?,
    })?;
    let mut files = MemFiles::new(alloc, entries, items(alloc, &[1])?);
    assert_eq!(rt;
        files.read(alloc, "t1.toml")?.as_slice(),
        b"end = 1".as_slice()
    );
    assert!(rt; files.read(alloc, "t1.toml") == Err(FileBad::Failed));
    assert!(rt; files.read(alloc, "x.toml") == Err(FileBad::Failed));
    assert_eq!(rt; files.faults(), 2);
    Ok(())
}

#[test]
fn a_sink_takes_pieces(rt: HostRuntime) -> Result<(), Fail> {
    let alloc = rt.alloc();
    let mut sink = MemSink::new(alloc, 2, items(alloc, &[1])?);
    assert_eq!(rt; sink.write(b"abc")?, 2);
    assert!(rt; sink.write(b"c").is_err());
    assert_eq!(rt; sink.write(b"c")?, 1);
    assert_eq!(rt; sink.written(), b"abc".as_slice());
    assert_eq!(rt; sink.faults(), 1);
    Ok(())
}

#[test]
fn real_files_and_streams(rt: HostRuntime) -> Result<(), Fail> {
    let alloc = rt.alloc();
    let name = "cs_base_real_file.tmp";
    fs::write(&rt, name, "end = 1")?;
    let mut files = RealFiles::new(&rt);
    assert_eq!(rt; files.read(alloc, name)?.as_slice(), b"end = 1".as_slice());
    fs::remove_file(&rt, name)?;
    assert!(rt; files.read(alloc, name) == Err(FileBad::Failed));
    assert_eq!(rt; files.faults(), 1);
    let mut sink = RealSink::new(Vec::new(alloc));
    assert_eq!(rt; sink.write(b"abc")?, 3);
    assert_eq!(rt; sink.faults(), 0);
    Ok(())
}

fn pair(alloc: Global, latency: u64, interval: u64, b_port: u32) -> Result<Option<Wiring>, Fail> {
    let mut kinds = Items::new(alloc);
    kinds.push(items(alloc, &[PortKind::Eth])?)?;
    kinds.push(items(alloc, &[PortKind::Eth])?)?;
    let link = Link {
        a: 0,
        a_port: 0,
        b: 1,
        b_port,
        latency: Time(latency),
        interval: Time(interval),
        slots: 64,
        via: Via::Queue,
    };
    Ok(Wiring::new(Time(2600), kinds, items(alloc, &[link])?))
}

#[test]
fn a_wiring_is_checked(rt: HostRuntime) -> Result<(), Fail> {
    let alloc = rt.alloc();
    assert!(rt; pair(alloc, 500, 500, 0)?.is_some());
    assert!(rt; pair(alloc, 500, 501, 0)?.is_none());
    assert!(rt; pair(alloc, 500, 0, 0)?.is_none());
    assert!(rt; pair(alloc, 500, 500, 1)?.is_none());
    Ok(())
}
