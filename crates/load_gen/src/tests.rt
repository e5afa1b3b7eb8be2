//! Systems as topology files.
use crate::{load_image, load_topology};
use std::str;
use std::test::Fail;
use topology_file::{print, read};

/// How many stations, and how many components and links they make.
#[derive(Clone, Copy)]
struct Row {
    stations: u32,
    components: usize,
    links: usize,
}

const ROWS: [Row; 3] = [
    Row {
        stations: 1,
        components: 4,
        links: 3,
    },
    Row {
        stations: 3,
        components: 8,
        links: 7,
    },
    Row {
        stations: 30,
        components: 62,
        links: 61,
    },
];

/// The first two instructions, `lui` and `addi`, and the last, `sw t1, 4(t2)`, by the RISC-V unprivileged ISA.
#[test]
fn the_program_begins_and_ends(rt: HostRuntime) -> Result<(), Fail> {
    let image = load_image(rt.alloc())?;
    let bytes = image.as_slice();
    assert!(rt; bytes.starts_with(&[0x37, 0x05, 0x00, 0x40, 0x13, 0x05, 0x05, 0x00]));
    assert!(rt; bytes.ends_with(&[0x23, 0xa2, 0x63, 0x00]));
    Ok(())
}

#[test]
fn systems_can_be_read(rt: HostRuntime) -> Result<(), Fail> {
    for row in &ROWS {
        let made = load_topology(rt.alloc(), row.stations.clamp(1, 30))?;
        let text = print(rt.alloc(), &made)?;
        let again = read(rt.alloc(), text.as_slice())?;
        assert_eq!(rt; again.components.len(), row.components);
        assert_eq!(rt; again.wiring.links.len(), row.links);
        assert!(rt; str::from_utf8(text.as_slice())?.contains("mac = \"02:00:00:00:00:00\""));
    }
    Ok(())
}
