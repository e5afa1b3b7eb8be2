//! Systems of one station.
use crate::{load_summary, load_text};
use std::test::Fail;
use topology_file::read;

/// By docs/peer/load.py, which was written apart from the program.
const ONE_STATION: &str = "load 1\ncomponents 4\nlinks 3\nlines 16\nsyncs 777\nsends 76\n";

#[test]
fn one_station_is_summed_up(rt: HostRuntime) -> Result<(), Fail> {
    let text = load_summary(rt.alloc(), 1)?;
    assert_eq!(rt; text.as_slice(), ONE_STATION.as_bytes());
    Ok(())
}

#[test]
fn one_station_is_a_topology(rt: HostRuntime) -> Result<(), Fail> {
    let text = load_text(rt.alloc(), 1)?;
    assert_eq!(rt; read(rt.alloc(), text.as_slice())?.components.len(), 4);
    Ok(())
}
