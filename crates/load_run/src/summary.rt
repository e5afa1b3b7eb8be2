//! The summary of a run.
ghost use Rattle.std.specs.Prelude.{◌≡◌, ◌++◌, IfOk, OnOk};
ghost use Rattle.load_run.specs.Summary.{entry, summary};

use crate::sums::{lines_in, sends_in, syncs_in};
use cs_base::{NoMemory, Octets, decimal};
use device_api::Outcome;
use std::alloc::Global;
use topology_file::Topology;

/// Appends a line: a word and a number.
fn put_entry(word: &str, number: u64, text: &mut Octets) -> Result<(), NoMemory>
    ensures { OnOk result (text.new ≡ text.old ++ entry word.now number) }
{
    text.append(word.as_bytes())?;
    text.append(b" ")?;
    decimal(number, text)?;
    text.append(b"\n")
}

/// What is written of the run of a system of so many stations.
pub fn summary(
    alloc: Global,
    stations: u32,
    topology: &Topology,
    outcome: &Outcome,
) -> Result<Octets, NoMemory>
    ensures { IfOk result (λ text.
        text ≡ summary stations topology.now outcome.now.logs.lists outcome.now.counts) }
{
    let mut text = Octets::new(alloc);
    let counts = outcome.counts.as_slice();
    put_entry("load", u64::from(stations), &mut text)?;
    put_entry("components", topology.components.len() as u64, &mut text)?;
    put_entry("links", topology.wiring.links.len() as u64, &mut text)?;
    put_entry("lines", lines_in(outcome.logs.lists.as_slice()), &mut text)?;
    put_entry("syncs", syncs_in(counts), &mut text)?;
    put_entry("sends", sends_in(counts), &mut text)?;
    Ok(text)
}
