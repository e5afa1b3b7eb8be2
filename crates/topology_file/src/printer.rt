ghost use Rattle.std.specs.Prelude.{◌≡◌, ◌≤◌, false, map, IfOk};
ghost use Rattle.toml.specs.Data.{members_depth};
ghost use Rattle.toml.specs.Text.{IsDocumentText};
ghost use Rattle.toml.specs.View.{view, table_view};
ghost use Rattle.topology_file.specs.Ports.{names_of};
ghost use Rattle.topology_file.specs.Full.{full_component, full_link, full};
ghost use Rattle.topology_file.specs.Reading.{IsDocument, IsTopologyText};

use crate::component::Component;
use crate::entry_writer::EntryWriter;
use crate::key::Key;
use crate::topology::Topology;
use crate::type_laws::are_typed;
use crate::written::{component, link};
use cs_base::{Items, NoMemory, Octets};
use std::alloc::Global;
use toml::{Table, Value};

fn component_entries(alloc: Global, components: &[Component]) -> Result<Vec<Value>, NoMemory>
    ensures { IfOk result (λ entries. map view entries.items ≡ map full_component components.now) }
{
    let mut entries = Vec::new(alloc);
    for item in components {
        let entry = component(alloc, item)?;
        entries.push(entry)?;
    }
    Ok(entries)
}

fn link_entries(alloc: Global, t: &Topology) -> Result<Vec<Value>, NoMemory>
    ensures { IfOk result (λ entries. map view entries.items
        ≡ map (full_link (names_of t.now.components)) t.now.wiring.links) }
{
    let mut entries = Vec::new(alloc);
    let components = t.components.as_slice();
    for item in t.wiring.links.as_slice() {
        let entry = link(alloc, components, item)?;
        entries.push(entry)?;
    }
    Ok(entries)
}

/// The table with every key of every entry.
fn full_table(alloc: Global, t: &Topology) -> Result<Table, NoMemory>
    ensures { IfOk result (λ table. table_view table ≡ full t.now) }
{
    let components = component_entries(alloc, t.components.as_slice())?;
    let links = link_entries(alloc, t)?;
    let mut document = EntryWriter::new(alloc);
    document.number(Key::Version, 1)?;
    document.number(Key::End, t.wiring.end.picoseconds())?;
    document.entries(Key::Components, components)?;
    document.entries(Key::Links, links)?;
    Ok(document.table)
}

/// The text of a table.
fn text_of(alloc: Global, table: &Table) -> Result<Octets, NoMemory>
    requires { members_depth (table_view table.now) ≤ 80 }
    ensures text { IfOk result (λ text. IsDocumentText false (table_view table.now) text) }
    ensures document { IfOk result (λ text. IsDocument text (table_view table.now)) }
{
    match toml::table_to_string(alloc, table) {
        Ok(text) => Ok(Items::from_vec(text.into_bytes())),
        Err(_) => Err(NoMemory),
    }
}

/// Prints a topology as a topology file in which each entry has every key that it may have, the usual values
/// written out: addresses in lower-case digits, and `link` as an empty array where there is none. `read` gives the
/// topology back.
pub fn print(alloc: Global, t: &Topology) -> Result<Octets, NoMemory>
    ensures text { IfOk result (λ text. IsDocumentText false (full t.now) text) }
    ensures document { IfOk result (λ text. IsDocument text (full t.now)) }
    ensures read_again { IfOk result (λ text. IsTopologyText text t.now) }
{
    let table = full_table(alloc, t)?;
    are_typed(t.components.as_slice());
    text_of(alloc, &table)
}
