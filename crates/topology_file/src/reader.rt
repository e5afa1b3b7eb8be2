ghost use Rattle.std.specs.Prelude.{◌≡◌, MatchResult};
ghost use Rattle.toml.specs.View.{view, table_view};
ghost use Rattle.cs_base.specs.Plan.{IsPlan};
ghost use Rattle.topology_file.specs.Ports.{IsTopology};
ghost use Rattle.topology_file.specs.Refusals.{refusal};
ghost use Rattle.topology_file.specs.Spelled.{Spells};
ghost use Rattle.topology_file.specs.Reading.{Refuses, Gives, IsDocument, Reads};
ghost use Rattle.topology_file.specs.Parts.{AreComponentsOf};

use crate::component::Component;
use crate::components::components;
use crate::faults::top_fault;
use crate::fields::{elements_at, number_at};
use crate::free_ports::free_port;
use crate::joined::Joined;
use crate::key::Key;
use crate::links::links;
use crate::ports::kinds_of;
use crate::reason::{Entry, TopoBad, TopoReason};
use crate::topology::Topology;
use cs_base::{Items, Link, PortKind, Time, Wiring};
use std::alloc::Global;
use toml::{Table, Value};

fn assembled(
    end: Time,
    components: Items<Component>,
    kinds: Items<Items<PortKind>>,
    links: Items<Link>,
) -> Topology
    requires plan { IsPlan end kinds links }
    requires topology { IsTopology components kinds }
    ensures components { result.components ≡ components }
    ensures end { result.wiring.end ≡ end }
    ensures links { result.wiring.links ≡ links }
{
    let wiring = Wiring { end, kinds, links };
    Topology { components, wiring }
}

/// The components of a document, and the kinds of their ports.
fn parts(
    alloc: Global,
    document: &Value,
) -> Result<(Items<Component>, Items<Items<PortKind>>), TopoBad>
    ensures { MatchResult result (λ parts. AreComponentsOf (view document.now) parts.0 parts.1)
        (Refuses (refusal (view document.now))) }
{
    if let Some(reason) = top_fault(document) {
        return Err(TopoBad::At {
            reason,
            entry: Entry::Top,
        });
    }
    let components = components(alloc, elements_at(document, Key::Components))?;
    let kinds = kinds_of(alloc, components.as_slice())?;
    Ok((components, kinds))
}

/// The topology that a document spells.
fn topology(alloc: Global, document: &Value) -> Result<Topology, TopoBad>
    ensures { Gives (refusal (view document.now)) (Spells (view document.now)) result }
{
    let (components, kinds) = parts(alloc, document)?;
    let entries = elements_at(document, Key::Links);
    let joined = links(alloc, components.as_slice(), kinds.as_slice(), entries)?;
    if let Some(number) = free_port(&joined, kinds.as_slice()) {
        return Err(TopoBad::At {
            reason: TopoReason::PortFree,
            entry: Entry::Component(number),
        });
    }
    let end = Time(number_at(document, Key::End));
    let Joined { links, taken: _ } = joined;
    Ok(assembled(end, components, kinds, links))
}

fn document(alloc: Global, bytes: &[u8]) -> Result<Table, TopoBad>
    ensures { MatchResult result (λ table. IsDocument bytes.now (table_view table))
        (λ bad. Reads bytes.now (Err bad)) }
{
    match toml::table_from_slice(alloc, bytes) {
        Ok(table) => Ok(table),
        Err(error) if error.is_memory() => Err(TopoBad::NoMemory),
        Err(_) => Err(TopoBad::Toml),
    }
}

/// Reads a topology file: a TOML document with the keys `version`, `end`, `component` and `link`.
///
/// `TopoBad::Toml` says that the bytes are no TOML document, and `TopoBad::At` names the first refusal: entries
/// are tried in the order of the file, the document itself first, and of the faults of one entry the one of the
/// least number is answered. `TopoBad::NoMemory` may come at any bytes.
pub fn read(alloc: Global, bytes: &[u8]) -> Result<Topology, TopoBad>
    ensures { Reads bytes.now result }
{
    let table = document(alloc, bytes)?;
    topology(alloc, &Value::Table(table))
}
