//! The links of a document, in order.
ghost use Rattle.std.specs.Prelude.{◌≤◌, length, map, []};
ghost use Rattle.toml.specs.View.{view};
ghost use Rattle.topology_file.specs.Ports.{names_of};
ghost use Rattle.topology_file.specs.Links.{link_fault};
ghost use Rattle.topology_file.specs.Refusals.{at_entry, links_refusal};
ghost use Rattle.topology_file.specs.Reading.{Gives};
ghost use Rattle.topology_file.specs.LinksRead.{IsLinkOf, AreLinksOf};

use crate::component::Component;
use crate::joined::Joined;
use crate::link;
use crate::reason::{Entry, TopoBad};
use cs_base::{Items, Link, PortKind};
use std::alloc::Global;
use toml::Value;

/// The link that an entry spells after other links.
fn link(
    components: &[Component],
    kinds: &[Items<PortKind>],
    joined: &Joined,
    entry: &Value,
) -> Result<Link, TopoBad>
    requires few_components { length components.now ≤ 64 }
    requires few_links { length joined.now.links ≤ 1024 }
    ensures { Gives (at_entry (Entry.Link (length joined.now.links))
        (link_fault (names_of components.now) kinds.now joined.now.links (view entry.now)))
        (IsLinkOf (names_of components.now) (view entry.now)) result }
{
    match link::link(components, kinds, joined, entry) {
        Ok(link) => Ok(link),
        Err(reason) => Err(TopoBad::At {
            reason,
            entry: Entry::Link(joined.links.len() as u32),
        }),
    }
}

/// The links that the entries spell.
pub(crate) fn links(
    alloc: Global,
    components: &[Component],
    kinds: &[Items<PortKind>],
    entries: &[Value],
) -> Result<Joined, TopoBad>
    requires few_components { length components.now ≤ 64 }
    requires few_links { length entries.now ≤ 1024 }
    ensures { Gives (links_refusal (names_of components.now) kinds.now 0 [] (map view entries.now))
        (AreLinksOf (names_of components.now) (map view entries.now)) result }
{
    let mut joined = Joined::new(alloc)?;
    for entry in entries {
        let link = link(components, kinds, &joined, entry)?;
        joined.push(link)?;
    }
    Ok(joined)
}
