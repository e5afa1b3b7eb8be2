use std::alloc::{AllocError, Global};
use topology_file::{Config, Entry, TopoBad, TopoReason, Topology, kinds_of, print, read};

mod printed;
mod ranges;
mod refusals;
mod values;

const TOP: &str = "end = 2600\n";

const A: &str =
    "[[component]]\nname = \"a\"\nkind = \"beacon\"\nfirst = 1000\nperiod = 1000\ncount = 2\nfrom = \"02:00:00:00:00:01\"\n";

const B: &str =
    "[[component]]\nname = \"b\"\nkind = \"beacon\"\ncount = 0\nfrom = \"02:00:00:00:00:02\"\n";

const LINK: &str = "[[link]]\na = \"a\"\nb = \"b\"\nlatency = 500\n";

const SWITCH: &str = "[[component]]\nname = \"s\"\nkind = \"switch\"\nports = 2\n";

const LOOP: &str = "[[link]]\na = \"s\"\nb = \"s\"\nb_port = 1\nlatency = 1\n";

const HOST: &str =
    "[[component]]\nname = \"h\"\nkind = \"host\"\nram = 65536\npcie = 1\nmem = 1\nimage = \"x\"\n";

const NIC: &str = "[[component]]\nname = \"n\"\nkind = \"nic\"\nmac = \"02:00:00:00:00:0A\"\n";

const MEMORY: &str = "[[component]]\nname = \"m\"\nkind = \"memory\"\nsize = 16\n";

/// The pieces one after another.
fn text(alloc: Global, pieces: &[&str]) -> Result<String, AllocError> {
    let mut text = String::new(alloc);
    for piece in pieces {
        text.push_str(piece)?;
    }
    Ok(text)
}

fn refusal(alloc: Global, pieces: &[&str]) -> Result<Option<TopoBad>, AllocError> {
    let text = text(alloc, pieces)?;
    Ok(read(alloc, text.as_bytes()).err())
}

fn at(reason: TopoReason, entry: Entry) -> Option<TopoBad> {
    Some(TopoBad::At { reason, entry })
}

const ALL_KINDS: [&str; 6] = [
    TOP,
    HOST,
    NIC,
    MEMORY,
    A,
    "[[link]]\na = \"h\"\nb = \"n\"\nlatency = 7\n[[link]]\na = \"m\"\nb = \"h\"\nb_port = 1\nlatency = 9\ninterval = 3\nslots = 2\nvia = \"proxy\"\n[[link]]\na = \"n\"\na_port = 1\nb = \"a\"\nlatency = 5\n",
];
