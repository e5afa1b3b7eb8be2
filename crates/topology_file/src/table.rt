//! The table of keys.
ghost use Rattle.std.specs.Prelude.{◌≡◌};
ghost use Rattle.topology_file.specs.Keys.{row, top_keys, component_keys, link_keys};

use crate::form::{Absent, Form, Kind};
use crate::key::Key;
use cs_base::limits::{
    LATEST_END, LEAST_RAM, LONGEST_CYCLE, LONGEST_FRAME, LONGEST_LATENCY, MOST_FRAMES, MOST_MEMORY,
    MOST_PORTS, MOST_RAM, MOST_SLOTS, SHORTEST_FRAME,
};

const fn whole(least: u64, most: u64) -> Form
    ensures { result ≡ Form.Whole least most }
{
    Form::Whole { least, most }
}

/// How the file calls a key.
pub(crate) fn text(key: Key) -> &'static str
    ensures { result.now ≡ (row key).text }
{
    match key {
        Key::Version => "version",
        Key::End => "end",
        Key::Components => "component",
        Key::Links => "link",
        Key::Name => "name",
        Key::Kind => "kind",
        Key::First => "first",
        Key::Period => "period",
        Key::Count => "count",
        Key::Length => "length",
        Key::To => "to",
        Key::From => "from",
        Key::Ports => "ports",
        Key::Age => "age",
        Key::Size => "size",
        Key::Ram => "ram",
        Key::Cycle => "cycle",
        Key::Pcie => "pcie",
        Key::Mem => "mem",
        Key::Hart => "hart",
        Key::Image => "image",
        Key::Mac => "mac",
        Key::A => "a",
        Key::APort => "a_port",
        Key::B => "b",
        Key::BPort => "b_port",
        Key::Latency => "latency",
        Key::Interval => "interval",
        Key::Slots => "slots",
        Key::Via => "via",
    }
}

/// What the value of a key must be.
pub(crate) fn form(key: Key) -> Form
    ensures { result ≡ (row key).form }
{
    match key {
        Key::Version => whole(1, 1),
        Key::End | Key::Period | Key::Age => whole(1, LATEST_END),
        Key::Components => Form::SomeEntries,
        Key::Links => Form::Entries,
        Key::Name => Form::Name,
        Key::Kind => Form::Kind,
        Key::First => whole(0, LATEST_END),
        Key::Count => whole(0, MOST_FRAMES),
        Key::Length => whole(SHORTEST_FRAME as u64, LONGEST_FRAME as u64),
        Key::To => Form::Mac,
        Key::From | Key::Mac => Form::Individual,
        Key::Ports | Key::Pcie | Key::Mem => whole(0, MOST_PORTS as u64),
        Key::Size => whole(1, MOST_MEMORY),
        Key::Ram => Form::Fours {
            least: LEAST_RAM,
            most: MOST_RAM,
        },
        Key::Cycle => whole(1, LONGEST_CYCLE),
        Key::Hart => whole(0, u32::MAX as u64),
        Key::Image => Form::FileName,
        Key::A | Key::B => Form::Text,
        Key::APort | Key::BPort => whole(0, MOST_PORTS as u64 - 1),
        Key::Latency | Key::Interval => whole(1, LONGEST_LATENCY),
        Key::Slots => whole(1, MOST_SLOTS as u64),
        Key::Via => Form::Via,
    }
}

/// What it means that a key is absent.
pub(crate) fn absent(key: Key) -> Absent
    ensures { result ≡ (row key).absent }
{
    match key {
        Key::Version => Absent::Number(1),
        Key::First | Key::Pcie | Key::Mem | Key::Hart | Key::APort | Key::BPort => Absent::Number(
            0,
        ),
        Key::Period => Absent::Number(1_000_000),
        Key::Length => Absent::Number(60),
        Key::Age => Absent::Number(300_000_000_000_000),
        Key::Cycle => Absent::Number(10_000),
        Key::Slots => Absent::Number(64),
        Key::Links | Key::To | Key::Interval | Key::Via => Absent::Usual,
        Key::End
        | Key::Components
        | Key::Name
        | Key::Kind
        | Key::Count
        | Key::From
        | Key::Ports
        | Key::Size
        | Key::Ram
        | Key::Image
        | Key::Mac
        | Key::A
        | Key::B
        | Key::Latency => Absent::Fault,
    }
}

const TOP: [Key; 4] = [Key::Version, Key::End, Key::Components, Key::Links];

const BEACON: [Key; 8] = [
    Key::Name,
    Key::Kind,
    Key::First,
    Key::Period,
    Key::Count,
    Key::Length,
    Key::To,
    Key::From,
];

const SWITCH: [Key; 4] = [Key::Name, Key::Kind, Key::Ports, Key::Age];

const MEMORY: [Key; 3] = [Key::Name, Key::Kind, Key::Size];

const HOST: [Key; 8] = [
    Key::Name,
    Key::Kind,
    Key::Ram,
    Key::Cycle,
    Key::Pcie,
    Key::Mem,
    Key::Hart,
    Key::Image,
];

const NIC: [Key; 3] = [Key::Name, Key::Kind, Key::Mac];

const LINK: [Key; 8] = [
    Key::A,
    Key::APort,
    Key::B,
    Key::BPort,
    Key::Latency,
    Key::Interval,
    Key::Slots,
    Key::Via,
];

/// The keys of the document.
pub(crate) fn top_keys() -> &'static [Key]
    ensures { result.now ≡ top_keys }
{
    &TOP
}

/// The keys of a component of a kind.
pub(crate) fn component_keys(kind: Kind) -> &'static [Key]
    ensures { result.now ≡ component_keys kind }
{
    match kind {
        Kind::Beacon => &BEACON,
        Kind::Switch => &SWITCH,
        Kind::Memory => &MEMORY,
        Kind::Host => &HOST,
        Kind::Nic => &NIC,
    }
}

/// The keys of a link.
pub(crate) fn link_keys() -> &'static [Key]
    ensures { result.now ≡ link_keys }
{
    &LINK
}
