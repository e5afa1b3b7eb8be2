use thiserror::Error;

/// Why a topology is refused, by number.
#[derive(Clone, Copy, Debug, PartialEq, Eq, PartialOrd, Ord, Hash)]
pub enum TopoReason {
    /// The entry has a key that isn't one of its kind's.
    UnknownKey,
    /// A required key isn't there, or there is no component.
    Missing,
    /// A value isn't a whole number, a text or an array of tables, as its key needs, or an entry is no table.
    WrongType,
    /// A number is out of its range, or a text isn't one of those that its key takes.
    Range,
    /// The name is no name of a component.
    BadName,
    /// An earlier component has the name.
    NameTwice,
    /// An end of the link names no component.
    NoSuchComponent,
    /// An end of the link is an end of an earlier link, or both ends are the same port.
    PortTwice,
    /// A component at an end of the link has no such port.
    PortMissing,
    /// The kinds of the ports at the ends are no partners.
    KindsDoNotJoin,
    /// The interval is longer than the latency.
    IntervalPastLatency,
    /// A text is no Ethernet address, or is one of a group where one of a station is due.
    BadMac,
    /// There are more than 64 components or more than 1,024 links.
    TooMany,
    /// A port of the component is in no link.
    PortFree,
}

/// The part of a topology that a refusal is of. Components and links are numbered from 0, in the order of the file.
#[derive(Clone, Copy, Debug, PartialEq, Eq, PartialOrd, Ord, Hash)]
pub enum Entry {
    /// The document itself.
    Top,
    Component(u32),
    Link(u32),
}

/// Why a topology can't be read.
#[derive(Clone, Copy, Debug, PartialEq, Eq, Hash, Error)]
pub enum TopoBad {
    /// The bytes are no TOML document.
    #[error("the text is no TOML document")]
    Toml,
    /// The document is no topology: the first refusal, and where it is.
    #[error("the document is no topology")]
    At { reason: TopoReason, entry: Entry },
    /// Memory is wanting.
    #[error("no memory")]
    NoMemory,
}
