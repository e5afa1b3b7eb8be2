/// What the value of a key must be.
#[derive(Clone, Copy, Debug)]
pub(crate) enum Form {
    /// A whole number in a range.
    Whole { least: u64, most: u64 },
    /// A multiple of 4 in a range.
    Fours { least: u64, most: u64 },
    /// Any text.
    Text,
    /// The name of a component.
    Name,
    /// A text of 1 to 255 bytes.
    FileName,
    /// One of the kinds of components.
    Kind,
    /// One of the ways of a link.
    Via,
    /// An Ethernet address.
    Mac,
    /// The Ethernet address of one station.
    Individual,
    /// An array, whose elements are entries of their own.
    Entries,
    /// An array with at least one element.
    SomeEntries,
}

/// What an absent key means.
#[derive(Clone, Copy, Debug)]
pub(crate) enum Absent {
    /// It is a fault.
    Fault,
    /// It stands for this number.
    Number(u64),
    /// It stands for the usual value, which is no number of its own.
    Usual,
}

/// The kind of a component.
#[derive(Clone, Copy, Debug)]
pub(crate) enum Kind {
    Beacon,
    Switch,
    Memory,
    Host,
    Nic,
}
