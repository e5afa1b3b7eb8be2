//! The ends of the ranges of numbers.
use super::*;
use std::test::Fail;

const BEACON: &str =
    "[[component]]\nname = \"a\"\nkind = \"beacon\"\nfrom = \"02:00:00:00:00:01\"\n";

const BEACON_COUNT: &str =
    "[[component]]\nname = \"a\"\nkind = \"beacon\"\nfrom = \"02:00:00:00:00:01\"\ncount = 1\n";

const SWITCH_ALONE: &str = "[[component]]\nname = \"s\"\nkind = \"switch\"\n";

const MEMORY_ALONE: &str = "[[component]]\nname = \"m\"\nkind = \"memory\"\n";

const HOST_ALONE: &str = "[[component]]\nname = \"h\"\nkind = \"host\"\nimage = \"x\"\n";

const HOST_RAM: &str = "[[component]]\nname = \"h\"\nkind = \"host\"\nimage = \"x\"\nram = 65536\n";

const LINK_ALONE: &str =
    "[[component]]\nname = \"s\"\nkind = \"switch\"\nports = 2\n[[link]]\na = \"s\"\nb = \"s\"\n";

const LONG_LINK: &str =
    "[[component]]\nname = \"s\"\nkind = \"switch\"\nports = 2\n[[link]]\na = \"s\"\nb = \"s\"\nlatency = 1000000000000\n";

/// A key of the last entry of a text, and the least and greatest number that it takes.
#[derive(Clone, Copy)]
struct Limits {
    before: &'static str,
    key: &'static str,
    least: i64,
    greatest: i64,
    entry: Entry,
}

const LIMITS: [Limits; 17] = [
    Limits {
        before: BEACON_COUNT,
        key: "first",
        least: 0,
        greatest: 1_000_000_000_000_000,
        entry: Entry::Component(0),
    },
    Limits {
        before: BEACON_COUNT,
        key: "period",
        least: 1,
        greatest: 1_000_000_000_000_000,
        entry: Entry::Component(0),
    },
    Limits {
        before: BEACON_COUNT,
        key: "length",
        least: 14,
        greatest: 1514,
        entry: Entry::Component(0),
    },
    Limits {
        before: BEACON,
        key: "count",
        least: 0,
        greatest: 1_000_000_000,
        entry: Entry::Component(0),
    },
    Limits {
        before: SWITCH_ALONE,
        key: "ports",
        least: 0,
        greatest: 32,
        entry: Entry::Component(0),
    },
    Limits {
        before: SWITCH,
        key: "age",
        least: 1,
        greatest: 1_000_000_000_000_000,
        entry: Entry::Component(0),
    },
    Limits {
        before: MEMORY_ALONE,
        key: "size",
        least: 1,
        greatest: 16_777_216,
        entry: Entry::Component(0),
    },
    Limits {
        before: HOST_ALONE,
        key: "ram",
        least: 65_536,
        greatest: 16_777_216,
        entry: Entry::Component(0),
    },
    Limits {
        before: HOST_RAM,
        key: "cycle",
        least: 1,
        greatest: 1_000_000_000,
        entry: Entry::Component(0),
    },
    Limits {
        before: HOST_RAM,
        key: "pcie",
        least: 0,
        greatest: 32,
        entry: Entry::Component(0),
    },
    Limits {
        before: HOST_RAM,
        key: "mem",
        least: 0,
        greatest: 32,
        entry: Entry::Component(0),
    },
    Limits {
        before: HOST_RAM,
        key: "hart",
        least: 0,
        greatest: 4_294_967_295,
        entry: Entry::Component(0),
    },
    Limits {
        before: LONG_LINK,
        key: "a_port",
        least: 0,
        greatest: 31,
        entry: Entry::Link(0),
    },
    Limits {
        before: LONG_LINK,
        key: "b_port",
        least: 0,
        greatest: 31,
        entry: Entry::Link(0),
    },
    Limits {
        before: LONG_LINK,
        key: "interval",
        least: 1,
        greatest: 1_000_000_000_000,
        entry: Entry::Link(0),
    },
    Limits {
        before: LONG_LINK,
        key: "slots",
        least: 1,
        greatest: 1024,
        entry: Entry::Link(0),
    },
    Limits {
        before: LINK_ALONE,
        key: "latency",
        least: 1,
        greatest: 1_000_000_000_000,
        entry: Entry::Link(0),
    },
];

/// Whether a number is refused as out of the key's range.
fn is_out_of_range(alloc: Global, limits: &Limits, value: i64) -> Result<bool, AllocError> {
    let line = format!(in alloc; " = {value}\n")?;
    let refused = refusal(alloc, &[TOP, limits.before, limits.key, line.as_str()])?;
    Ok(refused == at(TopoReason::Range, limits.entry))
}

#[test]
fn ranges_have_both_their_ends(rt: HostRuntime) -> Result<(), Fail> {
    for limits in &LIMITS {
        assert!(rt; !is_out_of_range(rt.alloc(), limits, limits.least)?);
        assert!(rt; !is_out_of_range(rt.alloc(), limits, limits.greatest)?);
        let below = limits.least.wrapping_sub(1);
        assert!(rt; is_out_of_range(rt.alloc(), limits, below)?);
        let above = limits.greatest.wrapping_add(1);
        assert!(rt; is_out_of_range(rt.alloc(), limits, above)?);
    }
    Ok(())
}
