//! For what documents are refused.
use super::*;
use std::test::Fail;

/// A document, in pieces, and how it is refused.
#[derive(Clone, Copy)]
struct Case {
    pieces: [&'static str; 5],
    bad: Option<TopoBad>,
}

const DOCUMENTS: [Case; 33] = [
    Case {
        pieces: [TOP, A, B, LINK, ""],
        bad: None,
    },
    Case {
        pieces: [TOP, "version = 1\n", A, B, LINK],
        bad: None,
    },
    Case {
        pieces: ["=", "", "", "", ""],
        bad: Some(TopoBad::Toml),
    },
    Case {
        pieces: [TOP, TOP, A, B, LINK],
        bad: Some(TopoBad::Toml),
    },
    Case {
        pieces: [TOP, "x = 1\n", A, B, LINK],
        bad: Some(TopoBad::At {
            reason: TopoReason::UnknownKey,
            entry: Entry::Top,
        }),
    },
    Case {
        pieces: [A, B, LINK, "", ""],
        bad: Some(TopoBad::At {
            reason: TopoReason::Missing,
            entry: Entry::Top,
        }),
    },
    Case {
        pieces: [TOP, "component = []\n", "", "", ""],
        bad: Some(TopoBad::At {
            reason: TopoReason::Missing,
            entry: Entry::Top,
        }),
    },
    Case {
        pieces: ["end = true\n", A, B, LINK, ""],
        bad: Some(TopoBad::At {
            reason: TopoReason::WrongType,
            entry: Entry::Top,
        }),
    },
    Case {
        pieces: ["end = 0\n", A, B, LINK, ""],
        bad: Some(TopoBad::At {
            reason: TopoReason::Range,
            entry: Entry::Top,
        }),
    },
    Case {
        pieces: ["end = 1_000_000_000_000_001\n", A, B, LINK, ""],
        bad: Some(TopoBad::At {
            reason: TopoReason::Range,
            entry: Entry::Top,
        }),
    },
    Case {
        pieces: [TOP, "component = [3]\n", "", "", ""],
        bad: Some(TopoBad::At {
            reason: TopoReason::WrongType,
            entry: Entry::Component(0),
        }),
    },
    Case {
        pieces: [TOP, A, "[[component]]\nname = \"b\"\n", "", ""],
        bad: Some(TopoBad::At {
            reason: TopoReason::Missing,
            entry: Entry::Component(1),
        }),
    },
    Case {
        pieces: [TOP, A, "[[component]]\nkind = \"none\"\nx = 1\n", "", ""],
        bad: Some(TopoBad::At {
            reason: TopoReason::Range,
            entry: Entry::Component(1),
        }),
    },
    Case {
        pieces: [
            TOP,
            A,
            "[[component]]\nname = \"b\"\nkind = \"host\"\nfirst = 1\n",
            "",
            "",
        ],
        bad: Some(TopoBad::At {
            reason: TopoReason::UnknownKey,
            entry: Entry::Component(1),
        }),
    },
    Case {
        pieces: [
            TOP,
            A,
            "[[component]]\nname = \"A\"\nkind = \"switch\"\nports = 32\n",
            "",
            "",
        ],
        bad: Some(TopoBad::At {
            reason: TopoReason::BadName,
            entry: Entry::Component(1),
        }),
    },
    Case {
        pieces: [
            TOP,
            A,
            "[[component]]\nname = \"a\"\nkind = \"nic\"\nmac = \"03:00:00:00:00:01\"\n",
            "",
            "",
        ],
        bad: Some(TopoBad::At {
            reason: TopoReason::NameTwice,
            entry: Entry::Component(1),
        }),
    },
    Case {
        pieces: [
            TOP,
            A,
            "[[component]]\nname = \"n\"\nkind = \"nic\"\nmac = \"03:00:00:00:00:01\"\n",
            "",
            "",
        ],
        bad: Some(TopoBad::At {
            reason: TopoReason::BadMac,
            entry: Entry::Component(1),
        }),
    },
    Case {
        pieces: [
            TOP,
            A,
            "[[component]]\nname = \"n\"\nkind = \"nic\"\nmac = \"02-00-00-00-00-01\"\n",
            "",
            "",
        ],
        bad: Some(TopoBad::At {
            reason: TopoReason::BadMac,
            entry: Entry::Component(1),
        }),
    },
    Case {
        pieces: [
            TOP,
            "[[component]]\nname = \"h\"\nkind = \"host\"\nram = 65538\nimage = \"x\"\n",
            "",
            "",
            "",
        ],
        bad: Some(TopoBad::At {
            reason: TopoReason::Range,
            entry: Entry::Component(0),
        }),
    },
    Case {
        pieces: [
            TOP,
            "[[component]]\nname = \"h\"\nkind = \"host\"\nram = 65536\nimage = \"\"\n",
            "",
            "",
            "",
        ],
        bad: Some(TopoBad::At {
            reason: TopoReason::Range,
            entry: Entry::Component(0),
        }),
    },
    Case {
        pieces: [
            TOP,
            "[[component]]\nname = \"h\"\nkind = \"host\"\nram = 65536\npcie = 32\nmem = 1\nimage = \"x\"\n",
            "",
            "",
            "",
        ],
        bad: Some(TopoBad::At {
            reason: TopoReason::Range,
            entry: Entry::Component(0),
        }),
    },
    Case {
        pieces: [TOP, A, B, "", ""],
        bad: Some(TopoBad::At {
            reason: TopoReason::PortFree,
            entry: Entry::Component(0),
        }),
    },
    Case {
        pieces: [
            TOP,
            A,
            B,
            LINK,
            "[[component]]\nname = \"s\"\nkind = \"switch\"\nports = 0\n",
        ],
        bad: None,
    },
    Case {
        pieces: [TOP, "link = [3]\n", A, B, ""],
        bad: Some(TopoBad::At {
            reason: TopoReason::WrongType,
            entry: Entry::Link(0),
        }),
    },
    Case {
        pieces: [TOP, A, B, LINK, "interval = 501\n"],
        bad: Some(TopoBad::At {
            reason: TopoReason::IntervalPastLatency,
            entry: Entry::Link(0),
        }),
    },
    Case {
        pieces: [TOP, A, B, LINK, "x = 1\nslots = 0\n"],
        bad: Some(TopoBad::At {
            reason: TopoReason::UnknownKey,
            entry: Entry::Link(0),
        }),
    },
    Case {
        pieces: [TOP, A, B, LINK, "slots = 1024\nvia = \"proxy\"\n"],
        bad: None,
    },
    Case {
        pieces: [TOP, A, B, LINK, "via = \"road\"\n"],
        bad: Some(TopoBad::At {
            reason: TopoReason::Range,
            entry: Entry::Link(0),
        }),
    },
    Case {
        pieces: [
            TOP,
            A,
            B,
            "[[link]]\na = \"a\"\nb = \"c\"\nlatency = 1_000_000_000_000\n",
            "",
        ],
        bad: Some(TopoBad::At {
            reason: TopoReason::NoSuchComponent,
            entry: Entry::Link(0),
        }),
    },
    Case {
        pieces: [TOP, A, B, LINK, LINK],
        bad: Some(TopoBad::At {
            reason: TopoReason::PortTwice,
            entry: Entry::Link(1),
        }),
    },
    Case {
        pieces: [
            TOP,
            A,
            "[[link]]\na = \"a\"\nb = \"a\"\nlatency = 1\n",
            "",
            "",
        ],
        bad: Some(TopoBad::At {
            reason: TopoReason::PortTwice,
            entry: Entry::Link(0),
        }),
    },
    Case {
        pieces: [TOP, A, B, LINK, "b_port = 1\n"],
        bad: Some(TopoBad::At {
            reason: TopoReason::PortMissing,
            entry: Entry::Link(0),
        }),
    },
    Case {
        pieces: [
            TOP,
            MEMORY,
            A,
            "[[link]]\na = \"m\"\nb = \"a\"\nlatency = 1\ninterval = 2\n",
            "",
        ],
        bad: Some(TopoBad::At {
            reason: TopoReason::KindsDoNotJoin,
            entry: Entry::Link(0),
        }),
    },
];

#[test]
fn documents(rt: HostRuntime) -> Result<(), Fail> {
    for row in &DOCUMENTS {
        assert_eq!(rt; refusal(rt.alloc(), &row.pieces)?, row.bad);
    }
    Ok(())
}

fn switches(alloc: Global, count: u32) -> Result<String, AllocError> {
    let mut text = String::from_str(alloc, TOP)?;
    for number in 0..count {
        let entry = format!(in alloc;
            "[[component]]\nname = \"s{number}\"\nkind = \"switch\"\nports = 0\n"
        )?;
        text.push_str(entry.as_str())?;
    }
    Ok(text)
}

#[test]
fn there_are_64_components_at_most(rt: HostRuntime) -> Result<(), Fail> {
    let full = switches(rt.alloc(), 64)?;
    assert_eq!(rt; read(rt.alloc(), full.as_bytes()).err(), None);
    let many = switches(rt.alloc(), 65)?;
    let bad = read(rt.alloc(), many.as_bytes()).err();
    assert_eq!(rt; bad, at(TopoReason::TooMany, Entry::Top));
    Ok(())
}
