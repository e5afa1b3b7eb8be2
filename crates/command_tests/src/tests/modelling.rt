//! The joined log of beacons.
use super::{FILE, FOUR_LINES, Row, TWO_BEACONS, check_rows, on_text};
use std::test::Fail;

const BOTH_SEND: &str = r#"
end = 2000
[[component]]
name = "a"
kind = "beacon"
first = 1000
period = 1000
count = 1
from = "02:00:00:00:00:01"
[[component]]
name = "b"
kind = "beacon"
first = 1000
count = 1
from = "02:00:00:00:00:02"
[[link]]
a = "a"
b = "b"
latency = 500
"#;

const THREE_LINES: &str = "1000 a tx 60\n1500 b rx 60\n2000 a tx 60\n";

const WITH_STATISTICS: &str = "1000 a tx 60
1500 b rx 60
2000 a tx 60
2500 b rx 60
channel 0 a b syncs 6 sends 2
channel 1 b a syncs 6 sends 0
";

const LOGS: [Row; 4] = [
    Row {
        words: &["model", FILE],
        text: &["end = 1000000000000000", TWO_BEACONS],
        status: 0,
        out: FOUR_LINES,
        err: "",
    },
    Row {
        words: &["model", FILE],
        text: &["end = 2500", TWO_BEACONS],
        status: 0,
        out: THREE_LINES,
        err: "",
    },
    Row {
        words: &["model", FILE],
        text: &[BOTH_SEND],
        status: 0,
        out: "1000 a tx 60\n1000 b tx 60\n1500 a rx 60\n1500 b rx 60\n",
        err: "",
    },
    Row {
        words: &["model", FILE, "--stats"],
        text: &["end = 2600", TWO_BEACONS],
        status: 0,
        out: WITH_STATISTICS,
        err: "",
    },
];

#[test]
fn logs_are_joined_until_the_end(rt: HostRuntime) -> Result<(), Fail> {
    check_rows(&rt, rt.alloc(), &LOGS)
}

const REFUSED: [Row; 3] = [
    Row {
        words: &["model", FILE],
        text: &["="],
        status: 4,
        out: "",
        err: "cosim: topology toml\n",
    },
    Row {
        words: &["model", FILE],
        text: &["end = 1"],
        status: 4,
        out: "",
        err: "cosim: topology missing key at top\n",
    },
    Row {
        words: &["model", FILE],
        text: &[ONE_ADAPTER],
        status: 3,
        out: "",
        err: "cosim: file x\n",
    },
];

const ONE_ADAPTER: &str = r#"
end = 1
[[component]]
name = "n"
kind = "nic"
mac = "02:00:00:00:00:01"
[[component]]
name = "h"
kind = "host"
ram = 65536
pcie = 1
image = "x"
[[component]]
name = "b"
kind = "beacon"
count = 0
from = "02:00:00:00:00:02"
[[link]]
a = "n"
b = "h"
latency = 1
[[link]]
a = "n"
a_port = 1
b = "b"
latency = 1
"#;

#[test]
fn refusals_have_their_status_and_line(rt: HostRuntime) -> Result<(), Fail> {
    check_rows(&rt, rt.alloc(), &REFUSED)
}

/// What stands in the file of two beacons, what stands in its place, and the line.
const CHANGED: [(&str, &str, &str); 3] = [
    (
        "latency = 500",
        "latency = 500\ninterval = 501",
        "cosim: topology interval past latency at link 0\n",
    ),
    (
        "name = \"b\"",
        "name = \"a\"",
        "cosim: topology name twice at component 1\n",
    ),
    (
        "[[link]]\na = \"a\"\nb = \"b\"\nlatency = 500\n",
        "",
        "cosim: topology port in no link at component 0\n",
    ),
];

#[test]
fn faults_of_a_file_are_named(rt: HostRuntime) -> Result<(), Fail> {
    for (old, new, line) in &CHANGED {
        let text = BOTH_SEND.replacen(rt.alloc(), old, new, 1)?;
        let refused = on_text(rt.alloc(), "model", text.as_bytes())?;
        refused.check(&rt, 4, b"", line);
    }
    Ok(())
}
