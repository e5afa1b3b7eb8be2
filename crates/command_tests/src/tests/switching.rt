//! The joined log of networks of switches.
use super::{FILE, Row, check_rows};
use std::test::Fail;

/// Two stations send at once, and the third one hears after the end.
pub const THREE_STATIONS: &str = r#"
end = 1501
[[component]]
name = "s"
kind = "switch"
ports = 3
[[component]]
name = "x"
kind = "beacon"
first = 1000
count = 1
from = "02:00:00:00:00:0a"
[[component]]
name = "y"
kind = "beacon"
first = 1000
count = 1
from = "02:00:00:00:00:0b"
[[component]]
name = "z"
kind = "beacon"
count = 0
from = "02:00:00:00:00:0c"
[[link]]
a = "x"
b = "s"
b_port = 2
latency = 500
[[link]]
a = "y"
b = "s"
b_port = 0
latency = 500
[[link]]
a = "z"
b = "s"
b_port = 1
latency = 500
"#;

pub const NO_PORTS: &str = r#"
end = 1
[[component]]
name = "s"
kind = "switch"
ports = 0
"#;

/// Networks and their joined logs.
const NETWORKS: [Row; 2] = [
    Row {
        words: &["model", FILE],
        text: &[NO_PORTS],
        status: 0,
        out: "",
        err: "",
    },
    Row {
        words: &["model", FILE],
        text: &[THREE_STATIONS],
        status: 0,
        out: "1000 x tx 60\n1000 y tx 60\n1500 s learn 02:00:00:00:00:0b 0\n1500 s flood\n1500 s learn 02:00:00:00:00:0a 2\n1500 s flood\n",
        err: "",
    },
];

#[test]
fn networks_have_their_joined_log(rt: HostRuntime) -> Result<(), Fail> {
    check_rows(&rt, rt.alloc(), &NETWORKS)
}
