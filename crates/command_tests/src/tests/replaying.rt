//! Schedules for the two beacons.
use crate::tests::{Answer, FILE, TWO_BEACONS, answer_to, joined, plain, two_files};
use std::alloc::Global;
use std::string::String;
use std::test::Fail;

const WORDS: [&str; 3] = ["replay", FILE, "s"];

/// `replay` of a schedule on a topology of these parts.
fn replayed(alloc: Global, topology: &[&str], schedule: &str) -> Result<Answer, Fail> {
    let topology = joined(alloc, topology)?;
    let files = two_files(alloc, topology.as_bytes(), "s", schedule.as_bytes())?;
    answer_to(alloc, &WORDS, files)
}

const PROXY: &str = "via = \"proxy\"\n";

/// `replay` of a schedule on the two beacons, whose link goes by proxies.
fn over_proxies(alloc: Global, schedule: &str) -> Result<Answer, Fail> {
    replayed(alloc, &["end = 2600", TWO_BEACONS, PROXY], schedule)
}

const NINE_STEPS: &str =
    "send 0\npoll 0\nsend 1\npoll 1\nevent 0\nevent 1\nsend 0\npoll 0\nsend 1\n";

const TEN_STEPS: &str =
    "send 0\npoll 0\nsend 1\npoll 1\nevent 0\nevent 1\nsend 0\npoll 0\nsend 1\npoll 1\n";

/// The introductions, null messages at 0, 500 and 1000, the first frame, and b's and a's null messages at 1500 before b takes
/// the frame.
const FIRST_FRAME: &str = "send 0\npoll 0\nsend 1\npoll 1
event 0\nevent 1\nsend 0\npoll 0\nsend 1\npoll 1
event 0\nevent 1\nsend 0\npoll 0\nsend 1\npoll 1
event 0\nevent 1\nsend 0\npoll 0\nsend 1\npoll 1
event 0\nsend 0\npoll 0\nevent 1\nsend 1\npoll 1\nevent 0\nevent 1
";

/// What the log has then.
const ONE_FRAME: &str = "1000 a tx 60\n1500 b rx 60\nstate running\n";

/// The end of the two beacons, a schedule, and what is written.
const ACCEPTED: [(&str, &str, &str); 6] = [
    ("end = 2600", "send 0\npoll 0\nevent 0\n", "state running\n"),
    ("end = 2600", "send 0\npoll 0\nevent 0", "state running\n"),
    ("end = 2600", "", "state running\n"),
    ("end = 2600", FIRST_FRAME, ONE_FRAME),
    ("end = 1", NINE_STEPS, "state running\n"),
    ("end = 1", TEN_STEPS, "state ended\n"),
];

#[test]
fn schedules_are_replayed(rt: HostRuntime) -> Result<(), Fail> {
    for (end, schedule, text) in &ACCEPTED {
        let answer = replayed(rt.alloc(), &[*end, TWO_BEACONS], schedule)?;
        answer.check(&rt, 0, text.as_bytes(), "");
    }
    Ok(())
}

/// The key of the link, a schedule, and the line about its first line at fault.
const REFUSED: [(&str, &str, &str); 18] = [
    (
        "",
        "send 0\npoll 0\nevent 0\npoll 1\n",
        "cosim: schedule 4\n",
    ),
    ("", "step 0\n", "cosim: schedule 1\n"),
    ("", "\n", "cosim: schedule 1\n"),
    ("", "send 0\n\n", "cosim: schedule 2\n"),
    ("", "send  0\n", "cosim: schedule 1\n"),
    ("", "send 00\n", "cosim: schedule 1\n"),
    ("", "send 4294967296\n", "cosim: schedule 1\n"),
    ("", "move 0 18446744073709551616\n", "cosim: schedule 1\n"),
    ("", "send 0 \n", "cosim: schedule 1\n"),
    ("", "send 0\r\n", "cosim: schedule 1\n"),
    ("", "send 0\nmove 0 1\n", "cosim: schedule 2\n"),
    ("", "event 2\n", "cosim: schedule 1\n"),
    ("", "poll 0\n", "cosim: schedule 1\n"),
    (PROXY, "send 0\npoll 0\n", "cosim: schedule 2\n"),
    (PROXY, "take 0\n", "cosim: schedule 1\n"),
    (PROXY, "send 0\nmove 0 1\n", "cosim: schedule 2\n"),
    (PROXY, "send 0\ntake 0\nmove 0 69\n", "cosim: schedule 3\n"),
    (PROXY, "send 0\ntake 0\nmove 0 0\n", "cosim: schedule 3\n"),
];

#[test]
fn the_first_line_at_fault_is_named(rt: HostRuntime) -> Result<(), Fail> {
    for (key, schedule, line) in &REFUSED {
        let answer = replayed(rt.alloc(), &["end = 2600", TWO_BEACONS, *key], schedule)?;
        answer.check(&rt, 10, b"", line);
    }
    Ok(())
}

const NO_PORTS: &str = "end = 1\n[[component]]\nname = \"s\"\nkind = \"switch\"\nports = 0\n";

#[test]
fn other_topologies_are_ended_or_refused(rt: HostRuntime) -> Result<(), Fail> {
    replayed(rt.alloc(), &[NO_PORTS], "")?.check(&rt, 0, b"state ended\n", "");
    plain(rt.alloc(), &WORDS, NO_PORTS.as_bytes())?.check(&rt, 3, b"", "cosim: file s\n");
    Ok(())
}

/// A message of each beacon without a payload, each a frame of 68 bytes.
const ONE_EACH: &str = "send 0\ntake 0\nmove 0 68\nput 0\npoll 0
send 1\ntake 1\nmove 1 68\nput 1\npoll 1
";

/// An event of each beacon.
const EVENT_EACH: &str = "event 0\nevent 1\n";

/// The first frame, and then b's and a's null messages at 1500 before b takes the frame.
const THE_FRAME: &str = "event 0\nsend 0\ntake 0\nmove 0 100\nmove 0 28\nput 0\npoll 0
event 1\nsend 1\ntake 1\nmove 1 68\nput 1\npoll 1
event 0\nevent 1
";

/// The introductions, null messages at 0, 500 and 1000, and the frame.
const BY_PROXIES: [&str; 8] = [
    ONE_EACH, EVENT_EACH, ONE_EACH, EVENT_EACH, ONE_EACH, EVENT_EACH, ONE_EACH, THE_FRAME,
];

#[test]
fn messages_go_by_proxies(rt: HostRuntime) -> Result<(), Fail> {
    let schedule = joined(rt.alloc(), &BY_PROXIES)?;
    let answer = over_proxies(rt.alloc(), schedule.as_str())?;
    answer.check(&rt, 0, ONE_FRAME.as_bytes(), "");
    Ok(())
}

/// Lines, others so many times, and some more.
fn repeated(
    alloc: Global,
    first: &str,
    lines: &str,
    times: u32,
    then: &str,
) -> Result<String, Fail> {
    let mut schedule = String::from_str(alloc, first)?;
    for _time in 0..times {
        schedule.push_str(lines)?;
    }
    schedule.push_str(then)?;
    Ok(schedule)
}

/// How many bytes of an introduction move, one at a time, the lines after that, and what is answered, written and said.
const BYTE_BY_BYTE: [(u32, &str, u8, &str, &str); 3] = [
    (68, "put 0\npoll 0\n", 0, "state running\n", ""),
    (67, "put 0\n", 10, "", "cosim: schedule 70\n"),
    (69, "", 10, "", "cosim: schedule 71\n"),
];

#[test]
fn bytes_move_one_at_a_time(rt: HostRuntime) -> Result<(), Fail> {
    let alloc = rt.alloc();
    for (bytes, then, status, text, line) in &BYTE_BY_BYTE {
        let schedule = repeated(alloc, "send 0\ntake 0\n", "move 0 1\n", *bytes, then)?;
        let answer = over_proxies(alloc, schedule.as_str())?;
        answer.check(&rt, *status, text.as_bytes(), line);
    }
    Ok(())
}

/// One null message of each beacon: six lines for each time that one is due.
const ONE_TIME: &str = "event 0\nevent 1\nsend 0\npoll 0\nsend 1\npoll 1\n";

/// What follows 10,000 lines, and what is answered, written and said.
const TEN_THOUSAND: [(&str, u8, &str, &str); 2] = [
    ("", 0, "state running\n", ""),
    ("poll 0\n", 10, "", "cosim: schedule 10001\n"),
];

#[test]
fn ten_thousand_lines_are_replayed(rt: HostRuntime) -> Result<(), Fail> {
    let alloc = rt.alloc();
    let silent = TWO_BEACONS.replacen(alloc, "count = 2", "count = 0", 1)?;
    for (then, status, text, line) in &TEN_THOUSAND {
        let first = "send 0\npoll 0\nsend 1\npoll 1\n";
        let schedule = repeated(alloc, first, ONE_TIME, 1666, then)?;
        let answer = replayed(
            alloc,
            &["end = 1000000", silent.as_str()],
            schedule.as_str(),
        )?;
        answer.check(&rt, *status, text.as_bytes(), line);
    }
    Ok(())
}
