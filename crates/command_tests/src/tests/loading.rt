//! Systems of stations. The numbers are those of docs/peer/load.py, which was written apart from the program.
use super::{answer_of, on_text, plain, sink};
use std::str;
use std::test::Fail;

const ONE_STATION: &str = "load 1\ncomponents 4\nlinks 3\nlines 16\nsyncs 777\nsends 76\n";

const THREE_STATIONS: &str = "load 3\ncomponents 8\nlinks 7\nlines 69\nsyncs 1916\nsends 378\n";

/// A command's words, and what it writes.
const SUMS: [(&[&str], &str); 3] = [
    (&["load", "1"], ONE_STATION),
    (&["load", "--", "1"], ONE_STATION),
    (&["load", "3"], THREE_STATIONS),
];

#[test]
fn runs_are_summed_up(rt: HostRuntime) -> Result<(), Fail> {
    for (words, sums) in &SUMS {
        plain(rt.alloc(), words, b"")?.check(&rt, 0, sums.as_bytes(), "");
    }
    Ok(())
}

#[test]
fn systems_are_topology_files(rt: HostRuntime) -> Result<(), Fail> {
    let alloc = rt.alloc();
    let written = plain(alloc, &["load", "--text", "2"], b"")?;
    assert_eq!(rt; written.status, 0);
    let text = written.out.as_slice();
    assert!(rt; str::from_utf8(text)?.contains("end = 100000000"));
    on_text(alloc, "check", text)?.check(&rt, 0, text, "");
    on_text(alloc, "model", text)?.check(&rt, 3, b"", "cosim: file ping.bin\n");
    Ok(())
}

#[test]
fn a_failing_output_is_told(rt: HostRuntime) -> Result<(), Fail> {
    let mut out = sink(rt.alloc(), 9, &[1])?;
    let mut err = sink(rt.alloc(), 100, &[])?;
    let answer = answer_of(rt.alloc(), &["load", "1"], b"", &mut out, &mut err)?;
    assert_eq!(rt; answer.status, 9);
    assert_eq!(rt; answer.out.as_slice(), b"load 1\nco".as_slice());
    Ok(())
}
