//! Whole commands over files and sinks in memory. The expected texts are worked out by hand.
ghost use Rattle.std.specs.Prelude.{◌≤◌};

use cosim_cmd::cosim_local;
use cs_base::{Items, MemFile, MemFiles, MemSink, Octets, Text};
use std::alloc::Global;
use std::process::Abort;
use std::string::String;
use std::test::Fail;

mod assembling;
mod checking;
mod failing;
mod images;
mod loading;
mod modelling;
mod piped;
mod replaying;
mod running;
mod sentences;
mod stepping;
mod switching;

/// The name of the one file that there is.
const FILE: &str = "in";

/// Two beacons, of which `a` sends two frames to `b`. The end is missing.
const TWO_BEACONS: &str = r#"
[[component]]
name = "a"
kind = "beacon"
first = 1000
period = 1000
count = 2
from = "02:00:00:00:00:01"
[[component]]
name = "b"
kind = "beacon"
count = 0
from = "02:00:00:00:00:02"
[[link]]
a = "a"
b = "b"
latency = 500
"#;

const FOUR_LINES: &str = "1000 a tx 60\n1500 b rx 60\n2000 a tx 60\n2500 b rx 60\n";

/// What a command answered, wrote and said.
#[derive(Drop)]
struct Answer {
    status: u8,
    out: Octets,
    err: Octets,
}

impl Answer {
    /// This was answered, written and said.
    fn check(&self, rt: &impl Abort, status: u8, out: &[u8], err: &str) {
        assert_eq!(rt; self.status, status);
        assert_eq!(rt; self.out.as_slice(), out);
        assert_eq!(rt; self.err.as_slice(), err.as_bytes());
    }
}

/// A command's words, the parts of its file's text, and what is answered, written and said.
#[derive(Clone, Copy)]
struct Row {
    words: &'static [&'static str],
    text: &'static [&'static str],
    status: u8,
    out: &'static str,
    err: &'static str,
}

fn check_rows(rt: &impl Abort, alloc: Global, rows: &[Row]) -> Result<(), Fail> {
    for row in rows {
        let text = joined(alloc, row.text)?;
        let answer = plain(alloc, row.words, text.as_bytes())?;
        answer.check(rt, row.status, row.out.as_bytes(), row.err);
    }
    Ok(())
}

fn joined(alloc: Global, parts: &[&str]) -> Result<String, Fail> {
    let mut text = String::new(alloc);
    for part in parts {
        text.push_str(part)?;
    }
    Ok(text)
}

fn sink(alloc: Global, most: usize, failing: &[u64]) -> Result<MemSink, Fail>
    requires { 1 ≤ most }
{
    Ok(MemSink::new(
        alloc,
        most,
        Items::from_vec(Vec::from_slice(alloc, failing)?),
    ))
}

fn file(alloc: Global, name: &str, content: &[u8]) -> Result<MemFile, Fail> {
    Ok(MemFile {
        name: Text::new(alloc, name)?,
        content: Octets::from_slice(alloc, content)?,
    })
}

/// The one file, with this text.
fn one_file(alloc: Global, text: &[u8]) -> Result<Items<MemFile>, Fail> {
    let mut files = Items::new(alloc);
    files.push(file(alloc, FILE, text)?)?;
    Ok(files)
}

/// That file, and another one.
fn two_files(
    alloc: Global,
    text: &[u8],
    name: &str,
    content: &[u8],
) -> Result<Items<MemFile>, Fail> {
    let mut files = one_file(alloc, text)?;
    files.push(file(alloc, name, content)?)?;
    Ok(files)
}

fn files(alloc: Global, text: &[u8]) -> Result<MemFiles, Fail> {
    Ok(MemFiles::new(alloc, one_file(alloc, text)?, Items::new(alloc)))
}

fn owned(alloc: Global, words: &[&str]) -> Result<Vec<String>, Fail> {
    let mut owned = Vec::new(alloc);
    for word in words {
        owned.push(String::from_str(alloc, word)?)?;
    }
    Ok(owned)
}

/// What a command wrote into its sinks.
fn answered(alloc: Global, status: u8, out: &MemSink, err: &MemSink) -> Result<Answer, Fail> {
    Ok(Answer {
        status,
        out: Octets::from_slice(alloc, out.written())?,
        err: Octets::from_slice(alloc, err.written())?,
    })
}

fn answer_over(
    alloc: Global,
    command: &[&str],
    files: &mut MemFiles,
    out: &mut MemSink,
    err: &mut MemSink,
) -> Result<Answer, Fail> {
    let command = owned(alloc, command)?;
    let status = cosim_local(alloc, command.as_slice(), files, out, err);
    answered(alloc, status, out, err)
}

fn answer_of(
    alloc: Global,
    command: &[&str],
    text: &[u8],
    out: &mut MemSink,
    err: &mut MemSink,
) -> Result<Answer, Fail> {
    answer_over(alloc, command, &mut files(alloc, text)?, out, err)
}

/// A command on these files, over sinks that take all.
fn answer_to(alloc: Global, command: &[&str], files: Items<MemFile>) -> Result<Answer, Fail> {
    answer_over(
        alloc,
        command,
        &mut MemFiles::new(alloc, files, Items::new(alloc)),
        &mut sink(alloc, 65_536, &[])?,
        &mut sink(alloc, 65_536, &[])?,
    )
}

/// A command over sinks that take all.
fn plain(alloc: Global, command: &[&str], text: &[u8]) -> Result<Answer, Fail> {
    answer_to(alloc, command, one_file(alloc, text)?)
}

/// A command on a file with this text.
fn on_text(alloc: Global, command: &str, text: &[u8]) -> Result<Answer, Fail> {
    plain(alloc, &[command, FILE], text)
}
