//! Whole commands over an outside that fails and lies. Of each the status, what is said and written, what is asked for and
//! dialed, and what is left is looked at.
use cosim_cmd::{cosim_local, cosim_run};
use cs_base::{Dialer, Items, MemFile, MemFiles, MemSink, Octets, OpenGate, Queue, Text, WireEnd};
use frames::Streams;
use pipe_wires::{PipeDialer, PipePlan};
use recorders::{Dials, Reads};
use std::alloc::Global;
use std::string::String;
use std::sync::Wait;
use std::test::Fail;
use std::thread::Threads;

mod changes;
mod dials;
mod ends;
mod failures;
mod faults;
mod frames;
mod pieces;
mod programs;
mod reads;
mod recorders;
mod sinks;
mod stated;
mod twists;
mod words;

const FILE: &str = "in";

/// The name of the one file, as it is noted where it is asked for.
const ASKED: &str = "in\n";

const TWO_WORKERS: &str = "--workers=2";

/// A beacon that sends two frames to another.
const BEACONS: &str = r#"
end = 2600
[[component]]
name = "a"
kind = "beacon"
first = 1000
period = 1000
count = 2
from = "02:00:00:00:00:01"
[[component]]
name = "b"
kind = "beacon"
count = 0
from = "02:00:00:00:00:02"
[[link]]
a = "a"
b = "b"
latency = 500
"#;

const LOG: &str = "1000 a tx 60\n1500 b rx 60\n2000 a tx 60\n2500 b rx 60\n";

/// The two beacons, their link by proxy.
fn pair(alloc: Global) -> Result<String, Fail> {
    Ok(format!(in alloc; "{BEACONS}via = \"proxy\"\n")?)
}

/// What a command reads and writes.
#[derive(Drop)]
struct Outside {
    files: Reads,
    out: MemSink,
    err: MemSink,
}

impl Outside {
    /// These files, and streams that take all.
    fn of_files(alloc: Global, files: Items<MemFile>, failing: Items<u64>) -> Outside {
        Outside {
            files: Reads::new(alloc, MemFiles::new(alloc, files, failing)),
            out: sink(alloc),
            err: sink(alloc),
        }
    }

    /// One file with this text.
    fn of_text(alloc: Global, text: &str) -> Result<Outside, Fail> {
        let mut files = Items::new(alloc);
        files.push(file(alloc, FILE, text.as_bytes())?)?;
        Ok(Outside::of_files(alloc, files, Items::new(alloc)))
    }
}

fn sink(alloc: Global) -> MemSink {
    MemSink::new(alloc, 65_536, Items::new(alloc))
}

fn file(alloc: Global, name: &str, content: &[u8]) -> Result<MemFile, Fail> {
    Ok(MemFile {
        name: Text::new(alloc, name)?,
        content: Octets::from_slice(alloc, content)?,
    })
}

/// A list of one number.
fn only<N: Drop>(alloc: Global, number: N) -> Result<Items<N>, Fail> {
    let mut numbers = Items::new(alloc);
    numbers.push(number)?;
    Ok(numbers)
}

fn owned(alloc: Global, words: &[&str]) -> Result<Vec<String>, Fail> {
    let mut owned = Vec::new(alloc);
    for word in words {
        owned.push(String::from_str(alloc, word)?)?;
    }
    Ok(owned)
}

/// What is left of a channel by proxy.
#[derive(Debug, Drop)]
struct Left {
    channel: u32,
    sent: Octets,
    got: Octets,
}

impl Left {
    /// It is of this channel; the beginning of what goes there was sent, and the beginning of what its wire gives came.
    fn begins(&self, channel: u32, sent: &[u8], given: &[u8]) -> bool {
        self.channel == channel
            && sent.starts_with(self.sent.as_slice())
            && given.starts_with(self.got.as_slice())
    }
}

/// What a command answers, writes and says, which files it asks for and which channels it dials, and what it leaves.
#[derive(Debug, Drop)]
struct Run {
    status: u8,
    out: Octets,
    err: Octets,
    asked: Octets,
    dialed: Items<u32>,
    failed_dials: u64,
    rests: usize,
    ends: Items<Left>,
}

impl Run {
    /// What came of a command that dials nothing.
    fn local(alloc: Global, status: u8, outside: &Outside) -> Result<Run, Fail> {
        Ok(Run {
            status,
            out: Octets::from_slice(alloc, outside.out.written())?,
            err: Octets::from_slice(alloc, outside.err.written())?,
            asked: Octets::from_slice(alloc, outside.files.asked())?,
            dialed: Items::new(alloc),
            failed_dials: 0,
            rests: 0,
            ends: Items::new(alloc),
        })
    }

    /// Notes which channels were dialed, and how many dials failed.
    fn note_dials<D: Dialer>(&mut self, dials: &Dials<D>) -> Result<(), Fail> {
        for channel in dials.dialed() {
            self.dialed.push(*channel)?;
        }
        self.failed_dials = dials.faults();
        Ok(())
    }

    /// It has this status and says this line. It asked for these files, wrote nothing, and leaves no queue.
    fn refuses(&self, status: u8, line: &str, asked: &str) -> bool {
        self.status == status
            && self.err.as_slice() == line.as_bytes()
            && self.asked.as_slice() == asked.as_bytes()
            && self.out.is_empty()
            && self.rests == 0
    }

    /// It dialed no channel, and leaves none.
    fn dials_none(&self) -> bool {
        self.dialed.is_empty() && self.failed_dials == 0 && self.ends.is_empty()
    }

    /// It dialed both channels of the pair, and leaves them: on each the beginning of what goes there was sent, and the
    /// beginning of what its wire gives came.
    fn leaves(&self, sent: &Streams, given: &Streams) -> bool {
        let ends = self.ends.as_slice();
        let (Some(first), Some(second)) = (ends.first(), ends.get(1)) else {
            return false;
        };
        self.dialed.as_slice() == [0, 1].as_slice()
            && self.failed_dials == 0
            && ends.len() == 2
            && first.begins(0, sent.first.as_slice(), given.first.as_slice())
            && second.begins(1, sent.second.as_slice(), given.second.as_slice())
    }

    /// A run of the pair that is broken off with this status and line.
    fn breaks(&self, status: u8, line: &str, sent: &Streams, given: &Streams) -> bool {
        self.refuses(status, line, ASKED) && self.leaves(sent, given)
    }

    /// What came on the first channel.
    fn came(&self) -> &[u8] {
        match self.ends.as_slice().first() {
            Some(left) => left.got.as_slice(),
            None => &[],
        }
    }
}

/// A command that isn't `run`.
fn local(alloc: Global, words: &[&str], mut outside: Outside) -> Result<Run, Fail> {
    let words = owned(alloc, words)?;
    let status = cosim_local(
        alloc,
        words.as_slice(),
        &mut outside.files,
        &mut outside.out,
        &mut outside.err,
    );
    Run::local(alloc, status, &outside)
}

/// What is left of channels by proxy, without their wires.
fn without_wires<O: Drop, I: Drop>(
    alloc: Global,
    ends: Vec<WireEnd<O, I>>,
) -> Result<Items<Left>, Fail> {
    let mut left = Items::new(alloc);
    for end in ends {
        left.push(Left {
            channel: end.channel,
            sent: end.sent.copy()?,
            got: end.got.copy()?,
        })?;
    }
    Ok(left)
}

/// The command `run` over what a dialer gives.
fn run_over<R: Threads + Wait + Sync, D: Dialer + Drop>(
    rt: &R,
    alloc: Global,
    words: &[&str],
    mut outside: Outside,
    dialer: D,
) -> Result<Run, Fail>
where
    D::Out: Drop + Send,
    D::In: Drop + Send,
{
    let words = owned(alloc, words)?;
    let mut dials = Dials::new(alloc, dialer);
    let (mut ends, mut rests) = (Vec::new(alloc), Vec::new(alloc));
    let status = cosim_run(
        rt,
        alloc,
        words.as_slice(),
        &mut outside.files,
        &mut dials,
        &mut ends,
        &mut rests,
        &mut outside.out,
        &mut outside.err,
        &OpenGate,
    );
    let mut run = Run::local(alloc, status, &outside)?;
    run.rests = rests.len();
    run.ends = without_wires(alloc, ends)?;
    run.note_dials(&dials)?;
    Ok(run)
}

/// The command `run` over pipes that give what they took.
fn run_plain<R: Threads + Wait + Sync>(
    rt: &R,
    alloc: Global,
    words: &[&str],
    outside: Outside,
) -> Result<Run, Fail> {
    let dialer = PipeDialer::new(alloc, Queue::new(alloc), Items::new(alloc));
    run_over(rt, alloc, words, outside, dialer)
}

/// A run of the pair over pipes with these plans.
fn run_pair<R: Threads + Wait + Sync>(
    rt: &R,
    alloc: Global,
    workers: &str,
    first: PipePlan,
    second: PipePlan,
) -> Result<Run, Fail> {
    let mut plans = Queue::new(alloc);
    plans.push(first)?;
    plans.push(second)?;
    let outside = Outside::of_text(alloc, pair(alloc)?.as_str())?;
    let dialer = PipeDialer::new(alloc, plans, Items::new(alloc));
    run_over(
        rt,
        alloc,
        &["run", FILE, workers, "--stats"],
        outside,
        dialer,
    )
}
