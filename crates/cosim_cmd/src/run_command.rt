//! The command `run`, which may wait.
ghost use Rattle.std.specs.Prelude.{◌≡◌, ◌≢◌, ◌≤◌, ◌↔◌, ◌⊎◌, [], IfOk, IfErr};
ghost use Rattle.cosim_cmd.specs.Sentence.{texts};
ghost use Rattle.cosim_cmd.specs.RunWords.{SaysNoRun};
ghost use Rattle.cosim_cmd.specs.Inputs.{AsksAtMostInOrder};
ghost use Rattle.cosim_cmd.specs.Local.{Writes, WritesInPart, Says, Stays};
ghost use Rattle.cosim_cmd.specs.Broken.{wires, AreUntouched, AllHold};
ghost use Rattle.cosim_cmd.specs.Threads.{as_serial, MakesRun, IsRunOutput, IsRunText, AsksForRun, DialsInOrder, DialsForRun, IsRunBad, IsRunRefusal, IsEarly, IsEarlyRefusal, CanRunWords};

use crate::input::content;
use crate::refusal::{OutputBad, Refusal, unread};
use crate::report::report;
use crate::run_words::Run;
use crate::threads::{RunOutput, run_of_text};
use crate::write::write_all;
use cs_base::{Dialer, Failed, Files, Gate, Sink, WireEnd};
use slot_queue::Rest;
use std::alloc::Global;
use std::sync::Wait;
use std::thread::Threads;

/// What is written and left for a sentence.
fn output<R: Threads + Wait + Sync, F: Files, D: Dialer, G: Gate + Sync>(
    rt: &R,
    alloc: Global,
    words: &Run,
    files: &mut F,
    dial: &mut D,
    ends: &mut Vec<WireEnd<D::Out, D::In>>,
    gate: &G,
) -> Result<RunOutput, OutputBad>
where
    D::Out: Drop + Send,
    D::In: Drop + Send,
    requires workers { (1 ≤ words.now.workers) × (words.now.workers ≤ 64) }
    requires none_left { ends.old.items ≡ [] }
    ensures made { IfOk result (λ made. MakesRun (wires D.Out.seen D.In.seen
        (D.seen dial.old) (D.seen dial.new) ends.new.items)
        words.now (F.seen files.old) (F.seen files.new) made.text made.rests.items) }
    ensures refused { IfErr result (IsRunBad (wires D.Out.seen D.In.seen
        (D.seen dial.old) (D.seen dial.new) ends.new.items)
        (as_serial words.now) (F.seen files.old) (F.seen files.new)) }
    ensures asked { AsksAtMostInOrder (as_serial words.now) (F.seen files.old) (F.seen files.new) }
    ensures files_kept { (F.seen files.new).held ≡ (F.seen files.old).held }
    ensures dialed { DialsInOrder (wires D.Out.seen D.In.seen
        (D.seen dial.old) (D.seen dial.new) ends.new.items)
        (as_serial words.now) (F.seen files.old) (F.seen files.new) }
    ensures untouched { IfErr result (λ bad. IsEarly bad → AreUntouched (wires D.Out.seen D.In.seen
        (D.seen dial.old) (D.seen dial.new) ends.new.items)) }
{
    match content(alloc, words.file(), files) {
        Ok(bytes) => run_of_text(rt, alloc, words, bytes.as_slice(), files, dial, ends, gate),
        Err(fault) => Err(unread(fault)),
    }
}

/// Runs what the words say, and gives the closed queues.
fn run_and_write<R: Threads + Wait + Sync, F: Files, D: Dialer, K: Sink, G: Gate + Sync>(
    rt: &R,
    alloc: Global,
    words: &[String],
    files: &mut F,
    dial: &mut D,
    ends: &mut Vec<WireEnd<D::Out, D::In>>,
    out: &mut K,
    gate: &G,
) -> Result<Vec<Rest>, Refusal>
where
    D::Out: Drop + Send,
    D::In: Drop + Send,
    requires none_left { ends.old.items ≡ [] }
    ensures done { IfOk result (λ rests. Writes (K.seen out.old) (K.seen out.new)
        (IsRunOutput (wires D.Out.seen D.In.seen
        (D.seen dial.old) (D.seen dial.new) ends.new.items)
        (texts words.now) (F.seen files.old) (F.seen files.new) rests.items)) }
    ensures refused { IfErr result (IsRunRefusal (wires D.Out.seen D.In.seen
        (D.seen dial.old) (D.seen dial.new) ends.new.items)
        (texts words.now) (F.seen files.old) (F.seen files.new)) }
    ensures asked { AsksForRun (texts words.now) (F.seen files.old) (F.seen files.new) }
    ensures files_kept { (F.seen files.new).held ≡ (F.seen files.old).held }
    ensures out_failed { IfErr result (λ refusal. refusal ≡ Refusal.Out
        → WritesInPart (K.seen out.old) (K.seen out.new) (IsRunText (wires D.Out.seen D.In.seen
        (D.seen dial.old) (D.seen dial.new) ends.new.items)
        (texts words.now) (F.seen files.old) (F.seen files.new))) }
    ensures out_kept { IfErr result
        (λ refusal. refusal ≢ Refusal.Out → K.seen out.new ≡ K.seen out.old) }
    ensures dialed { DialsForRun (wires D.Out.seen D.In.seen
        (D.seen dial.old) (D.seen dial.new) ends.new.items)
        (texts words.now) (F.seen files.old) (F.seen files.new) }
    ensures untouched { IfErr result (λ refusal. IsEarlyRefusal refusal → AreUntouched (wires D.Out.seen D.In.seen
        (D.seen dial.old) (D.seen dial.new) ends.new.items)) }
{
    let Some(said) = Run::parse(alloc, words)? else {
        return Err(Refusal::Usage);
    };
    let RunOutput { text, rests } = output(rt, alloc, &said, files, dial, ends, gate)?;
    match write_all(out, text.as_slice()) {
        Ok(()) => Ok(rests),
        Err(Failed) => Err(Refusal::Out),
    }
}

/// Runs `run <file> --workers <n> [--stats]`: what `model` writes, by components with clocks of their own on n workers, 1
/// to 64 in decimal digits, joined by queues between threads, and by wires where their links
/// go by proxy. It may wait for ever; where it returns, it answers the exit
/// status:
///
/// - 0: the output stands whole in `out`, and `rests` has the closed queues, one for each channel by queue, and two for each by
///   proxy, in order.
/// - 1: memory is wanting, `cosim: no memory`.
/// - 2: the words are no sentence of `run`, `cosim: usage`. `--workers` takes its value as the next word or after `=`; each
///   option stands anywhere, and once; after a word `--` each word is positional.
/// - 3: the file, or the program of a host, can't be read, `cosim: file <name>`.
/// - 4: the file is no topology, `cosim: topology toml` or `cosim: topology <reason> at <entry>`.
/// - 5: the program of a host is longer than its RAM, `cosim: image <component>`.
/// - 6: the wire of a channel by proxy can't be had, or it failed or ended, `cosim: link lost <channel>`.
/// - 7: the bytes that came on such a channel can't be, `cosim: bad peer <channel> <offset> <reason>`.
/// - 8: other bytes came on such a channel than were sent, `cosim: link differs <channel> <offset>`.
/// - 9: the output can't be written, `cosim: out`.
///
/// `ends` and `rests` are emptied first. Each channel by proxy is dialed once, in order, before anything runs; once
/// something ran, `ends` has what is left of each. On each status but 0 and 9 nothing is written to `out`. A failing `err`
/// leaves the status as it is. Each worker passes `gate` before each of its rounds.
pub fn cosim_run<R, F, D, K, E, G>(
    rt: &R,
    alloc: Global,
    words: &[String],
    files: &mut F,
    dial: &mut D,
    ends: &mut Vec<WireEnd<D::Out, D::In>>,
    rests: &mut Vec<Rest>,
    out: &mut K,
    err: &mut E,
    gate: &G,
) -> u8
where
    R: Threads + Wait + Sync,
    F: Files,
    D: Dialer,
    D::Out: Drop + Send,
    D::In: Drop + Send,
    K: Sink,
    E: Sink,
    G: Gate + Sync,
    // The words.
    ensures usage { result ≢ 1 → (result ≡ 2) ↔ SaysNoRun (texts words.now) }

    // The files: asked for in order, not at all where the words are no sentence, and left as they were.
    ensures asked { AsksForRun (texts words.now) (F.seen files.old) (F.seen files.new) }
    ensures files_kept { (F.seen files.new).held ≡ (F.seen files.old).held }

    // The output: the joined log of the global run, and the statistics where they are asked for; and the closed queues,
    // through which the messages of that run went, and what is left of the channels by proxy, on which all bytes came as
    // they were to go.
    ensures done { result ≡ 0 → Writes (K.seen out.old) (K.seen out.new)
        (IsRunOutput (wires D.Out.seen D.In.seen
        (D.seen dial.old) (D.seen dial.new) ends.new.items)
        (texts words.now) (F.seen files.old) (F.seen files.new) rests.new.items) }
    ensures out_failed { result ≡ 9 → WritesInPart (K.seen out.old) (K.seen out.new)
        (IsRunText (wires D.Out.seen D.In.seen
        (D.seen dial.old) (D.seen dial.new) ends.new.items)
        (texts words.now) (F.seen files.old) (F.seen files.new)) }
    ensures out_kept { result ≢ 0 → result ≢ 9 → K.seen out.new ≡ K.seen out.old }
    ensures rests_kept { result ≢ 0 → rests.new.items ≡ [] }

    // The channels by proxy: dialed in order, none before all files are read; and what is left tells what their wires do.
    ensures dialed { DialsForRun (wires D.Out.seen D.In.seen
        (D.seen dial.old) (D.seen dial.new) ends.new.items)
        (texts words.now) (F.seen files.old) (F.seen files.new) }
    ensures untouched { 2 ≤ result → result ≤ 5 → AreUntouched (wires D.Out.seen D.In.seen
        (D.seen dial.old) (D.seen dial.new) ends.new.items) }

    // Each refusal, with its status, its reason and its line.
    ensures refused { result ≢ 0 → Says result (E.seen err.old) (E.seen err.new)
        (IsRunRefusal (wires D.Out.seen D.In.seen
        (D.seen dial.old) (D.seen dial.new) ends.new.items)
        (texts words.now) (F.seen files.old) (F.seen files.new)) }
    ensures no_line { result ≡ 0 → E.seen err.new ≡ E.seen err.old }

    // What is accepted is answered, unless reading, writing or dialing fails, a wire fails, ends or gives other bytes than
    // were sent, or memory is wanting.
    ensures complete { CanRunWords (texts words.now) (F.seen files.old).held
        → Stays (F.seen files.old).faults (F.seen files.new).faults
        → Stays (K.seen out.old).faults (K.seen out.new).faults
        → AllHold (wires D.Out.seen D.In.seen
        (D.seen dial.old) (D.seen dial.new) ends.new.items)
        → (result ≡ 0) ⊎ (result ≡ 1) }
{
    ends.clear();
    rests.clear();
    match run_and_write(rt, alloc, words, files, dial, ends, out, gate) {
        Ok(left) => {
            *rests = left;
            0
        }
        Err(refusal) => report(err, &refusal),
    }
}
