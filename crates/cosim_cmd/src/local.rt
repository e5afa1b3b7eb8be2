//! The commands that wait for nobody.
ghost use Rattle.std.specs.Prelude.{◌≡◌, ◌≢◌, ◌↔◌, ◌⊎◌, IfOk, IfErr, OnOk, None};
ghost use Rattle.cosim_cmd.specs.Sentence.{texts};
ghost use Rattle.cosim_cmd.specs.Request.{IsStationCount, HasStations, request_of};
ghost use Rattle.cosim_cmd.specs.Said.{said, requested};
ghost use Rattle.cosim_cmd.specs.Inputs.{AsksForFiles, AsksAtMostInOrder, AsksAtMostOf};
ghost use Rattle.cosim_cmd.specs.Load.{IsLoaded};
ghost use Rattle.cosim_cmd.specs.Outputs.{IsOutput};
ghost use Rattle.cosim_cmd.specs.Local.{Task, OfRest, Lacks, AsksFurther, Makes, IsOutputBad, Answers, IsAnswerBad, IsOutputOf, IsRefusal, Writes, WritesInPart, Says, IsAccepted, Stays};

use crate::asm::assembled;
use crate::check::printed;
use crate::input::content;
use crate::model::{Clocks, modelled};
use crate::refusal::{Fault, OutputBad, Refusal, unread};
use crate::replay::replayed;
use crate::report::report;
use crate::request::Request;
use crate::words::Sentence;
use crate::write::write_all;
use cs_base::{Failed, Files, NoMemory, Octets, Sink};
use load_run::{load_summary, load_text};
use std::alloc::Global;

/// The output for a sentence, where these are the bytes of its file.
fn made<F: Files>(
    alloc: Global,
    sentence: &Sentence,
    bytes: &[u8],
    files: &mut F,
) -> Result<Octets, OutputBad>
    ensures made { let s = said sentence.now in let task : Task = record { sentence = s; bytes = bytes.now } in
        IfOk result (λ text. OfRest task (F.seen files.old) (F.seen files.new)
        (λ inputs. IsOutput s inputs text)) }
    ensures refused { let task : Task = record { sentence = said sentence.now; bytes = bytes.now } in
        IfErr result (Lacks task (F.seen files.old) (F.seen files.new)) }
    ensures asked { let task : Task = record { sentence = said sentence.now; bytes = bytes.now } in
        AsksFurther task (F.seen files.old) (F.seen files.new) }
    ensures files_kept { (F.seen files.new).held ≡ (F.seen files.old).held }
{
    match sentence {
        Sentence::Check { .. } => match printed(alloc, bytes) {
            Ok(text) => Ok(text),
            Err(Fault::Line(line)) => Err(OutputBad::Topology(line)),
            Err(Fault::NoMemory) => Err(OutputBad::NoMemory),
        },
        Sentence::Model { stats, .. } => modelled(alloc, Clocks::Global, *stats, bytes, files),
        Sentence::Serial { stats, .. } => modelled(alloc, Clocks::Local, *stats, bytes, files),
        Sentence::Replay { schedule, .. } => replayed(alloc, bytes, schedule, files),
        Sentence::Asm { .. } => match assembled(alloc, bytes) {
            Ok(text) => Ok(text),
            Err(Fault::Line(line)) => Err(OutputBad::Asm(line)),
            Err(Fault::NoMemory) => Err(OutputBad::NoMemory),
        },
    }
}

/// The output for a sentence.
fn output<F: Files>(alloc: Global, sentence: &Sentence, files: &mut F) -> Result<Octets, OutputBad>
    ensures made { IfOk result (Makes (said sentence.now) (F.seen files.old) (F.seen files.new)) }
    ensures refused { IfErr result (IsOutputBad (said sentence.now) (F.seen files.old) (F.seen files.new)) }
    ensures asked { AsksAtMostInOrder (said sentence.now) (F.seen files.old) (F.seen files.new) }
    ensures files_kept { (F.seen files.new).held ≡ (F.seen files.old).held }
{
    match content(alloc, sentence.file(), files) {
        Ok(bytes) => made(alloc, sentence, bytes.as_slice(), files),
        Err(fault) => Err(unread(fault)),
    }
}

/// The output of `load`: the system as a topology file, or the summary of its run.
fn loaded(alloc: Global, stations: u32, as_text: bool) -> Result<Octets, NoMemory>
    requires { IsStationCount stations }
    ensures { IfOk result (IsLoaded stations as_text) }
{
    if as_text {
        load_text(alloc, stations)
    } else {
        load_summary(alloc, stations)
    }
}

/// The output that is asked for.
fn answer<F: Files>(alloc: Global, request: &Request, files: &mut F) -> Result<Octets, OutputBad>
    requires { HasStations (requested request.now) }
    ensures made { IfOk result (Answers (requested request.now) (F.seen files.old) (F.seen files.new)) }
    ensures refused { IfErr result
        (IsAnswerBad (requested request.now) (F.seen files.old) (F.seen files.new)) }
    ensures asked { AsksAtMostOf (requested request.now) (F.seen files.old) (F.seen files.new) }
    ensures files_kept { (F.seen files.new).held ≡ (F.seen files.old).held }
{
    match request {
        Request::OnFiles(sentence) => output(alloc, sentence, files),
        Request::Load { stations, text } => Ok(loaded(alloc, *stations, *text)?),
    }
}

fn run<F: Files, K: Sink>(
    alloc: Global,
    words: &[String],
    files: &mut F,
    out: &mut K,
) -> Result<(), Refusal>
    ensures done { OnOk result (Writes (K.seen out.old) (K.seen out.new)
        (IsOutputOf (texts words.now) (F.seen files.old) (F.seen files.new))) }
    ensures refused { IfErr result (IsRefusal (texts words.now) (F.seen files.old) (F.seen files.new)) }
    ensures asked { AsksForFiles (texts words.now) (F.seen files.old) (F.seen files.new) }
    ensures files_kept { (F.seen files.new).held ≡ (F.seen files.old).held }
    ensures out_failed { result ≡ Err Refusal.Out → WritesInPart (K.seen out.old) (K.seen out.new)
        (IsOutputOf (texts words.now) (F.seen files.old) (F.seen files.new)) }
    ensures out_kept { IfErr result (λ refusal. refusal ≢ Refusal.Out → K.seen out.new ≡ K.seen out.old) }
{
    let Some(request) = Request::parse(alloc, words)? else {
        return Err(Refusal::Usage);
    };
    let text = answer(alloc, &request, files)?;
    match write_all(out, text.as_slice()) {
        Ok(()) => Ok(()),
        Err(Failed) => Err(Refusal::Out),
    }
}

/// Runs the command that the words say; it waits for nobody. `files` has the command's files, `out` gets the output,
/// whole or, where it fails, a part of it from the front, and `err` the line that says why a command is refused.
/// Answers the exit status:
///
/// - 0: the output stands whole in `out`.
/// - 1: memory is wanting, `cosim: no memory`.
/// - 2: the words are no sentence, `cosim: usage`. The sentences are `check <file>`, `model <file> [--stats]`,
///   `serial <file> [--stats]`, `replay <file> <schedule>`, `load <n> [--text]` and `asm <file>`; n is 1 to 30 in decimal
///   digits. A word that begins with `-` and isn't `-` alone is an option's, which stands anywhere, and once; after a
///   word `--` each word is positional.
/// - 3: the file can't be read, `cosim: file <name>`.
/// - 4: the file is no topology, `cosim: topology toml` or `cosim: topology <reason> at <entry>`.
/// - 5: the program of a host is longer than its RAM, `cosim: image <component>`.
/// - 9: the output can't be written, `cosim: out`.
/// - 10: `replay` has a schedule with a line that spells no step or one that isn't enabled in its turn,
///   `cosim: schedule <line>`.
/// - 11: `asm` has a source with a fault, `cosim: asm <line> <reason>`.
///
/// `check` writes the topology with every key of every entry, as a topology file; it needs nothing but the file.
/// `model` writes the joined log of the run, and with `--stats` a line for each channel after it:
/// `channel <k> <from> <to> syncs <n> sends <m>`. `serial` writes the same, by steps of components with clocks of their own,
/// until all have ended. `replay` takes the steps of a schedule, one by one, on components with
/// clocks of their own, and writes the joined log so far and a line, `state ended` or `state running`. `load` reads no
/// file: it makes a system of n stations, runs it as `model` does, and writes six lines, each a word and a number:
/// `load`, `components`, `links`, `lines`, `syncs` and `sends`; with `--text` it writes the system as a topology file, as
/// `check` would. `asm` writes the bytes of an assembler's source.
///
/// On each status but 0 and 9 nothing is written to `out`. A failing `err` leaves the status as it is.
pub fn cosim_local<F: Files, K: Sink, E: Sink>(
    alloc: Global,
    words: &[String],
    files: &mut F,
    out: &mut K,
    err: &mut E,
) -> u8
    // The words.
    ensures usage { result ≢ 1 → (result ≡ 2) ↔ (request_of (texts words.now) ≡ None) }

    // The files: asked for in order, not at all where the words are no sentence or `load`'s, and left as they were.
    ensures asked { AsksForFiles (texts words.now) (F.seen files.old) (F.seen files.new) }
    ensures files_kept { (F.seen files.new).held ≡ (F.seen files.old).held }

    // The output.
    ensures done { result ≡ 0 → Writes (K.seen out.old) (K.seen out.new)
        (IsOutputOf (texts words.now) (F.seen files.old) (F.seen files.new)) }
    ensures out_failed { result ≡ 9 → WritesInPart (K.seen out.old) (K.seen out.new)
        (IsOutputOf (texts words.now) (F.seen files.old) (F.seen files.new)) }
    ensures out_kept { result ≢ 0 → result ≢ 9 → K.seen out.new ≡ K.seen out.old }

    // Each refusal, with its status, its reason and its line.
    ensures refused { result ≢ 0 → Says result (E.seen err.old) (E.seen err.new)
        (IsRefusal (texts words.now) (F.seen files.old) (F.seen files.new)) }
    ensures no_line { result ≡ 0 → E.seen err.new ≡ E.seen err.old }

    // What is accepted is answered, unless reading or writing fails or memory is wanting.
    ensures complete { IsAccepted (texts words.now) (F.seen files.old).held
        → Stays (F.seen files.old).faults (F.seen files.new).faults
        → Stays (K.seen out.old).faults (K.seen out.new).faults
        → (result ≡ 0) ⊎ (result ≡ 1) }
{
    match run(alloc, words, files, out) {
        Ok(()) => 0,
        Err(refusal) => report(err, &refusal),
    }
}
