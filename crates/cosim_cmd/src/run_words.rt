//! The words of `run`.
ghost use Rattle.std.specs.Prelude.{ℕ, ◌≡◌, ◌++◌, IfOk, OnOk, MatchOption, option_map};
ghost use Rattle.cosim_cmd.specs.Sentence.{texts};
ghost use Rattle.cosim_cmd.specs.RunWords.{first_and_rest, workers_and_rest, onto, IsWorkers, SaysRun, SaysNoRun};

use crate::words::{Flag, word_and_flag};
use cs_base::NoMemory;
use itoa::Buffer;
use std::alloc::Global;
use std::marker::Model;

/// What the words of `run` say.
#[derive(Debug, Drop)]
pub struct Run {
    file: String,
    workers: u32,
    stats: bool,
}

impl Model for Run {
    ghost use Rattle.std.specs.String.{string_bytes};
    ghost use Rattle.cosim_cmd.specs.RunWords.{Run as Said};

    ghost Value = { Said };

    ghost view = { λ run. record { file = string_bytes run.file; workers = run.workers; stats = run.stats } };
}

/// The value of `--workers`, and the other words.
#[derive(Drop)]
struct Taken<'a> {
    value: &'a [u8],
    others: Vec<String>,
}

/// The number of workers that a value spells.
fn workers_of(value: &[u8]) -> Option<u32>
    ensures { MatchOption result ((workers : ℕ) → IsWorkers value.now workers → ⊥)
        (IsWorkers value.now) }
{
    'numbers: for workers in 1..65 {
        if Buffer::new().format(workers).as_bytes() == value {
            return Some(workers);
        }
    }
    None
}

/// Copies words behind others.
fn append(others: &mut Vec<String>, words: &[String]) -> Result<(), NoMemory>
    ensures { OnOk result (texts others.new.items ≡ texts others.old.items ++ texts words.now) }
{
    'words: for word in words {
        others.push(word.clone()?)?;
    }
    Ok(())
}

/// The first word as a value, behind these words.
fn with_next<'a>(
    mut others: Vec<String>,
    words: &'a [String],
) -> Result<Option<Taken<'a>>, NoMemory>
    ensures { IfOk result (λ found. option_map (λ taken.
        (taken.value.now, texts taken.others.items)) found
        ≡ onto (texts others.items) (first_and_rest (texts words.now))) }
{
    let Some((value, more)) = words.split_first() else {
        return Ok(None);
    };
    append(&mut others, more)?;
    Ok(Some(Taken {
        value: value.as_bytes(),
        others,
    }))
}

/// Takes the option `--workers` and its value out of the words.
fn take_workers<'a>(alloc: Global, words: &'a [String]) -> Result<Option<Taken<'a>>, NoMemory>
    ensures { IfOk result (λ found. option_map (λ taken.
        (taken.value.now, texts taken.others.items)) found ≡ workers_and_rest (texts words.now)) }
{
    let mut others = Vec::new(alloc);
    'words: for (place, word) in words.iter().enumerate() {
        let word = word.as_str();
        if word == "--" {
            return Ok(None);
        }
        if word == "--workers" {
            return with_next(others, &words[place + 1..]);
        }
        if let Some(value) = word.as_bytes().strip_prefix(b"--workers=") {
            append(&mut others, &words[place + 1..])?;
            return Ok(Some(Taken { value, others }));
        }
        others.push(String::from_str(alloc, word)?)?;
    }
    Ok(None)
}

impl Run {
    /// The sentence of `run` that the words are; None where they are none.
    pub fn parse(alloc: Global, words: &[String]) -> Result<Option<Run>, NoMemory>
        ensures { IfOk result (λ found.
            MatchOption found (SaysNoRun (texts words.now)) (SaysRun (texts words.now))) }
    {
        let Some((command, words)) = words.split_first() else {
            return Ok(None);
        };
        if command.as_str() != "run" {
            return Ok(None);
        }
        let Some(Taken { value, others }) = take_workers(alloc, words)? else {
            return Ok(None);
        };
        let Some(workers) = workers_of(value) else {
            return Ok(None);
        };
        let said = word_and_flag(alloc, "run", Flag::Stats, others.as_slice())?;
        let Some((file, stats)) = said else {
            return Ok(None);
        };
        Ok(Some(Run {
            file: String::from_str(alloc, file)?,
            workers,
            stats,
        }))
    }

    /// The topology's file.
    pub fn file(&self) -> &str
        ensures { result.now ≡ self.now.file }
    {
        self.file.as_str()
    }

    /// The number of workers.
    pub fn workers(&self) -> u32
        ensures { result ≡ self.now.workers }
    {
        self.workers
    }

    /// Whether the statistics are asked for.
    pub fn stats(&self) -> bool
        ensures { result ≡ self.now.stats }
    {
        self.stats
    }
}
