//! The words of the command line.
ghost use Rattle.std.specs.Prelude.{◌≡◌, IfOk, option_copied, option_map};
ghost use Rattle.clap.specs.Words.{app_of};
ghost use Rattle.cosim_cmd.specs.Sentence.{texts, file_of, file_word, file_pair, word_and_flag, sentence_of};
ghost use Rattle.cosim_cmd.specs.Said.{said, described, described_with_schedule, flag_name, flag_word, described_with_flag};

use clap::error::ErrorKind;
use clap::{Arg, ArgAction, Command};
use cs_base::NoMemory;
use std::alloc::Global;

/// What the words say.
#[derive(Clone, Copy, Debug)]
pub enum Sentence<'a> {
    /// `check <file>`
    Check { file: &'a str },
    /// `model <file> [--stats]`
    Model { file: &'a str, stats: bool },
    /// `serial <file> [--stats]`
    Serial { file: &'a str, stats: bool },
    /// `replay <file> <schedule>`
    Replay { file: &'a str, schedule: &'a str },
    /// `asm <file>`
    Asm { file: &'a str },
}

/// A command with one file and no options. The words that it takes are those after its name.
fn with_file<'a>(alloc: Global, name: &'a str) -> Result<Command<'a>, NoMemory>
    ensures { IfOk result (λ command. app_of command ≡ described name.entry.now) }
{
    let file = Arg::new(alloc, "file").required(true);
    let command = Command::new(alloc, name)
        .no_binary_name(true)
        .disable_help_flag(true)
        .arg(file)?;
    Ok(command)
}

/// The file of a command with one file and no options; None where the words say something else.
fn file_word<'a>(
    alloc: Global,
    name: &'a str,
    words: &'a [String],
) -> Result<Option<&'a str>, NoMemory>
    ensures { IfOk result (λ file. option_copied file ≡ file_word (texts words.now)) }
{
    let command = with_file(alloc, name)?;
    match command.try_get_matches_from(words) {
        Ok(matches) => Ok(matches.get_str("file")),
        Err(error) if error.kind() == ErrorKind::OutOfMemory => Err(NoMemory),
        Err(_) => Ok(None),
    }
}

/// A command with a file and a schedule, and no options. The words that it takes are those after its name.
fn with_schedule<'a>(alloc: Global, name: &'a str) -> Result<Command<'a>, NoMemory>
    ensures { IfOk result (λ command. app_of command ≡ described_with_schedule name.entry.now) }
{
    let schedule = Arg::new(alloc, "schedule").required(true);
    Ok(with_file(alloc, name)?.arg(schedule)?)
}

/// The two files of a command with a file and a schedule, and no options; None where the words say something else.
fn file_pair<'a>(
    alloc: Global,
    name: &'a str,
    words: &'a [String],
) -> Result<Option<(&'a str, &'a str)>, NoMemory>
    ensures { IfOk result
        (λ said. option_map (λ p. (p.0.now, p.1.now)) said ≡ file_pair (texts words.now)) }
{
    let command = with_schedule(alloc, name)?;
    match command.try_get_matches_from(words) {
        Ok(matches) => {
            let Some(file) = matches.get_str("file") else {
                return Ok(None);
            };
            let Some(schedule) = matches.get_str("schedule") else {
                return Ok(None);
            };
            Ok(Some((file, schedule)))
        }
        Err(error) if error.kind() == ErrorKind::OutOfMemory => Err(NoMemory),
        Err(_) => Ok(None),
    }
}

/// An option that has no value.
#[derive(Clone, Copy, Debug)]
pub enum Flag {
    /// `--stats`
    Stats,
    /// `--text`
    Text,
}

/// The name of an option, which its word has after `--`.
fn flag_name<'a>(flag: Flag) -> &'a str
    ensures { result.now ≡ flag_name flag }
{
    match flag {
        Flag::Stats => "stats",
        Flag::Text => "text",
    }
}

/// A command with one file and an option that has no value. The words that it takes are those after its name.
fn with_flag<'a>(alloc: Global, name: &'a str, flag: Flag) -> Result<Command<'a>, NoMemory>
    ensures { IfOk result (λ command. app_of command ≡ described_with_flag flag name.entry.now) }
{
    let option = Arg::new(alloc, flag_name(flag))
        .long(flag_name(flag))
        .action(ArgAction::SetTrue);
    Ok(with_file(alloc, name)?.arg(option)?)
}

/// The positional word of a command that has one, and whether the option is given; None where the words say something
/// else.
pub fn word_and_flag<'a>(
    alloc: Global,
    name: &'a str,
    flag: Flag,
    words: &'a [String],
) -> Result<Option<(&'a str, bool)>, NoMemory>
    ensures { IfOk result (λ said.
        option_map (λ p. (p.0.now, p.1)) said ≡ word_and_flag (flag_word flag) (texts words.now)) }
{
    let command = with_flag(alloc, name, flag)?;
    match command.try_get_matches_from(words) {
        Ok(matches) => {
            let Some(word) = matches.get_str("file") else {
                return Ok(None);
            };
            Ok(Some((word, matches.get_flag(flag_name(flag)))))
        }
        Err(error) if error.kind() == ErrorKind::OutOfMemory => Err(NoMemory),
        Err(_) => Ok(None),
    }
}

impl<'a> Sentence<'a> {
    ghost use Rattle.std.specs.Prelude.{◌≡◌, IfOk, option_map};
    ghost use Rattle.cosim_cmd.specs.Sentence.{texts, file_of, sentence_of};
    ghost use Rattle.cosim_cmd.specs.Said.{said};

    /// The sentence that the words are; None where they are none.
    pub fn parse(alloc: Global, words: &'a [String]) -> Result<Option<Sentence<'a>>, NoMemory>
        ensures { IfOk result (λ sentence. option_map said sentence ≡ sentence_of (texts words.now)) }
    {
        let Some((command, words)) = words.split_first() else {
            return Ok(None);
        };
        match command.as_str() {
            "check" => Ok(file_word(alloc, "check", words)?.map(|file| Sentence::Check { file })),
            "model" => Ok(word_and_flag(alloc, "model", Flag::Stats, words)?.map(|(
                file,
                stats,
            )| Sentence::Model { file, stats })),
            "serial" => Ok(word_and_flag(alloc, "serial", Flag::Stats, words)?.map(|(
                file,
                stats,
            )| Sentence::Serial { file, stats })),
            "replay" => Ok(file_pair(alloc, "replay", words)?.map(|(
                file,
                schedule,
            )| Sentence::Replay { file, schedule })),
            "asm" => Ok(file_word(alloc, "asm", words)?.map(|file| Sentence::Asm { file })),
            _ => Ok(None),
        }
    }

    /// The name of the file that the command reads.
    pub fn file(&self) -> &'a str
        ensures { result.now ≡ file_of (said self.now) }
    {
        match *self {
            Sentence::Check { file }
            | Sentence::Model { file, .. }
            | Sentence::Serial { file, .. }
            | Sentence::Replay { file, .. }
            | Sentence::Asm { file } => file,
        }
    }
}
