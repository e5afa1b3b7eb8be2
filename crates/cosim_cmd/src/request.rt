//! What the words of the command line ask for: a command on files, or `load`.
ghost use Rattle.std.specs.Prelude.{◌≡◌, ◌≤◌, IfOk, IfSome, option_map};
ghost use Rattle.cosim_cmd.specs.Sentence.{texts};
ghost use Rattle.cosim_cmd.specs.Request.{station_count, stations_and_text, IsStationCount, HasStations, request_of};
ghost use Rattle.cosim_cmd.specs.Said.{requested};

use crate::words::{Flag, Sentence, word_and_flag};
use cs_base::NoMemory;
use itoa::Buffer;
use std::alloc::Global;

/// What the words ask for.
#[derive(Clone, Copy, Debug)]
pub enum Request<'a> {
    /// A command on files.
    OnFiles(Sentence<'a>),
    /// `load <n> [--text]`, where n is 1 to 30.
    Load { stations: u32, text: bool },
}

/// The number from 1 to 30 whose decimal digits a word is.
fn station_count(word: &str) -> Option<u32>
    ensures count { result ≡ station_count word.now }
    ensures few { IfSome result IsStationCount }
{
    for number in 1..31u32 {
        if Buffer::new().format(number).as_bytes() == word.as_bytes() {
            return Some(number);
        }
    }
    None
}

/// The number of stations, and whether `--text` is given; None where the words say something else.
fn stations_and_text(alloc: Global, words: &[String]) -> Result<Option<(u32, bool)>, NoMemory>
    ensures said { IfOk result (λ said. said ≡ stations_and_text (texts words.now)) }
    ensures few { IfOk result (λ said. IfSome said (λ p. IsStationCount p.0)) }
{
    let Some((word, text)) = word_and_flag(alloc, "load", Flag::Text, words)? else {
        return Ok(None);
    };
    match station_count(word) {
        Some(stations) => Ok(Some((stations, text))),
        None => Ok(None),
    }
}

impl<'a> Request<'a> {
    ghost use Rattle.std.specs.Prelude.{◌≡◌, IfOk, IfSome, option_map};
    ghost use Rattle.cosim_cmd.specs.Sentence.{texts};
    ghost use Rattle.cosim_cmd.specs.Request.{HasStations, request_of};
    ghost use Rattle.cosim_cmd.specs.Said.{requested};

    /// What the words ask for; None where they are no sentence.
    pub fn parse(alloc: Global, words: &'a [String]) -> Result<Option<Request<'a>>, NoMemory>
        ensures requested { IfOk result (λ request. option_map requested request ≡ request_of (texts words.now)) }
        ensures few { IfOk result (λ request. IfSome request (λ r. HasStations (requested r))) }
    {
        let Some((command, own)) = words.split_first() else {
            return Ok(None);
        };
        match command.as_str() {
            "load" => match stations_and_text(alloc, own)? {
                Some((stations, text)) => Ok(Some(Request::Load { stations, text })),
                None => Ok(None),
            },
            _ => match Sentence::parse(alloc, words)? {
                Some(sentence) => Ok(Some(Request::OnFiles(sentence))),
                None => Ok(None),
            },
        }
    }
}
