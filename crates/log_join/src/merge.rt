ghost use Rattle.std.specs.Prelude.{◌≡◌, ◌≤◌, length, map, All, IfOk, IfSome, OnOk, decimal};
ghost use Rattle.log_join.specs.Before.{IsJoined};
ghost use Rattle.log_join.specs.Entries.{spaced};
ghost use Rattle.log_join.specs.Heads.{head_time, second_time, IsFrom};

use crate::entry::Entry;
use crate::text::{room_of, write_pieces};
use cs_base::decimal;
use cs_base::items::{Items, Octets};
use cs_base::name::Name;
use cs_base::no_memory::NoMemory;
use cs_base::time::Time;
use device_api::Line;
use moment_tree::Agenda;
use std::alloc::Global;

/// The first time that an agenda can't hold.
const TOO_LATE: u64 = 144_115_188_075_855_872;

/// How many bytes the joined text has, where each log is in the order of time and there are 1 to 64 of them.
pub(crate) fn merge_room(logs: &[Items<Line>], names: &[Name]) -> Option<usize>
    requires { length names.now ≡ length logs.now }
    ensures some { IfSome result (λ _. 1 ≤ length logs.now) }
    ensures few { IfSome result (λ _. length logs.now ≤ 64) }
    ensures in_order { IfSome result (λ _. All (IsFrom 0) logs.now) }
{
    if logs.is_empty() || logs.len() > 64 {
        return None;
    }
    let mut room = 0usize;
    for (index, log) in logs.iter().enumerate() {
        let more = room_in_order(&names[index], log.as_slice())?;
        room = room.saturating_add(more);
    }
    Some(room)
}

/// How many bytes a component's lines have in the joined text, where they are in the order of time.
fn room_in_order(name: &Name, log: &[Line]) -> Option<usize>
    ensures { IfSome result (λ _. IsFrom 0 log.now) }
{
    let mut earliest = 0u64;
    let mut room = 0usize;
    for line in log {
        let at = line.at.picoseconds();
        if at < earliest || TOO_LATE <= at {
            return None;
        }
        earliest = at;
        room = room.saturating_add(room_of(Entry { name, line }));
    }
    Some(room)
}

/// The joined text of logs in the order of time: what is first of all that is left is written next.
pub(crate) fn merged(
    alloc: Global,
    logs: &[Items<Line>],
    names: &[Name],
    room: usize,
) -> Result<Octets, NoMemory>
    requires same { length names.now ≡ length logs.now }
    requires some { 1 ≤ length logs.now }
    requires few { length logs.now ≤ 64 }
    requires in_order { All (IsFrom 0) logs.now }
    ensures { IfOk result (IsJoined names.now logs.now) }
{
    let mut rests = rests_of(alloc, logs)?;
    let mut agenda = first_times(alloc, logs)?;
    let mut seconds = second_times(alloc, logs)?;
    let spaced = spaced_names(alloc, names)?;
    let mut stamped = 0u64;
    let mut digits = digits_of(alloc, stamped)?;
    let mut text = Octets::from_vec(Vec::with_capacity(alloc, room)?);
    'moments: while let Some(moment) = agenda.first() {
        let place = moment.component as usize;
        let Some((line, rest)) = rests[place].split_first() else {
            return Ok(text);
        };
        let at = line.at.picoseconds();
        stamp(stamped, at, &mut digits)?;
        stamped = at;
        write_pieces(digits.as_slice(), spaced[place].as_slice(), line, &mut text)?;
        agenda.set(moment.component, seconds[place]);
        seconds[place] = second_time(rest);
        rests[place] = rest;
    }
    Ok(text)
}

/// The names with a space before and behind each, as they stand in a line.
fn spaced_names(alloc: Global, names: &[Name]) -> Result<Vec<Octets>, NoMemory>
    ensures { IfOk result (λ pieces. pieces.items ≡ map spaced names.now) }
{
    let mut pieces = Vec::new(alloc);
    for name in names {
        pieces.push(spaced_name(alloc, name)?)?;
    }
    Ok(pieces)
}

fn spaced_name(alloc: Global, name: &Name) -> Result<Octets, NoMemory>
    ensures { IfOk result (λ piece. piece ≡ spaced name.now) }
{
    let mut piece = Octets::new(alloc);
    piece.push(b' ')?;
    piece.append(name.as_slice())?;
    piece.push(b' ')?;
    Ok(piece)
}

fn digits_of(alloc: Global, at: u64) -> Result<Octets, NoMemory>
    ensures { IfOk result (λ digits. digits ≡ decimal at) }
{
    let mut digits = Octets::new(alloc);
    decimal(at, &mut digits)?;
    Ok(digits)
}

/// Makes the digits of one time those of another. Most lines have the time of the line before.
fn stamp(stamped: u64, at: u64, digits: &mut Octets) -> Result<(), NoMemory>
    requires { digits.old ≡ decimal stamped }
    ensures { OnOk result (digits.new ≡ decimal at) }
{
    if at == stamped {
        return Ok(());
    }
    digits.clear();
    decimal(at, digits)
}

fn rests_of(alloc: Global, logs: &[Items<Line>]) -> Result<Vec<&[Line]>, NoMemory>
    ensures { IfOk result (λ rests. map (λ rest. rest.now) rests.items ≡ logs.now) }
{
    let mut rests = Vec::new(alloc);
    for log in logs {
        rests.push(log.as_slice())?;
    }
    Ok(rests)
}

fn first_times(alloc: Global, logs: &[Items<Line>]) -> Result<Agenda, NoMemory>
    requires some { 1 ≤ length logs.now }
    requires few { length logs.now ≤ 64 }
    requires in_order { All (IsFrom 0) logs.now }
    ensures { IfOk result (λ agenda. agenda ≡ map head_time logs.now) }
{
    let mut agenda = Agenda::new(alloc, logs.len())?;
    for (index, log) in logs.iter().enumerate() {
        agenda.set(index as u32, first_time(log.as_slice()));
    }
    Ok(agenda)
}

/// The times of the second lines. They are read long before they are needed, so that no line is waited for.
fn second_times(alloc: Global, logs: &[Items<Line>]) -> Result<Vec<Option<Time>>, NoMemory>
    ensures { IfOk result (λ seconds. seconds.items ≡ map second_time logs.now) }
{
    let mut seconds = Vec::new(alloc);
    for log in logs {
        seconds.push(second_time(log.as_slice()))?;
    }
    Ok(seconds)
}

fn second_time(log: &[Line]) -> Option<Time>
    ensures { result ≡ second_time log.now }
{
    match log.get(1) {
        Some(line) => Some(line.at),
        None => None,
    }
}

fn first_time(log: &[Line]) -> Option<Time>
    ensures { result ≡ head_time log.now }
{
    match log.first() {
        Some(line) => Some(line.at),
        None => None,
    }
}
