//! A line of a schedule as a step.
ghost use Rattle.std.specs.Prelude.{◌≡◌, ◌≢◌, ◌++◌, ℕ, List, MatchOption, position};
ghost use Rattle.run_steps.specs.Steps.{IsStepOf, IsNumbered, IsMove, is_space};

use crate::number::{number, short_number};
use crate::step::Step;

/// What stands behind a word at the beginning of a line.
fn behind<'a>(line: &'a [u8], word: &[u8]) -> Option<&'a [u8]>
    ensures { MatchOption result ((rest : List ℕ) → line.now ≢ word.now ++ rest)
        (λ rest. line.now ≡ word.now ++ rest.now) }
{
    line.strip_prefix(word)
}

/// The number of 32 bits at the end of a line that begins with a word.
fn numbered(line: &[u8], word: &[u8]) -> Option<u32>
    ensures { IsNumbered line.now word.now result }
{
    match behind(line, word) {
        Some(digits) => short_number(digits),
        None => None,
    }
}

fn space_place(text: &[u8]) -> Option<usize>
    ensures { result ≡ position is_space text.now }
{
    text.iter().position(|byte| *byte == b' ')
}

/// The channel and the count of bytes of a line that is a move.
fn moved(line: &[u8]) -> Option<(u32, u64)>
    ensures { IsMove line.now result }
{
    let Some(numbers) = behind(line, b"move ") else {
        return None;
    };
    let Some(space) = space_place(numbers) else {
        return None;
    };
    match (
        short_number(&numbers[..space]),
        number(&numbers[space + 1..]),
    ) {
        (Some(channel), Some(count)) => Some((channel, count)),
        _ => None,
    }
}

/// The step that a line spells: `event c`, `send k`, `poll k`, `take k`, `move k n` or `put k`, with single spaces.
/// Numbers are decimal digits without a leading zero, `c` and `k` below 2^32 and `n` below 2^64, so that each step
/// has one spelling. Gives None where the line spells no step.
pub fn read_step(line: &[u8]) -> Option<Step>
    ensures { IsStepOf line.now result }
{
    if let Some(component) = numbered(line, b"event ") {
        return Some(Step::Event(component));
    }
    if let Some(channel) = numbered(line, b"send ") {
        return Some(Step::Send(channel));
    }
    if let Some(channel) = numbered(line, b"poll ") {
        return Some(Step::Poll(channel));
    }
    if let Some(channel) = numbered(line, b"take ") {
        return Some(Step::Take(channel));
    }
    if let Some(channel) = numbered(line, b"put ") {
        return Some(Step::Put(channel));
    }
    match moved(line) {
        Some((channel, count)) => Some(Step::Move(channel, count)),
        None => None,
    }
}
