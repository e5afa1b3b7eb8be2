ghost use Rattle.std.specs.Prelude.{◌≡◌, is_none};
ghost use Rattle.rv32_asm.specs.Faults.{own_fault, is_by_words, is_misplaced, is_past_reach, misses_label, is_too_long, fault};
ghost use Rattle.rv32_asm.specs.LabelMap.{place_in};
ghost use Rattle.rv32_asm.specs.WordsSeen.{seen};

use crate::labels::Labels;
use crate::layout::{START, size_of};
use crate::placed::Placed;
use crate::reason::AsmReason;
use crate::words::{Words, words_of};
use asm_syntax::{LineBad, Statement};

/// The most bytes that a source may have.
const LONGEST: u128 = 16_777_216;

/// What is wrong with a line: its fault of the least number.
pub(crate) fn fault(line: &Placed, labels: &Labels) -> Option<AsmReason>
    ensures { result ≡ fault (place_in labels.now) line.now }
{
    let statement = match &line.content {
        Ok(statement) => statement.as_ref(),
        Err(bad) => return Some(own_fault(*bad)),
    };
    if statement.is_some_and(|it| is_misplaced(line.address, it)
        || is_past_reach(labels, line.address, it))
    {
        return Some(AsmReason::Range);
    }
    if line.twice {
        return Some(AsmReason::LabelTwice);
    }
    if statement.is_some_and(|it| misses_label(labels, it)) {
        return Some(AsmReason::LabelMissing);
    }
    is_too_long(line).then_some(AsmReason::TooLong)
}

fn own_fault(bad: LineBad) -> AsmReason
    ensures { result ≡ own_fault bad }
{
    match bad {
        LineBad::BadLine => AsmReason::BadLine,
        LineBad::UnknownWord => AsmReason::UnknownWord,
        LineBad::BadRegister => AsmReason::BadRegister,
        LineBad::OutOfRange { .. } => AsmReason::Range,
    }
}

// Instructions and words stand at multiples of 4 alone.
fn is_misplaced(at: u128, statement: &Statement) -> bool
    ensures { result ≡ is_misplaced at statement.now }
{
    match statement {
        Statement::Byte(_) | Statement::Space(_) => false,
        _ => at % 4 != 0,
    }
}

// A branch or jump doesn't reach its label.
fn is_past_reach(labels: &Labels, at: u128, statement: &Statement) -> bool
    ensures { result ≡ is_past_reach (place_in labels.now) at statement.now }
{
    match words_of(labels, at, statement) {
        Words::Zero => false,
        Words::One(word) => word.is_none(),
        Words::Two(first, second) => first.is_none() || second.is_none(),
    }
}

fn misses_label(labels: &Labels, statement: &Statement) -> bool
    ensures { result ≡ misses_label (place_in labels.now) statement.now }
{
    match statement {
        Statement::Branch { to, .. }
        | Statement::Jump { to, .. }
        | Statement::LoadAddress { to, .. }
        | Statement::WordOf(to) => labels.place(to.as_slice()).is_none(),
        _ => false,
    }
}

fn is_too_long(line: &Placed) -> bool
    ensures { result ≡ is_too_long line.now }
{
    let size = u128::from(size_of(&line.content));
    line.address.saturating_add(size) > START + LONGEST
}
