ghost use Rattle.std.specs.Prelude.{◌≡◌, IfOk, IfSome, option_map};
ghost use Rattle.asm_syntax.specs.Bytes.{front};
ghost use Rattle.asm_syntax.specs.InRange.{IsInRange};
ghost use Rattle.asm_syntax.specs.Statements.{statement_of};
ghost use Rattle.asm_syntax.specs.Stops.{Stops};
ghost use Rattle.asm_syntax.specs.Lines.{labelled, statement_at, content_of, line_of};

use crate::class::{Class, is_name};
use crate::forms::{
    access, access_immediate, alone, byte, computation, immediate_computation, load,
    load_immediate, move_register, shift, space, store, upper,
};
use crate::label_forms::{branch, jump, jump_and_link, load_address, word};
use crate::line::{Line, LineBad};
use crate::mnemonics::operation_named;
use crate::operands::word_at;
use crate::operation::Operation;
use crate::statement::Statement;
use crate::stop::Stop;
use cs_base::{NoMemory, Octets};
use std::alloc::Global;

/// The statement of an operation and its operands.
fn statement_of(alloc: Global, operation: Operation, operands: &[u8]) -> Result<Statement, Stop>
    ensures { Stops result (statement_of operation operands.now) }
{
    let statement = match operation {
        Operation::Computation(operation) => computation(operation, operands)?,
        Operation::Immediate(operation) => immediate_computation(operation, operands)?,
        Operation::Shift(operation) => shift(operation, operands)?,
        Operation::Load(operation) => load(operation, operands)?,
        Operation::Store(operation) => store(operation, operands)?,
        Operation::Branch(condition) => branch(alloc, condition, operands)?,
        Operation::Upper(operation) => upper(operation, operands)?,
        Operation::Csr(operation) => access(operation, operands)?,
        Operation::CsrImmediate(operation) => access_immediate(operation, operands)?,
        Operation::Alone(instruction) => alone(instruction, operands)?,
        Operation::JumpAndLink => jump_and_link(alloc, operands)?,
        Operation::Jump => jump(alloc, operands)?,
        Operation::Move => move_register(operands)?,
        Operation::LoadImmediate => load_immediate(operands)?,
        Operation::LoadAddress => load_address(alloc, operands)?,
        Operation::Word => word(alloc, operands)?,
        Operation::Byte => byte(operands)?,
        Operation::Space => space(operands)?,
    };
    Ok(statement)
}

/// The statement that code begins with.
#[tactic(auto, unfolding(crate::specs::Lines::statement_at))]
fn statement_at(alloc: Global, code: &[u8]) -> Result<Statement, Stop>
    ensures { Stops result (statement_at code.now) }
{
    let (name, operands) = word_at(code)?;
    match operation_named(name) {
        Some(operation) => statement_of(alloc, operation, operands),
        None if Class::Mnemonic.has_all(name) => Err(Stop::Bad(LineBad::UnknownWord)),
        None => Err(Stop::Bad(LineBad::BadLine)),
    }
}

/// The statement of code, which is the part of a line between label and comment.
#[tactic(auto, unfolding(crate::specs::Lines::content_of))]
fn content_of(alloc: Global, code: &[u8]) -> Result<Option<Statement>, Stop>
    ensures { Stops result (content_of code.now) }
{
    if !Class::Plain.has_all(code) {
        return Err(Stop::Bad(LineBad::BadLine));
    }
    let (_, start) = Class::Blank.split(code);
    if start.is_empty() {
        return Ok(None);
    }
    Ok(Some(statement_at(alloc, code)?))
}

/// The label at the beginning of a line, and what follows its colon.
#[tactic(auto, unfolding(crate::specs::Lines::labelled))]
fn labelled(bytes: &[u8]) -> Option<(&[u8], &[u8])>
    ensures { option_map (λ x. (x.0.now, x.1.now)) result ≡ labelled bytes.now }
{
    let (_, start) = Class::Blank.split(bytes);
    let (word, rest) = Class::Name.split(start);
    match rest.split_first() {
        Some((byte, rest)) if *byte == b':' && is_name(word) => Some((word, rest)),
        _ => None,
    }
}

/// What a line has behind its label.
fn content(alloc: Global, bytes: &[u8]) -> Result<Result<Option<Statement>, LineBad>, NoMemory>
    ensures { IfOk result (λ content. content ≡ content_of (front Class.Code bytes.now)) }
{
    let (code, _) = Class::Code.split(bytes);
    match content_of(alloc, code) {
        Ok(statement) => Ok(Ok(statement)),
        Err(Stop::Bad(bad)) => Ok(Err(bad)),
        Err(Stop::NoMemory) => Err(NoMemory),
    }
}

/// The label and the statement of a line, which is given without its line feed.
///
/// The names of the instructions, their operands and the ranges of these are those of the RISC-V unprivileged and
/// privileged ISA; the pseudoinstructions and directives are of the RISC-V Assembly Programmer's Manual. A line at fault
/// is no error here: its `content` tells what is wrong. The work is linear in the length of the line, whatever it holds.
///
/// # Errors
///
/// [`NoMemory`] alone.
pub fn parse_line(alloc: Global, bytes: &[u8]) -> Result<Line, NoMemory>
    ensures line { IfOk result (λ line. line ≡ line_of bytes.now) }

    // A statement's registers and numbers are in their ranges, and an instruction has a word.
    ensures in_range { IfOk result
        (λ line. IfOk line.content (λ statement. IfSome statement IsInRange)) }
{
    match labelled(bytes) {
        Some((label, rest)) => Ok(Line {
            label: Some(Octets::from_slice(alloc, label)?),
            content: content(alloc, rest)?,
        }),
        None => Ok(Line {
            label: None,
            content: content(alloc, bytes)?,
        }),
    }
}
