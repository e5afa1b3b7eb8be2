ghost use Rattle.std.specs.Prelude.{◌≡◌, ◌+◌, ◌*◌, ◌^◌, ◌≤◌, ◌<◌, ◌++◌, ◌∷◌, [], ℕ, List, OnOk, IfOk, map, length};
ghost use Rattle.asm_syntax.specs.Lines.{line_of};
ghost use Rattle.rv32_asm.specs.Layout.{size_of};
ghost use Rattle.rv32_asm.specs.LaidOut.{IsLaidOut};
ghost use Rattle.cs_base.specs.Lines.{lines_of};

use crate::labels::Labels;
use crate::placed::Placed;
use asm_syntax::{Line, LineBad, Statement, parse_line};
use cs_base::{Items, NoMemory, first_line};
use std::alloc::Global;

/// The address of the first byte.
pub(crate) const START: u128 = 0x8000_0000;

/// The lines of a source with their places, and its labels.
#[derive(Drop)]
pub(crate) struct Layout {
    pub(crate) lines: Items<Placed>,
    pub(crate) labels: Labels,
    /// The address behind the last line.
    end: u128,
}

impl Layout {
    fn new(alloc: Global) -> Layout
        ensures { IsLaidOut [] result }
    {
        Layout {
            lines: Items::new(alloc),
            labels: Labels::new(alloc),
            end: START,
        }
    }

    fn add(&mut self, line: Line) -> Result<(), NoMemory>
        requires { self.old.end + 2 ^ 32 ≤ 2 ^ 128 }
        ensures laid_out { OnOk result ((before : List Line) → IsLaidOut before self.old → IsLaidOut (before ++ line ∷ []) self.new) }
        ensures grown { OnOk result (self.new.end ≤ self.old.end + 2 ^ 32) }
    {
        let Line { label, content } = line;
        let address = self.end;
        self.end += u128::from(size_of(&content));
        let twice = match label {
            Some(name) => self.labels.note(name, address)?,
            None => false,
        };
        self.lines.push(Placed {
            content,
            address,
            twice,
        })?;
        Ok(())
    }
}

/// The bytes that a line takes.
pub(crate) fn size_of(content: &Result<Option<Statement>, LineBad>) -> u32
    ensures { result ≡ size_of content.now }
{
    match content {
        Ok(None) => 0,
        Ok(Some(statement)) => match statement {
            Statement::Instruction(_)
            | Statement::Branch { .. }
            | Statement::Jump { .. }
            | Statement::Word(_)
            | Statement::WordOf(_) => 4,
            Statement::LoadImmediate { .. } | Statement::LoadAddress { .. } => 8,
            Statement::Byte(_) => 1,
            Statement::Space(count) => *count,
        },
        Err(LineBad::OutOfRange { size }) => *size,
        Err(_) => 0,
    }
}

/// Finds the places of a source's lines and labels.
pub(crate) fn lay_out(alloc: Global, source: &[u8]) -> Result<Layout, NoMemory>
    ensures { IfOk result (IsLaidOut (map line_of (lines_of source.now))) }
{
    let mut layout = Layout::new(alloc);
    let mut rest = source;
    while !rest.is_empty() {
        let (bytes, more) = first_line(rest);
        layout.add(parse_line(alloc, bytes)?)?;
        rest = more;
    }
    Ok(layout)
}
