//! Lines, and what the RISC-V assembly language makes of them.

mod instructions;
mod labels;
mod layout;
mod numbers;
mod registers;
mod statements;

use asm_syntax::{Condition, Line, LineBad, Statement, parse_line};
use cs_base::NoMemory;
use rv32_isa::Instr;
use std::alloc::Global;
use std::process::Abort;

// What a line has beside its labels.
#[derive(Clone, Copy, Debug, PartialEq, Eq)]
enum Seen {
    Nothing,
    Instruction(Instr),
    Branch(Condition, u32, u32),
    Jump(u32),
    LoadImmediate(u32, i64),
    LoadAddress(u32),
    Word(i64),
    WordOf,
    Byte(i64),
    Space(u32),
    Bad(LineBad),
}

fn shown(content: &Result<Option<Statement>, LineBad>) -> Seen {
    match content {
        Ok(None) => Seen::Nothing,
        Ok(Some(Statement::Instruction(instruction))) => Seen::Instruction(*instruction),
        Ok(
            Some(
                Statement::Branch {
                    condition,
                    rs1,
                    rs2,
                    to: _,
                },
            ),
        ) => Seen::Branch(*condition, *rs1, *rs2),
        Ok(Some(Statement::Jump { rd, to: _ })) => Seen::Jump(*rd),
        Ok(Some(Statement::LoadImmediate { rd, value })) => Seen::LoadImmediate(*rd, *value),
        Ok(Some(Statement::LoadAddress { rd, to: _ })) => Seen::LoadAddress(*rd),
        Ok(Some(Statement::Word(value))) => Seen::Word(*value),
        Ok(Some(Statement::WordOf(_))) => Seen::WordOf,
        Ok(Some(Statement::Byte(value))) => Seen::Byte(*value),
        Ok(Some(Statement::Space(length))) => Seen::Space(*length),
        Err(bad) => Seen::Bad(*bad),
    }
}

// The label that a statement names; empty where it names none.
fn target(content: &Result<Option<Statement>, LineBad>) -> &[u8] {
    match content {
        Ok(
            Some(
                Statement::Branch { to, .. }
                | Statement::Jump { to, .. }
                | Statement::LoadAddress { to, .. }
                | Statement::WordOf(to),
            ),
        ) => to.as_slice(),
        _ => &[],
    }
}

// The line's own label; empty where it has none.
fn label(line: &Line) -> &[u8] {
    match &line.label {
        Some(label) => label.as_slice(),
        None => &[],
    }
}

#[derive(Clone, Copy)]
struct Row {
    line: &'static str,
    label: &'static str,
    seen: Seen,
    to: &'static str,
}

fn check(rt: &impl Abort, alloc: Global, rows: &[Row]) -> Result<(), NoMemory> {
    for row in rows {
        let line = parse_line(alloc, row.line.as_bytes())?;
        assert_eq!(rt; shown(&line.content), row.seen, "{}", row.line);
        assert_eq!(rt; target(&line.content), row.to.as_bytes());
        assert_eq!(rt; label(&line), row.label.as_bytes());
    }
    Ok(())
}

#[derive(Clone, Copy)]
struct InstructionRow {
    line: &'static str,
    instruction: Instr,
}

fn check_instructions(
    rt: &impl Abort,
    alloc: Global,
    rows: &[InstructionRow],
) -> Result<(), NoMemory> {
    for row in rows {
        let line = parse_line(alloc, row.line.as_bytes())?;
        assert_eq!(rt;
            shown(&line.content),
            Seen::Instruction(row.instruction),
            "{}",
            row.line
        );
    }
    Ok(())
}

#[derive(Clone, Copy)]
struct BadRow {
    line: &'static str,
    bad: LineBad,
}

fn check_bad(rt: &impl Abort, alloc: Global, rows: &[BadRow]) -> Result<(), NoMemory> {
    for row in rows {
        let line = parse_line(alloc, row.line.as_bytes())?;
        assert_eq!(rt; shown(&line.content), Seen::Bad(row.bad), "{}", row.line);
        assert_eq!(rt; label(&line).len(), 0);
    }
    Ok(())
}
