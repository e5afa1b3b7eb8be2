//! The statements without labels, by the form of their operands.
ghost use Rattle.std.specs.Prelude.{◌≡◌};
ghost use Rattle.asm_syntax.specs.Statements.{computation, immediate_computation, shift, load, store, upper, access, access_immediate, alone, move_register, load_immediate, byte, space};

use crate::fault::both;
use crate::line::LineBad;
use crate::operands::{based, nothing, one, three, two};
use crate::operation::{Computation, CsrAccess, ImmediateComputation, Load, Shift, Store, Upper};
use crate::places::{amount, csr, immediate, number, register, upper_immediate, zeros};
use crate::range::Range;
use crate::statement::Statement;
use rv32_isa::Instr;

/// `rd, rs1, rs2`.
#[tactic(auto, unfolding(crate::specs::Statements::computation))]
pub(crate) fn computation(operation: Computation, operands: &[u8]) -> Result<Statement, LineBad>
    ensures { result ≡ computation operation operands.now }
{
    let (rd, rs1, rs2) = three(operands)?;
    let (rd, (rs1, rs2)) = both(register(rd), both(register(rs1), register(rs2)))?;
    Ok(Statement::Instruction(operation.instruction(rd, rs1, rs2)))
}

/// `rd, rs1, imm`.
#[tactic(auto, unfolding(crate::specs::Statements::immediate_computation))]
pub(crate) fn immediate_computation(
    operation: ImmediateComputation,
    operands: &[u8],
) -> Result<Statement, LineBad>
    ensures { result ≡ immediate_computation operation operands.now }
{
    let (rd, rs1, imm) = three(operands)?;
    let (rd, (rs1, imm)) = both(register(rd), both(register(rs1), immediate(imm)))?;
    Ok(Statement::Instruction(operation.instruction(rd, rs1, imm)))
}

/// `rd, rs1, shamt`.
#[tactic(auto, unfolding(crate::specs::Statements::shift))]
pub(crate) fn shift(operation: Shift, operands: &[u8]) -> Result<Statement, LineBad>
    ensures { result ≡ shift operation operands.now }
{
    let (rd, rs1, imm) = three(operands)?;
    let (rd, (rs1, imm)) = both(register(rd), both(register(rs1), amount(imm)))?;
    Ok(Statement::Instruction(operation.instruction(rd, rs1, imm)))
}

/// `rd, imm(rs1)`.
#[tactic(auto, unfolding(crate::specs::Statements::load))]
pub(crate) fn load(operation: Load, operands: &[u8]) -> Result<Statement, LineBad>
    ensures { result ≡ load operation operands.now }
{
    let (rd, imm, rs1) = based(operands)?;
    let (rd, (imm, rs1)) = both(register(rd), both(immediate(imm), register(rs1)))?;
    Ok(Statement::Instruction(operation.instruction(rd, rs1, imm)))
}

/// `rs2, imm(rs1)`.
#[tactic(auto, unfolding(crate::specs::Statements::store))]
pub(crate) fn store(operation: Store, operands: &[u8]) -> Result<Statement, LineBad>
    ensures { result ≡ store operation operands.now }
{
    let (rs2, imm, rs1) = based(operands)?;
    let (rs2, (imm, rs1)) = both(register(rs2), both(immediate(imm), register(rs1)))?;
    Ok(Statement::Instruction(operation.instruction(rs1, rs2, imm)))
}

/// `rd, imm`.
#[tactic(auto, unfolding(crate::specs::Statements::upper))]
pub(crate) fn upper(operation: Upper, operands: &[u8]) -> Result<Statement, LineBad>
    ensures { result ≡ upper operation operands.now }
{
    let (rd, imm) = two(operands)?;
    let (rd, imm) = both(register(rd), upper_immediate(imm))?;
    Ok(Statement::Instruction(operation.instruction(rd, imm)))
}

/// `rd, csr, rs1`.
#[tactic(auto, unfolding(crate::specs::Statements::access))]
pub(crate) fn access(operation: CsrAccess, operands: &[u8]) -> Result<Statement, LineBad>
    ensures { result ≡ access operation operands.now }
{
    let (rd, number, rs1) = three(operands)?;
    let (rd, (number, rs1)) = both(register(rd), both(csr(number), register(rs1)))?;
    Ok(Statement::Instruction(operation.instruction(rd, rs1, number)))
}

/// `rd, csr, imm`.
#[tactic(auto, unfolding(crate::specs::Statements::access_immediate))]
pub(crate) fn access_immediate(operation: CsrAccess, operands: &[u8]) -> Result<Statement, LineBad>
    ensures { result ≡ access_immediate operation operands.now }
{
    let (rd, number, imm) = three(operands)?;
    let (rd, (number, imm)) = both(register(rd), both(csr(number), amount(imm)))?;
    Ok(Statement::Instruction(operation.immediate_instruction(rd, imm, number)))
}

/// No operands.
#[tactic(auto, unfolding(crate::specs::Statements::alone))]
pub(crate) fn alone(instruction: Instr, operands: &[u8]) -> Result<Statement, LineBad>
    ensures { result ≡ alone instruction operands.now }
{
    nothing(operands)?;
    Ok(Statement::Instruction(instruction))
}

/// `rd, rs`, of `mv`.
#[tactic(auto, unfolding(crate::specs::Statements::move_register))]
pub(crate) fn move_register(operands: &[u8]) -> Result<Statement, LineBad>
    ensures { result ≡ move_register operands.now }
{
    let (rd, rs1) = two(operands)?;
    let (rd, rs1) = both(register(rd), register(rs1))?;
    Ok(Statement::Instruction(Instr::Addi { rd, rs1, imm: 0 }))
}

/// `rd, n`, of `li`.
#[tactic(auto, unfolding(crate::specs::Statements::load_immediate))]
pub(crate) fn load_immediate(operands: &[u8]) -> Result<Statement, LineBad>
    ensures { result ≡ load_immediate operands.now }
{
    let (rd, value) = two(operands)?;
    let (rd, value) = both(register(rd), number(Range::LoadImmediate, value))?;
    Ok(Statement::LoadImmediate { rd, value })
}

/// `n`, of `.byte`.
#[tactic(auto, unfolding(crate::specs::Statements::byte))]
pub(crate) fn byte(operands: &[u8]) -> Result<Statement, LineBad>
    ensures { result ≡ byte operands.now }
{
    Ok(Statement::Byte(number(Range::Byte, one(operands)?)?))
}

/// `n`, of `.space`.
#[tactic(auto, unfolding(crate::specs::Statements::space))]
pub(crate) fn space(operands: &[u8]) -> Result<Statement, LineBad>
    ensures { result ≡ space operands.now }
{
    Ok(Statement::Space(zeros(one(operands)?)?))
}
