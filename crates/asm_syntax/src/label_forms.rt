//! The statements with labels, by the form of their operands.
ghost use Rattle.std.specs.Prelude.{◌≡◌};
ghost use Rattle.asm_syntax.specs.Stops.{Stops};
ghost use Rattle.asm_syntax.specs.Statements.{branch, jump_and_link, jump, load_address, word};

use crate::class::is_name;
use crate::fault::both;
use crate::operands::{one, three, two};
use crate::places::{label, number, register};
use crate::range::Range;
use crate::statement::{Condition, Statement};
use crate::stop::Stop;
use cs_base::Octets;
use std::alloc::Global;

/// `rs1, rs2, label`.
#[tactic(auto, unfolding(crate::specs::Statements::branch))]
pub(crate) fn branch(
    alloc: Global,
    condition: Condition,
    operands: &[u8],
) -> Result<Statement, Stop>
    ensures { Stops result (branch condition operands.now) }
{
    let (rs1, rs2, to) = three(operands)?;
    let (rs1, (rs2, ())) = both(register(rs1), both(register(rs2), label(to)))?;
    Ok(Statement::Branch {
        condition,
        rs1,
        rs2,
        to: Octets::from_slice(alloc, to)?,
    })
}

/// `rd, label`, of `jal`.
#[tactic(auto, unfolding(crate::specs::Statements::jump_and_link))]
pub(crate) fn jump_and_link(alloc: Global, operands: &[u8]) -> Result<Statement, Stop>
    ensures { Stops result (jump_and_link operands.now) }
{
    let (rd, to) = two(operands)?;
    let (rd, ()) = both(register(rd), label(to))?;
    Ok(Statement::Jump {
        rd,
        to: Octets::from_slice(alloc, to)?,
    })
}

/// `label`, of `j`.
#[tactic(auto, unfolding(crate::specs::Statements::jump))]
pub(crate) fn jump(alloc: Global, operands: &[u8]) -> Result<Statement, Stop>
    ensures { Stops result (jump operands.now) }
{
    let to = one(operands)?;
    label(to)?;
    Ok(Statement::Jump {
        rd: 0,
        to: Octets::from_slice(alloc, to)?,
    })
}

/// `rd, label`, of `la`.
#[tactic(auto, unfolding(crate::specs::Statements::load_address))]
pub(crate) fn load_address(alloc: Global, operands: &[u8]) -> Result<Statement, Stop>
    ensures { Stops result (load_address operands.now) }
{
    let (rd, to) = two(operands)?;
    let (rd, ()) = both(register(rd), label(to))?;
    Ok(Statement::LoadAddress {
        rd,
        to: Octets::from_slice(alloc, to)?,
    })
}

/// `n` or `label`, of `.word`.
#[tactic(auto, unfolding(crate::specs::Statements::word))]
pub(crate) fn word(alloc: Global, operands: &[u8]) -> Result<Statement, Stop>
    ensures { Stops result (word operands.now) }
{
    let value = one(operands)?;
    if is_name(value) {
        return Ok(Statement::WordOf(Octets::from_slice(alloc, value)?));
    }
    Ok(Statement::Word(number(Range::Word, value)?))
}
