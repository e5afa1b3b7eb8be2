//! The names of the statements, as the listings of the RISC-V unprivileged and privileged ISA give them, with the
//! pseudoinstructions and directives of the RISC-V Assembly Programmer's Manual.
ghost use Rattle.std.specs.Prelude.{◌≡◌};
ghost use Rattle.asm_syntax.specs.Rows.{select};
ghost use Rattle.asm_syntax.specs.Mnemonics.{computation_rows, immediate_rows, access_rows, transfer_rows, csr_rows, alone_rows, other_rows, operation_named};

use crate::operation::{
    Computation, CsrAccess, ImmediateComputation, Load, Operation, Shift, Store, Upper,
};
use crate::statement::Condition;
use rv32_isa::Instr;

#[tactic(auto, unfolding(crate::specs::Mnemonics::computation_rows))]
fn computation(name: &[u8]) -> Option<Operation>
    ensures { result ≡ select name.now computation_rows }
{
    match name {
        b"add" => Some(Operation::Computation(Computation::Add)),
        b"sub" => Some(Operation::Computation(Computation::Sub)),
        b"sll" => Some(Operation::Computation(Computation::Sll)),
        b"slt" => Some(Operation::Computation(Computation::Slt)),
        b"sltu" => Some(Operation::Computation(Computation::Sltu)),
        b"xor" => Some(Operation::Computation(Computation::Xor)),
        b"srl" => Some(Operation::Computation(Computation::Srl)),
        b"sra" => Some(Operation::Computation(Computation::Sra)),
        b"or" => Some(Operation::Computation(Computation::Or)),
        b"and" => Some(Operation::Computation(Computation::And)),
        b"mul" => Some(Operation::Computation(Computation::Mul)),
        b"mulh" => Some(Operation::Computation(Computation::Mulh)),
        b"mulhsu" => Some(Operation::Computation(Computation::Mulhsu)),
        b"mulhu" => Some(Operation::Computation(Computation::Mulhu)),
        b"div" => Some(Operation::Computation(Computation::Div)),
        b"divu" => Some(Operation::Computation(Computation::Divu)),
        b"rem" => Some(Operation::Computation(Computation::Rem)),
        b"remu" => Some(Operation::Computation(Computation::Remu)),
        _ => None,
    }
}

#[tactic(auto, unfolding(crate::specs::Mnemonics::immediate_rows))]
fn immediate(name: &[u8]) -> Option<Operation>
    ensures { result ≡ select name.now immediate_rows }
{
    match name {
        b"addi" => Some(Operation::Immediate(ImmediateComputation::Addi)),
        b"slti" => Some(Operation::Immediate(ImmediateComputation::Slti)),
        b"sltiu" => Some(Operation::Immediate(ImmediateComputation::Sltiu)),
        b"xori" => Some(Operation::Immediate(ImmediateComputation::Xori)),
        b"ori" => Some(Operation::Immediate(ImmediateComputation::Ori)),
        b"andi" => Some(Operation::Immediate(ImmediateComputation::Andi)),
        b"slli" => Some(Operation::Shift(Shift::Slli)),
        b"srli" => Some(Operation::Shift(Shift::Srli)),
        b"srai" => Some(Operation::Shift(Shift::Srai)),
        b"lui" => Some(Operation::Upper(Upper::Lui)),
        b"auipc" => Some(Operation::Upper(Upper::Auipc)),
        _ => None,
    }
}

#[tactic(auto, unfolding(crate::specs::Mnemonics::access_rows))]
fn access(name: &[u8]) -> Option<Operation>
    ensures { result ≡ select name.now access_rows }
{
    match name {
        b"jalr" => Some(Operation::Load(Load::Jalr)),
        b"lb" => Some(Operation::Load(Load::Lb)),
        b"lh" => Some(Operation::Load(Load::Lh)),
        b"lw" => Some(Operation::Load(Load::Lw)),
        b"lbu" => Some(Operation::Load(Load::Lbu)),
        b"lhu" => Some(Operation::Load(Load::Lhu)),
        b"sb" => Some(Operation::Store(Store::Sb)),
        b"sh" => Some(Operation::Store(Store::Sh)),
        b"sw" => Some(Operation::Store(Store::Sw)),
        _ => None,
    }
}

#[tactic(auto, unfolding(crate::specs::Mnemonics::transfer_rows))]
fn transfer(name: &[u8]) -> Option<Operation>
    ensures { result ≡ select name.now transfer_rows }
{
    match name {
        b"beq" => Some(Operation::Branch(Condition::Equal)),
        b"bne" => Some(Operation::Branch(Condition::NotEqual)),
        b"blt" => Some(Operation::Branch(Condition::Less)),
        b"bge" => Some(Operation::Branch(Condition::NotLess)),
        b"bltu" => Some(Operation::Branch(Condition::LessUnsigned)),
        b"bgeu" => Some(Operation::Branch(Condition::NotLessUnsigned)),
        b"jal" => Some(Operation::JumpAndLink),
        b"j" => Some(Operation::Jump),
        _ => None,
    }
}

#[tactic(auto, unfolding(crate::specs::Mnemonics::csr_rows))]
fn csr(name: &[u8]) -> Option<Operation>
    ensures { result ≡ select name.now csr_rows }
{
    match name {
        b"csrrw" => Some(Operation::Csr(CsrAccess::Write)),
        b"csrrs" => Some(Operation::Csr(CsrAccess::Set)),
        b"csrrc" => Some(Operation::Csr(CsrAccess::Clear)),
        b"csrrwi" => Some(Operation::CsrImmediate(CsrAccess::Write)),
        b"csrrsi" => Some(Operation::CsrImmediate(CsrAccess::Set)),
        b"csrrci" => Some(Operation::CsrImmediate(CsrAccess::Clear)),
        _ => None,
    }
}

#[tactic(auto, unfolding(crate::specs::Mnemonics::alone_rows))]
fn alone(name: &[u8]) -> Option<Operation>
    ensures { result ≡ select name.now alone_rows }
{
    match name {
        b"fence" => Some(Operation::Alone(Instr::Fence { bits: 0 })),
        b"fence.i" => Some(Operation::Alone(Instr::FenceI { bits: 0 })),
        b"ecall" => Some(Operation::Alone(Instr::Ecall)),
        b"ebreak" => Some(Operation::Alone(Instr::Ebreak)),
        b"mret" => Some(Operation::Alone(Instr::Mret)),
        b"wfi" => Some(Operation::Alone(Instr::Wfi)),
        b"nop" => Some(Operation::Alone(Instr::Addi {
            rd: 0,
            rs1: 0,
            imm: 0,
        })),
        b"ret" => Some(Operation::Alone(Instr::Jalr {
            rd: 0,
            rs1: 1,
            imm: 0,
        })),
        _ => None,
    }
}

#[tactic(auto, unfolding(crate::specs::Mnemonics::other_rows))]
fn other(name: &[u8]) -> Option<Operation>
    ensures { result ≡ select name.now other_rows }
{
    match name {
        b"li" => Some(Operation::LoadImmediate),
        b"la" => Some(Operation::LoadAddress),
        b"mv" => Some(Operation::Move),
        b".word" => Some(Operation::Word),
        b".byte" => Some(Operation::Byte),
        b".space" => Some(Operation::Space),
        _ => None,
    }
}

/// What a name asks for, if it names a statement.
pub(crate) fn operation_named(name: &[u8]) -> Option<Operation>
    ensures { result ≡ operation_named name.now }
{
    computation(name)
        .or_else(|| immediate(name))
        .or_else(|| access(name))
        .or_else(|| transfer(name))
        .or_else(|| csr(name))
        .or_else(|| alone(name))
        .or_else(|| other(name))
}
