//! The assembler: from a source of RV32I with the extensions M, Zicsr and Zifencei to its bytes.
//!
//! A source is lines of one label and one statement at most. Its bytes stand from 0x8000_0000 on, one line behind
//! another, each instruction as a word of 32 bits with the low byte first.
#![tactic(auto)]

mod assembler;
mod emit;
mod faults;
mod labels;
mod layout;
mod placed;
mod reason;
mod reason_text;
mod words;

pub use assembler::assemble;
pub use reason::{AsmBad, AsmReason};
