//! The lines of the assembler's language: a line of bytes as its label and its statement.
#![tactic(auto)]

mod class;
mod fault;
mod forms;
mod instructions;
mod label_forms;
mod line;
mod mnemonics;
mod number;
mod operands;
mod operation;
mod parse;
mod places;
mod range;
mod registers;
mod statement;
mod stop;

pub use line::{Line, LineBad};
pub use parse::parse_line;
pub use statement::{Condition, Statement};
