//! The instructions of RV32I with the extensions M, Zicsr and Zifencei, and the machine-mode instructions MRET and WFI:
//! each instruction as a value, and the word of 32 bits that stands for it.
//!
//! Patterns and fields are those of the RISC-V unprivileged ISA ("Base Instruction Formats", "Immediate Encoding
//! Variants", and the listings of RV32I, RV32M, Zicsr and Zifencei), and for MRET and WFI of the privileged ISA.
#![tactic(auto)]

mod decoder;
mod encoder;
mod instr;
mod opcode;
mod word;

pub use decoder::decode;
pub use encoder::encode;
pub use instr::Instr;
