//! A core of RV32IM with Zicsr and Zifencei and a machine-mode profile: registers, CSRs, execution, traps and the
//! external interrupt. It holds no memory: a load or a store ends the step with what it asks for.
//!
//! What each instruction does is as in the RISC-V unprivileged ISA; CSRs, traps, MRET, WFI and interrupts are the
//! machine-mode part of the privileged ISA, for one mode, one interrupt and direct vectors.
#![tactic(auto)]

mod act;
mod alu;
mod csrs;
mod did;
mod parts;
mod pending;
mod state;
mod steps;

pub use act::Act;
pub use parts::CoreParts;
pub use pending::Pending;
pub use state::Core;
