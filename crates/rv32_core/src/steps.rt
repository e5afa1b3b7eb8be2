//! One step: what the instructions have in common, and a row for each.

ghost use Rattle.std.specs.Prelude.{◌≡◌, ◌%◌, ◌/◌, ◌*◌, slice_index, int_lt, IsTrue, false};
ghost use Rattle.rv32_core.specs.CoreState.{registers_with};

use crate::act::Act;
use crate::did::Did;
use crate::pending::{Pending, is_aligned, loaded, low_bytes};
use crate::state::Core;
use crate::{alu, csrs};
use rv32_isa::{Instr, decode};

impl Core {
    ghost use Rattle.rv32_isa.specs.Bits.{word_of};
    ghost use Rattle.rv32_core.specs.Alu.{add_immediate, integer};
    ghost use Rattle.rv32_core.specs.CoreState.{register, IsSize};
    ghost use Rattle.rv32_core.specs.Acts.{did, act_of};
    ghost use Rattle.rv32_core.specs.Execution.{trapped, passed, results, jumps, branches, loads, stores, reads, swaps, sets, clears, returns, waits, computed, executed, stepped, load_finished, store_finished, interrupted, takes_interrupt, IsLoad, IsStore, Awaits, finished, csr_or_zero};

    /// Runs one instruction, or takes the trap that it leads to. Nothing may be pending.
    ///
    /// `word` is the instruction's word; `None` says that the fetch was refused, which traps with cause 1. After
    /// [`Act::Load`] and [`Act::Store`] that access is pending.
    #[inline(always)]
    pub fn step(&mut self, word: Option<u32>) -> Act
        requires { self.old.pending ≡ Pending.Nothing }
        ensures state { self.new ≡ (stepped self.old word).state }
        ensures act { result ≡ (stepped self.old word).act }
        ensures awaits { Awaits result self.new.pending }
    {
        let did = self.run(word);
        self.act(did)
    }

    // A step, told without what an access asks for: where it is inlined, what was done is a branch and no value. What it
    // calls in every arm is only hinted to be inlined: with `always` there too the compiler takes it for too large.
    #[inline(always)]
    fn run(&mut self, word: Option<u32>) -> Did
        requires { self.old.pending ≡ Pending.Nothing }
        ensures state { self.new ≡ (stepped self.old word).state }
        ensures act { result ≡ did (stepped self.old word).act }
    {
        match word {
            None => self.trap(1),
            Some(word) => self.execute(decode(word)),
        }
    }

    // What was done, with the access that is pending and the cause of the trap.
    #[inline(always)]
    fn act(&self, did: Did) -> Act
        ensures { result ≡ act_of did self.now }
    {
        match did {
            Did::Done => Act::Done,
            Did::Load => self.pending.loading(),
            Did::Store => self.pending.storing(),
            Did::Wait => Act::Wait,
            Did::Trapped => Act::Trapped(self.mcause),
        }
    }

    /// Ends a pending load with the value that was read, whose low bytes count; `None` is an access fault, cause 5.
    #[tactic(auto, unfolding(crate::specs::Execution::load_finished, crate::specs::Execution::trapped))]
    #[inline(always)]
    pub fn finish_load(&mut self, value: Option<u32>) -> Act
        requires { IsLoad self.old.pending }
        ensures state { self.new ≡ (load_finished self.old value).state }
        ensures act { result ≡ (load_finished self.old value).act }
        ensures free { self.new.pending ≡ Pending.Nothing }
    {
        match value {
            None => {
                self.trap(5);
                Act::Trapped(5)
            }
            Some(value) => {
                self.deliver(value);
                Act::Done
            }
        }
    }

    /// Ends a pending store, which was done or, where `done` is false, is an access fault, cause 7.
    #[tactic(auto, unfolding(crate::specs::Execution::store_finished, crate::specs::Execution::trapped))]
    #[inline(always)]
    pub fn finish_store(&mut self, done: bool) -> Act
        requires { IsStore self.old.pending }
        ensures state { self.new ≡ (store_finished self.old done).state }
        ensures act { result ≡ (store_finished self.old done).act }
        ensures free { self.new.pending ≡ Pending.Nothing }
    {
        if !done {
            self.trap(7);
            return Act::Trapped(7);
        }
        self.pass();
        Act::Done
    }

    /// Takes the external interrupt: a trap with cause 0x8000_000B before the next instruction.
    pub fn interrupt(&mut self)
        requires takes { IsTrue (takes_interrupt self.old) }
        requires free { self.old.pending ≡ Pending.Nothing }
        ensures state { self.new ≡ interrupted self.old }
        ensures free { self.new.pending ≡ Pending.Nothing }
    {
        self.trap(0x8000_000B);
    }

    #[inline]
    fn x(&self, number: u32) -> u32
        ensures { result ≡ register self.now number }
    {
        self.registers[(number & 0x1F) as usize]
    }

    #[inline]
    fn address(&self, rs1: u32, imm: i32) -> u32
        ensures { result ≡ add_immediate (register self.now rs1) imm }
    {
        alu::add_immediate(self.x(rs1), imm)
    }

    #[inline]
    fn is_less(&self, rs1: u32, rs2: u32) -> bool
        ensures { result ≡ int_lt (integer (register self.now rs1)) (integer (register self.now rs2)) }
    {
        alu::is_less(self.x(rs1), self.x(rs2))
    }

    #[tactic(auto, unfolding(crate::specs::Execution::trapped))]
    #[cold]
    #[inline(never)]
    fn trap(&mut self, cause: u32) -> Did
        ensures state { self.new ≡ (trapped cause self.old).state }
        ensures act { result ≡ did (trapped cause self.old).act }
        ensures free { self.new.pending ≡ Pending.Nothing }
    {
        self.mepc = self.pc;
        self.mcause = cause;
        self.mtval = 0;
        self.previously_enabled = self.interrupts_enabled;
        self.interrupts_enabled = false;
        self.pc = self.mtvec;
        self.pending = Pending::Nothing;
        Did::Trapped
    }

    #[tactic(auto, unfolding(crate::specs::Execution::passed))]
    #[inline]
    fn pass(&mut self) -> Did
        ensures state { self.new ≡ passed self.old }
        ensures act { result ≡ Did.Done }
        ensures free { self.new.pending ≡ Pending.Nothing }
    {
        self.pc = self.pc.wrapping_add(4);
        self.pending = Pending::Nothing;
        Did::Done
    }

    #[tactic(auto, unfolding(crate::specs::Execution::results))]
    #[inline]
    fn result(&mut self, rd: u32, value: u32) -> Did
        ensures state { self.new ≡ (results self.old rd value).state }
        ensures act { result ≡ did (results self.old rd value).act }
        ensures free { self.new.pending ≡ Pending.Nothing }
    {
        write(&mut self.registers, rd, value);
        self.pc = self.pc.wrapping_add(4);
        self.pending = Pending::Nothing;
        Did::Done
    }

    #[tactic(auto, unfolding(crate::specs::Execution::jumps))]
    #[inline]
    fn jump(&mut self, rd: u32, target: u32) -> Did
        ensures state { self.new ≡ (jumps self.old rd target).state }
        ensures act { result ≡ did (jumps self.old rd target).act }
    {
        if target % 4 != 0 {
            return self.trap(0);
        }
        write(&mut self.registers, rd, self.pc.wrapping_add(4));
        self.pc = target;
        self.pending = Pending::Nothing;
        Did::Done
    }

    #[tactic(auto, unfolding(crate::specs::Execution::branches))]
    #[inline]
    fn branch(&mut self, imm: i32, taken: bool) -> Did
        ensures state { self.new ≡ (branches self.old imm taken).state }
        ensures act { result ≡ did (branches self.old imm taken).act }
    {
        if taken {
            self.jump(0, alu::add_immediate(self.pc(), imm))
        } else {
            self.pass()
        }
    }

    #[tactic(auto, unfolding(crate::specs::Execution::loads))]
    #[inline]
    fn load(&mut self, rd: u32, rs1: u32, imm: i32, size: u32, signed: bool) -> Did
        requires size { IsSize size }
        requires word { size ≡ 4 → signed ≡ false }
        ensures state { let address = add_immediate (register self.old rs1) imm in
            self.new ≡ (loads self.old rd size signed address).state }
        ensures act { let address = add_immediate (register self.old rs1) imm in
            result ≡ did (loads self.old rd size signed address).act }
    {
        let addr = self.address(rs1, imm);
        if !is_aligned(addr, size) {
            return self.trap(4);
        }
        self.pending = Pending::Load {
            addr,
            size,
            rd: rd & 0x1F,
            signed,
        };
        Did::Load
    }

    #[tactic(auto, unfolding(crate::specs::Execution::stores))]
    #[inline]
    fn store(&mut self, rs1: u32, rs2: u32, imm: i32, size: u32) -> Did
        requires { IsSize size }
        ensures state { let address = add_immediate (register self.old rs1) imm in
            self.new ≡ (stores self.old size address (register self.old rs2)).state }
        ensures act { let address = add_immediate (register self.old rs1) imm in
            result ≡ did (stores self.old size address (register self.old rs2)).act }
    {
        let addr = self.address(rs1, imm);
        if !is_aligned(addr, size) {
            return self.trap(6);
        }
        let value = low_bytes(self.x(rs2), size);
        self.pending = Pending::Store { addr, size, value };
        Did::Store
    }

    // The pending load's register gets its value.
    #[tactic(auto, unfolding(crate::specs::Execution::results))]
    #[inline(always)]
    fn deliver(&mut self, value: u32)
        ensures state { self.new ≡ (finished self.old value self.old.pending).state }
        ensures act { (finished self.old value self.old.pending).act ≡ Act.Done }
        ensures free { self.new.pending ≡ Pending.Nothing }
    {
        match self.pending {
            Pending::Load {
                size,
                rd,
                signed,
                ..
            } => {
                self.result(rd, loaded(value, size, signed));
            }
            _ => {
                self.pass();
            }
        }
    }

    #[tactic(auto, unfolding(crate::specs::Execution::reads))]
    #[cold]
    #[inline(never)]
    fn read_csr(&mut self, rd: u32, number: u32) -> Did
        ensures state { self.new ≡ (reads self.old rd number).state }
        ensures act { result ≡ did (reads self.old rd number).act }
    {
        match self.csr(number) {
            None => self.trap(2),
            Some(old) => self.result(rd, old),
        }
    }

    #[tactic(auto, unfolding(crate::specs::Execution::swaps))]
    #[cold]
    #[inline(never)]
    fn swap_csr(&mut self, rd: u32, number: u32, value: u32) -> Did
        ensures state { self.new ≡ (swaps self.old rd number value).state }
        ensures act { result ≡ did (swaps self.old rd number value).act }
    {
        if number == csrs::MHARTID {
            return self.trap(2);
        }
        match self.csr(number) {
            None => self.trap(2),
            Some(old) => {
                self.write_csr(number, value);
                self.result(rd, old)
            }
        }
    }

    // What bits are set in or cleared from: a CSR that does not exist is refused when it is written.
    fn csr_or_zero(&self, number: u32) -> u32
        ensures { result ≡ csr_or_zero self.now number }
    {
        self.csr(number).unwrap_or(0)
    }

    #[tactic(auto, unfolding(crate::specs::Execution::sets))]
    #[cold]
    #[inline(never)]
    fn set_csr(&mut self, rd: u32, number: u32, source: u32, bits: u32) -> Did
        ensures state { self.new ≡ (sets self.old rd number source bits).state }
        ensures act { result ≡ did (sets self.old rd number source bits).act }
    {
        if source == 0 {
            return self.read_csr(rd, number);
        }
        self.swap_csr(rd, number, self.csr_or_zero(number) | bits)
    }

    #[tactic(auto, unfolding(crate::specs::Execution::clears))]
    #[cold]
    #[inline(never)]
    fn clear_csr(&mut self, rd: u32, number: u32, source: u32, bits: u32) -> Did
        ensures state { self.new ≡ (clears self.old rd number source bits).state }
        ensures act { result ≡ did (clears self.old rd number source bits).act }
    {
        if source == 0 {
            return self.read_csr(rd, number);
        }
        self.swap_csr(rd, number, self.csr_or_zero(number) & !bits)
    }

    #[cold]
    #[inline(never)]
    fn set_csr_immediate(&mut self, rd: u32, number: u32, imm: i32) -> Did
        ensures state { self.new ≡ (sets self.old rd number (word_of imm) (word_of imm)).state }
        ensures act { result ≡ did (sets self.old rd number (word_of imm) (word_of imm)).act }
    {
        let bits = imm.cast_unsigned();
        self.set_csr(rd, number, bits, bits)
    }

    #[cold]
    #[inline(never)]
    fn clear_csr_immediate(&mut self, rd: u32, number: u32, imm: i32) -> Did
        ensures state { self.new ≡ (clears self.old rd number (word_of imm) (word_of imm)).state }
        ensures act { result ≡ did (clears self.old rd number (word_of imm) (word_of imm)).act }
    {
        let bits = imm.cast_unsigned();
        self.clear_csr(rd, number, bits, bits)
    }

    #[tactic(auto, unfolding(crate::specs::Execution::returns))]
    #[cold]
    #[inline(never)]
    fn return_from_trap(&mut self) -> Did
        ensures state { self.new ≡ returns self.old }
        ensures act { result ≡ Did.Done }
    {
        self.interrupts_enabled = self.previously_enabled;
        self.previously_enabled = true;
        self.pc = self.mepc;
        self.pending = Pending::Nothing;
        Did::Done
    }

    #[tactic(auto, unfolding(crate::specs::Execution::waits))]
    #[cold]
    #[inline(never)]
    fn wait(&mut self) -> Did
        ensures state { self.new ≡ (waits self.old).state }
        ensures act { result ≡ did (waits self.old).act }
    {
        let wakes = self.wakes();
        self.pass();
        if wakes { Did::Done } else { Did::Wait }
    }

    #[tactic(auto, unfolding(crate::specs::Execution::executed))]
    #[inline(always)]
    fn execute(&mut self, instr: Instr) -> Did
        ensures state { self.new ≡ (executed instr self.old).state }
        ensures act { result ≡ did (executed instr self.old).act }
    {
        match instr {
            Instr::Jal { rd, imm } => self.jump(rd, alu::add_immediate(self.pc(), imm)),
            Instr::Jalr { rd, rs1, imm } => self.jump(rd, even(self.address(rs1, imm))),
            Instr::Beq { rs1, rs2, imm } => self.branch(imm, self.x(rs1) == self.x(rs2)),
            Instr::Bne { rs1, rs2, imm } => self.branch(imm, self.x(rs1) != self.x(rs2)),
            Instr::Blt { rs1, rs2, imm } => self.branch(imm, self.is_less(rs1, rs2)),
            Instr::Bge { rs1, rs2, imm } => self.branch(imm, !self.is_less(rs1, rs2)),
            Instr::Bltu { rs1, rs2, imm } => self.branch(imm, self.x(rs1) < self.x(rs2)),
            Instr::Bgeu { rs1, rs2, imm } => self.branch(imm, self.x(rs1) >= self.x(rs2)),
            Instr::Lb { rd, rs1, imm } => self.load(rd, rs1, imm, 1, true),
            Instr::Lh { rd, rs1, imm } => self.load(rd, rs1, imm, 2, true),
            Instr::Lw { rd, rs1, imm } => self.load(rd, rs1, imm, 4, false),
            Instr::Lbu { rd, rs1, imm } => self.load(rd, rs1, imm, 1, false),
            Instr::Lhu { rd, rs1, imm } => self.load(rd, rs1, imm, 2, false),
            Instr::Sb { rs1, rs2, imm } => self.store(rs1, rs2, imm, 1),
            Instr::Sh { rs1, rs2, imm } => self.store(rs1, rs2, imm, 2),
            Instr::Sw { rs1, rs2, imm } => self.store(rs1, rs2, imm, 4),
            Instr::Fence { .. } | Instr::FenceI { .. } => self.pass(),
            Instr::Ecall => self.trap(11),
            Instr::Ebreak => self.trap(3),
            Instr::Mret => self.return_from_trap(),
            Instr::Wfi => self.wait(),
            Instr::Csrrw { rd, rs1, csr } => self.swap_csr(rd, csr, self.x(rs1)),
            Instr::Csrrs { rd, rs1, csr } => self.set_csr(rd, csr, rs1 & 0x1F, self.x(rs1)),
            Instr::Csrrc { rd, rs1, csr } => self.clear_csr(rd, csr, rs1 & 0x1F, self.x(rs1)),
            Instr::Csrrwi { rd, imm, csr } => self.swap_csr(rd, csr, imm.cast_unsigned()),
            Instr::Csrrsi { rd, imm, csr } => self.set_csr_immediate(rd, csr, imm),
            Instr::Csrrci { rd, imm, csr } => self.clear_csr_immediate(rd, csr, imm),
            _ => self.compute(instr),
        }
    }

    #[tactic(auto, unfolding(crate::specs::Execution::computed))]
    #[inline(always)]
    fn compute(&mut self, instr: Instr) -> Did
        ensures state { self.new ≡ (computed instr self.old).state }
        ensures act { result ≡ did (computed instr self.old).act }
    {
        match instr {
            Instr::Lui { rd, imm } => self.result(rd, alu::upper(imm)),
            Instr::Auipc { rd, imm } => self.result(rd, alu::add(self.pc(), alu::upper(imm))),
            Instr::Addi { rd, rs1, imm } => self.result(rd, alu::add_immediate(self.x(rs1), imm)),
            Instr::Slti { rd, rs1, imm } => self.result(rd, alu::slti(self.x(rs1), imm)),
            Instr::Sltiu { rd, rs1, imm } => self.result(rd, alu::sltiu(self.x(rs1), imm)),
            Instr::Xori { rd, rs1, imm } => self.result(rd, self.x(rs1) ^ imm.cast_unsigned()),
            Instr::Ori { rd, rs1, imm } => self.result(rd, self.x(rs1) | imm.cast_unsigned()),
            Instr::Andi { rd, rs1, imm } => self.result(rd, self.x(rs1) & imm.cast_unsigned()),
            Instr::Slli { rd, rs1, imm } => self.result(rd, alu::slli(self.x(rs1), imm)),
            Instr::Srli { rd, rs1, imm } => self.result(rd, alu::srli(self.x(rs1), imm)),
            Instr::Srai { rd, rs1, imm } => self.result(rd, alu::srai(self.x(rs1), imm)),
            Instr::Add { rd, rs1, rs2 } => self.result(rd, alu::add(self.x(rs1), self.x(rs2))),
            Instr::Sub { rd, rs1, rs2 } => self.result(rd, alu::sub(self.x(rs1), self.x(rs2))),
            Instr::Sll { rd, rs1, rs2 } => self.result(rd, alu::sll(self.x(rs1), self.x(rs2))),
            Instr::Slt { rd, rs1, rs2 } => self.result(rd, alu::slt(self.x(rs1), self.x(rs2))),
            Instr::Sltu { rd, rs1, rs2 } => self.result(rd, alu::sltu(self.x(rs1), self.x(rs2))),
            Instr::Xor { rd, rs1, rs2 } => self.result(rd, self.x(rs1) ^ self.x(rs2)),
            Instr::Srl { rd, rs1, rs2 } => self.result(rd, alu::srl(self.x(rs1), self.x(rs2))),
            Instr::Sra { rd, rs1, rs2 } => self.result(rd, alu::sra(self.x(rs1), self.x(rs2))),
            Instr::Or { rd, rs1, rs2 } => self.result(rd, self.x(rs1) | self.x(rs2)),
            Instr::And { rd, rs1, rs2 } => self.result(rd, self.x(rs1) & self.x(rs2)),
            Instr::Mul { rd, rs1, rs2 } => self.result(rd, alu::mul(self.x(rs1), self.x(rs2))),
            Instr::Mulh { rd, rs1, rs2 } => self.result(rd, alu::mulh(self.x(rs1), self.x(rs2))),
            Instr::Mulhsu { rd, rs1, rs2 } => self.result(
                rd,
                alu::mulhsu(self.x(rs1), self.x(rs2)),
            ),
            Instr::Mulhu { rd, rs1, rs2 } => self.result(rd, alu::mulhu(self.x(rs1), self.x(rs2))),
            Instr::Div { rd, rs1, rs2 } => self.result(rd, alu::div(self.x(rs1), self.x(rs2))),
            Instr::Divu { rd, rs1, rs2 } => self.result(rd, alu::divu(self.x(rs1), self.x(rs2))),
            Instr::Rem { rd, rs1, rs2 } => self.result(rd, alu::rem(self.x(rs1), self.x(rs2))),
            Instr::Remu { rd, rs1, rs2 } => self.result(rd, alu::remu(self.x(rs1), self.x(rs2))),
            _ => self.trap(2),
        }
    }
}

// The target of JALR, whose lowest bit is cleared.
#[inline]
fn even(target: u32) -> u32
    ensures { result ≡ target / 2 * 2 }
{
    target & !1
}

// A write to a register; one to register 0 changes nothing.
#[inline]
fn write(registers: &mut [u32; 32], rd: u32, value: u32)
    ensures written { registers.new ≡ registers_with registers.old rd value }
    ensures zero_register { slice_index registers.old 0 ≡ 0 → slice_index registers.new 0 ≡ 0 }
{
    let rd = (rd & 0x1F) as usize;
    if rd != 0 {
        registers[rd] = value;
    }
}
