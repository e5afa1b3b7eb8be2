//! The program that the hosts run.
ghost use Rattle.std.specs.Prelude.{◌≡◌, ◌≤◌, Ok, IfOk, length};
ghost use Rattle.rv32_asm.specs.Assembled.{assembled};
ghost use Rattle.load_gen.specs.Ping.{ping_source};

use cs_base::{NoMemory, Octets};
use rv32_asm::{AsmBad, assemble};
use std::alloc::Global;

/// It opens both rings, sends four broadcasts of 60 bytes, waits until they are sent, prints `o`, and halts with the
/// number of the receive head.
const PING: &[u8] = b"\
start:  li a0, 0x40000000
        li a1, 0x40002800
        li a2, 0x40003800
        li t0, 0x40
        sw t0, 0(a0)
        li t1, 0x80002000
        li t2, 0x80004000
        li t3, 8
fill:   sw t2, 0(t1)
        sw x0, 4(t1)
        sw x0, 8(t1)
        sw x0, 12(t1)
        addi t1, t1, 16
        addi t2, t2, 2047
        addi t2, t2, 1
        addi t3, t3, -1
        bne t3, x0, fill
        li t1, 0x80002000
        sw t1, 0(a1)
        li t0, 128
        sw t0, 8(a1)
        li t0, 7
        sw t0, 24(a1)
        li t0, 0x8002
        sw t0, 256(a0)
        li t1, 0x80003000
        li t0, -1
        sw t0, 0(t1)
        li t0, 0x0002ffff
        sw t0, 4(t1)
        csrrs t0, mhartid, x0
        slli t0, t0, 24
        sw t0, 8(t1)
        li t0, 0xb588
        sw t0, 12(t1)
        li t2, 0x80001000
        li t3, 4
        li t0, 0x0b00003c
desc:   sw t1, 0(t2)
        sw x0, 4(t2)
        sw t0, 8(t2)
        sw x0, 12(t2)
        addi t2, t2, 16
        addi t3, t3, -1
        bne t3, x0, desc
        li t2, 0x80001000
        sw t2, 0(a2)
        li t0, 128
        sw t0, 8(a2)
        li t0, 10
        sw t0, 1024(a0)
        li t0, 4
        sw t0, 24(a2)
wait:   lw t1, 16(a2)
        bne t1, t0, wait
        li t2, 0x10000000
        li t0, 111
        sb t0, 0(t2)
        li t0, 10
        sb t0, 0(t2)
        lw t1, 16(a1)
        sw t1, 4(t2)
";

/// The bytes of the program that the hosts run, the file `ping.bin`; they are no more than a host's RAM, 65,536. The
/// assembler takes its source, which is proved.
pub fn load_image(alloc: Global) -> Result<Octets, NoMemory>
    ensures assembled { IfOk result (λ bytes. assembled ping_source ≡ Ok bytes) }
    ensures fits { IfOk result (λ bytes. length bytes ≤ 65536) }
{
    match assemble(alloc, PING) {
        Ok(bytes) => Ok(bytes),
        Err(AsmBad::NoMemory) => Err(NoMemory),
        Err(AsmBad::At { .. }) => unreachable!(),
    }
}
