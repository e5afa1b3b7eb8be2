//! The names of registers and CSRs.
ghost use Rattle.std.specs.Prelude.{◌≡◌, ◌<◌, IfSome};
ghost use Rattle.asm_syntax.specs.Rows.{select};
ghost use Rattle.asm_syntax.specs.Registers.{numbered_rows, abi_rows, csr_rows, register_named, csr_named};

#[tactic(auto, unfolding(crate::specs::Registers::numbered_rows))]
fn numbered(word: &[u8]) -> Option<u32>
    ensures { result ≡ select word.now numbered_rows }
{
    match word {
        b"x0" => Some(0),
        b"x1" => Some(1),
        b"x2" => Some(2),
        b"x3" => Some(3),
        b"x4" => Some(4),
        b"x5" => Some(5),
        b"x6" => Some(6),
        b"x7" => Some(7),
        b"x8" => Some(8),
        b"x9" => Some(9),
        b"x10" => Some(10),
        b"x11" => Some(11),
        b"x12" => Some(12),
        b"x13" => Some(13),
        b"x14" => Some(14),
        b"x15" => Some(15),
        b"x16" => Some(16),
        b"x17" => Some(17),
        b"x18" => Some(18),
        b"x19" => Some(19),
        b"x20" => Some(20),
        b"x21" => Some(21),
        b"x22" => Some(22),
        b"x23" => Some(23),
        b"x24" => Some(24),
        b"x25" => Some(25),
        b"x26" => Some(26),
        b"x27" => Some(27),
        b"x28" => Some(28),
        b"x29" => Some(29),
        b"x30" => Some(30),
        b"x31" => Some(31),
        _ => None,
    }
}

#[tactic(auto, unfolding(crate::specs::Registers::abi_rows))]
fn abi_named(word: &[u8]) -> Option<u32>
    ensures { result ≡ select word.now abi_rows }
{
    match word {
        b"zero" => Some(0),
        b"ra" => Some(1),
        b"sp" => Some(2),
        b"gp" => Some(3),
        b"tp" => Some(4),
        b"t0" => Some(5),
        b"t1" => Some(6),
        b"t2" => Some(7),
        b"s0" | b"fp" => Some(8),
        b"s1" => Some(9),
        b"a0" => Some(10),
        b"a1" => Some(11),
        b"a2" => Some(12),
        b"a3" => Some(13),
        b"a4" => Some(14),
        b"a5" => Some(15),
        b"a6" => Some(16),
        b"a7" => Some(17),
        b"s2" => Some(18),
        b"s3" => Some(19),
        b"s4" => Some(20),
        b"s5" => Some(21),
        b"s6" => Some(22),
        b"s7" => Some(23),
        b"s8" => Some(24),
        b"s9" => Some(25),
        b"s10" => Some(26),
        b"s11" => Some(27),
        b"t3" => Some(28),
        b"t4" => Some(29),
        b"t5" => Some(30),
        b"t6" => Some(31),
        _ => None,
    }
}

/// The register that a word names: `x0` to `x31`, or its name in the RISC-V ABIs Specification, Integer Register
/// Convention.
pub(crate) fn register_named(word: &[u8]) -> Option<u32>
    ensures { result ≡ register_named word.now }
{
    numbered(word).or(abi_named(word))
}

/// The CSR that a word names, by the CSR listing of the RISC-V privileged architecture.
#[tactic(auto, unfolding(crate::specs::Registers::csr_rows))]
pub(crate) fn csr_named(word: &[u8]) -> Option<u32>
    ensures { result ≡ csr_named word.now }
{
    match word {
        b"mstatus" => Some(0x300),
        b"mie" => Some(0x304),
        b"mtvec" => Some(0x305),
        b"mscratch" => Some(0x340),
        b"mepc" => Some(0x341),
        b"mcause" => Some(0x342),
        b"mtval" => Some(0x343),
        b"mip" => Some(0x344),
        b"mhartid" => Some(0xf14),
        _ => None,
    }
}
