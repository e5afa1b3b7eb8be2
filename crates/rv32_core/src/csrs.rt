//! The CSRs: their numbers, and the bits of those that have fields.

ghost use Rattle.std.specs.Prelude.{◌≡◌};
ghost use Rattle.rv32_core.specs.Csr.{is_set, mstatus_of, external_bit, aligned};

pub(crate) const MSTATUS: u32 = 0x300;

pub(crate) const MIE: u32 = 0x304;

pub(crate) const MTVEC: u32 = 0x305;

pub(crate) const MSCRATCH: u32 = 0x340;

pub(crate) const MEPC: u32 = 0x341;

pub(crate) const MCAUSE: u32 = 0x342;

pub(crate) const MTVAL: u32 = 0x343;

pub(crate) const MIP: u32 = 0x344;

pub(crate) const MHARTID: u32 = 0xF14;

// The bits of mstatus that are MIE, MPIE and MPP, and of mie and mip the one of the external interrupt.
const MSTATUS_MIE: u32 = 0x8;

const MSTATUS_MPIE: u32 = 0x80;

const MSTATUS_MPP: u32 = 0x1800;

const EXTERNAL: u32 = 0x800;

pub(crate) fn interrupts_enabled(mstatus: u32) -> bool
    ensures { result ≡ is_set mstatus 3 }
{
    mstatus >> 3 & 1 == 1
}

pub(crate) fn previously_enabled(mstatus: u32) -> bool
    ensures { result ≡ is_set mstatus 7 }
{
    mstatus >> 7 & 1 == 1
}

pub(crate) fn external_enabled(mie: u32) -> bool
    ensures { result ≡ is_set mie 11 }
{
    mie >> 11 & 1 == 1
}

pub(crate) fn mstatus(enabled: bool, previously: bool) -> u32
    ensures { result ≡ mstatus_of enabled previously }
{
    let mie = if enabled { MSTATUS_MIE } else { 0 };
    let mpie = if previously { MSTATUS_MPIE } else { 0 };
    MSTATUS_MPP | mpie | mie
}

pub(crate) fn external_bit(is_set: bool) -> u32
    ensures { result ≡ external_bit is_set }
{
    if is_set { EXTERNAL } else { 0 }
}

// The address of an instruction, whose low two bits read 0.
pub(crate) fn aligned(address: u32) -> u32
    ensures { result ≡ aligned address }
{
    address & !0b11
}
