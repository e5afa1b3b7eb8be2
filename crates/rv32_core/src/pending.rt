ghost use Rattle.std.specs.Prelude.{◌≡◌, ◌↔◌, ◌%◌, ◌==◌, ◌^◌, ◌*◌, IsTrue};
ghost use Rattle.rv32_core.specs.CoreState.{IsSize};
ghost use Rattle.rv32_core.specs.Accesses.{low_bytes, loaded};

use crate::act::Act;

/// An access to memory that an instruction waits for. Sizes are 1, 2 and 4 bytes.
#[derive(Clone, Copy, Debug, PartialEq, Eq)]
pub enum Pending {
    /// There is none.
    Nothing,
    /// A load into register `rd`; `signed` says that the value's sign is extended.
    Load {
        addr: u32,
        size: u32,
        rd: u32,
        signed: bool,
    },
    /// A store of the low `size` bytes of `value`.
    Store {
        addr: u32,
        size: u32,
        value: u32,
    },
}

impl Pending {
    ghost use Rattle.rv32_core.specs.CoreState.{IsAccess};
    ghost use Rattle.rv32_core.specs.Acts.{loading, storing};

    // The act of a load that is pending.
    #[inline(always)]
    pub(crate) fn loading(self) -> Act
        ensures { result ≡ loading self }
    {
        match self {
            Pending::Load { addr, size, .. } => Act::Load { addr, size },
            _ => Act::Done,
        }
    }

    // The act of a store that is pending.
    #[inline(always)]
    pub(crate) fn storing(self) -> Act
        ensures { result ≡ storing self }
    {
        match self {
            Pending::Store { addr, size, value } => Act::Store { addr, size, value },
            _ => Act::Done,
        }
    }

    pub(crate) fn is_valid(self) -> bool
        ensures { IsTrue result ↔ IsAccess self }
    {
        match self {
            Pending::Nothing => true,
            Pending::Load {
                addr,
                size,
                rd,
                signed,
            } => { is_size(size) && is_aligned(addr, size) && rd < 32 && !(size == 4 && signed) }
            Pending::Store { addr, size, value } => {
                is_size(size) && is_aligned(addr, size) && value == low_bytes(value, size)
            }
        }
    }
}

fn is_size(size: u32) -> bool
    ensures { IsTrue result ↔ IsSize size }
{
    matches!(size, 1 | 2 | 4)
}

#[inline(always)]
pub(crate) fn is_aligned(addr: u32, size: u32) -> bool
    requires { IsSize size }
    ensures { result ≡ (addr % size == 0) }
{
    addr & (size - 1) == 0
}

// The number of the low bytes of a word.
#[inline(always)]
pub(crate) fn low_bytes(word: u32, size: u32) -> u32
    requires { IsSize size }
    ensures { result ≡ low_bytes size word }
{
    match size {
        1 => word & 0xFF,
        2 => word & 0xFFFF,
        _ => word,
    }
}

// A register's value of a loaded one.
#[tactic(auto, unfolding(crate::specs::Accesses::loaded))]
#[inline(always)]
pub(crate) fn loaded(word: u32, size: u32, signed: bool) -> u32
    requires { IsSize size }
    ensures { result ≡ loaded size signed word }
{
    if !signed {
        return low_bytes(word, size);
    }
    match size {
        1 => i32::from(((word & 0xFF) as u8).cast_signed()).cast_unsigned(),
        2 => i32::from(((word & 0xFFFF) as u16).cast_signed()).cast_unsigned(),
        _ => word,
    }
}
