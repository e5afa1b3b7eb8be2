ghost use Rattle.std.specs.Prelude.{◌≡◌};
ghost use Rattle.asm_syntax.specs.Numbers.{least, greatest, size_outside};

/// The numbers that a place takes.
#[derive(Clone, Copy, Debug)]
pub(crate) enum Range {
    /// An immediate of twelve bits with sign.
    Immediate,
    /// The amount of a shift, and the immediate of a CSR instruction.
    Amount,
    /// Bits 31 to 12 of a word.
    Upper,
    CsrNumber,
    /// A word with or without sign, at `li`.
    LoadImmediate,
    /// The same at `.word`.
    Word,
    /// A byte with or without sign.
    Byte,
    /// A number of zero bytes.
    Space,
}

impl Range {
    pub fn least(self) -> i64
        ensures { result ≡ least self }
    {
        match self {
            Range::Immediate => -2048,
            Range::Amount | Range::Upper | Range::CsrNumber | Range::Space => 0,
            Range::LoadImmediate | Range::Word => -0x8000_0000,
            Range::Byte => -128,
        }
    }

    pub fn greatest(self) -> i64
        ensures { result ≡ greatest self }
    {
        match self {
            Range::Immediate => 2047,
            Range::Amount => 31,
            Range::Upper => 0xf_ffff,
            Range::CsrNumber => 4095,
            Range::LoadImmediate | Range::Word => 0xffff_ffff,
            Range::Byte => 255,
            Range::Space => 16_777_216,
        }
    }

    /// How many bytes a statement takes whose number is outside.
    pub fn size_outside(self) -> u32
        ensures { result ≡ size_outside self }
    {
        match self {
            Range::Immediate | Range::Amount | Range::Upper | Range::CsrNumber | Range::Word => 4,
            Range::LoadImmediate => 8,
            Range::Byte => 1,
            Range::Space => 0,
        }
    }
}
