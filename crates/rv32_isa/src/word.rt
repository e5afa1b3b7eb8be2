//! A word, read by its fields.

ghost use Rattle.std.specs.Prelude.{◌≡◌, ◌<◌, ◌≤◌, ◌^◌};
ghost use Rattle.rv32_isa.specs.Bits.{signed};
ghost use Rattle.rv32_isa.specs.Formats.{opcode_in, rd_in, funct3_in, rs1_in, rs2_in, funct7_in, csr_in, fence_bits_in, i_immediate_in, s_immediate_in, b_immediate_in, u_immediate_in, j_immediate_in, shift_amount_in, csr_immediate_in};

#[derive(Clone, Copy)]
pub(crate) struct Word(pub(crate) u32);

impl Word {
    #[inline(always)]
    pub(crate) fn opcode(self) -> u32
        ensures { result ≡ opcode_in self.0 }
    {
        self.0 & 0x7F
    }

    #[inline(always)]
    pub(crate) fn rd(self) -> u32
        ensures { result ≡ rd_in self.0 }
    {
        self.0 >> 7 & 0x1F
    }

    #[inline(always)]
    pub(crate) fn funct3(self) -> u32
        ensures { result ≡ funct3_in self.0 }
    {
        self.0 >> 12 & 0b111
    }

    #[inline(always)]
    pub(crate) fn rs1(self) -> u32
        ensures { result ≡ rs1_in self.0 }
    {
        self.0 >> 15 & 0x1F
    }

    #[inline(always)]
    pub(crate) fn rs2(self) -> u32
        ensures { result ≡ rs2_in self.0 }
    {
        self.0 >> 20 & 0x1F
    }

    #[inline(always)]
    pub(crate) fn funct7(self) -> u32
        ensures { result ≡ funct7_in self.0 }
    {
        self.0 >> 25
    }

    #[inline(always)]
    pub(crate) fn csr(self) -> u32
        ensures { result ≡ csr_in self.0 }
    {
        self.0 >> 20
    }

    #[inline(always)]
    pub(crate) fn fence_bits(self) -> u32
        ensures { result ≡ fence_bits_in self.0 }
    {
        (self.0 >> 15) << 15 | self.rd() << 7
    }

    #[inline(always)]
    pub(crate) fn i_immediate(self) -> i32
        ensures { result ≡ i_immediate_in self.0 }
    {
        sign_extended(self.0 >> 20, 12)
    }

    #[inline(always)]
    pub(crate) fn s_immediate(self) -> i32
        ensures { result ≡ s_immediate_in self.0 }
    {
        sign_extended(self.funct7() << 5 | self.rd(), 12)
    }

    #[inline(always)]
    pub(crate) fn b_immediate(self) -> i32
        ensures { result ≡ b_immediate_in self.0 }
    {
        let word = self.0;
        let sign = self.funct7() >> 6;
        sign_extended(
            sign << 12 | (word >> 7 & 1) << 11 | (word >> 25 & 0x3F) << 5 | (word >> 8 & 0xF) << 1,
            13,
        )
    }

    #[inline(always)]
    pub(crate) fn u_immediate(self) -> i32
        ensures { result ≡ u_immediate_in self.0 }
    {
        (self.0 >> 12).cast_signed()
    }

    #[inline(always)]
    pub(crate) fn j_immediate(self) -> i32
        ensures { result ≡ j_immediate_in self.0 }
    {
        let word = self.0;
        let sign = self.funct7() >> 6;
        sign_extended(
            sign << 20
                | (word >> 12 & 0xFF) << 12
                | (word >> 20 & 1) << 11
                | (word >> 21 & 0x3FF) << 1,
            21,
        )
    }

    #[inline(always)]
    pub(crate) fn shift_amount(self) -> i32
        ensures { result ≡ shift_amount_in self.0 }
    {
        self.rs2().cast_signed()
    }

    #[inline(always)]
    pub(crate) fn csr_immediate(self) -> i32
        ensures { result ≡ csr_immediate_in self.0 }
    {
        self.rs1().cast_signed()
    }
}

#[inline(always)]
fn sign_extended(bits: u32, width: u32) -> i32
    requires some { 0 < width }
    requires at_most_32 { width ≤ 32 }
    requires fits { bits < 2 ^ width }
    ensures { result ≡ signed width bits }
{
    let unused = 32 - width;
    (bits << unused).cast_signed() >> unused
}
