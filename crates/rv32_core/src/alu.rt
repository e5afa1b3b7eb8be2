//! The results of computations, each on two words or a word and an immediate, under the instructions' names.

ghost use Rattle.std.specs.Prelude.{◌≡◌, ◌%◌, int_lt, nat_lt};
ghost use Rattle.std.specs.Int.{int_shr};
ghost use Rattle.rv32_isa.specs.Bits.{word_of};
ghost use Rattle.rv32_core.specs.Alu as alu;

#[tactic(auto, unfolding(crate::specs::Alu::subtract))]
pub(crate) fn sub(a: u32, b: u32) -> u32
    ensures { result ≡ alu.subtract a b }
{
    a.wrapping_sub(b)
}

#[tactic(auto, unfolding(crate::specs::Alu::add))]
pub(crate) fn add(a: u32, b: u32) -> u32
    ensures { result ≡ alu.add a b }
{
    a.wrapping_add(b)
}

#[tactic(auto, unfolding(crate::specs::Alu::add_immediate))]
pub(crate) fn add_immediate(a: u32, imm: i32) -> u32
    ensures { result ≡ alu.add_immediate a imm }
{
    a.wrapping_add(imm.cast_unsigned())
}

#[tactic(auto, unfolding(crate::specs::Alu::upper))]
pub(crate) fn upper(imm: i32) -> u32
    ensures { result ≡ alu.upper imm }
{
    imm.cast_unsigned() << 12
}

pub(crate) fn is_less(a: u32, b: u32) -> bool
    ensures { result ≡ int_lt (alu.integer a) (alu.integer b) }
{
    a.cast_signed() < b.cast_signed()
}

#[tactic(auto, unfolding(crate::specs::Alu::less))]
pub(crate) fn slt(a: u32, b: u32) -> u32
    ensures { result ≡ alu.less a b }
{
    u32::from(is_less(a, b))
}

#[tactic(auto, unfolding(crate::specs::Alu::less_immediate))]
pub(crate) fn slti(a: u32, imm: i32) -> u32
    ensures { result ≡ alu.less_immediate a imm }
{
    u32::from(a.cast_signed() < imm)
}

#[tactic(auto, unfolding(crate::specs::Alu::less_unsigned))]
pub(crate) fn sltu(a: u32, b: u32) -> u32
    ensures { result ≡ alu.less_unsigned a b }
{
    u32::from(a < b)
}

pub(crate) fn sltiu(a: u32, imm: i32) -> u32
    ensures { result ≡ alu.less_unsigned a (word_of imm) }
{
    sltu(a, imm.cast_unsigned())
}

#[tactic(auto, unfolding(crate::specs::Alu::shift_left))]
pub(crate) fn sll(a: u32, amount: u32) -> u32
    ensures { result ≡ alu.shift_left a amount }
{
    a.wrapping_shl(amount)
}

#[tactic(auto, unfolding(crate::specs::Alu::shift_right))]
pub(crate) fn srl(a: u32, amount: u32) -> u32
    ensures { result ≡ alu.shift_right a amount }
{
    a.wrapping_shr(amount)
}

#[tactic(auto, unfolding(crate::specs::Alu::shift_right_arithmetic))]
pub(crate) fn sra(a: u32, amount: u32) -> u32
    ensures { result ≡ alu.shift_right_arithmetic a amount }
{
    a.cast_signed().wrapping_shr(amount).cast_unsigned()
}

pub(crate) fn slli(a: u32, imm: i32) -> u32
    ensures { result ≡ alu.shift_left a (word_of imm) }
{
    sll(a, imm.cast_unsigned())
}

pub(crate) fn srli(a: u32, imm: i32) -> u32
    ensures { result ≡ alu.shift_right a (word_of imm) }
{
    srl(a, imm.cast_unsigned())
}

pub(crate) fn srai(a: u32, imm: i32) -> u32
    ensures { result ≡ alu.shift_right_arithmetic a (word_of imm) }
{
    sra(a, imm.cast_unsigned())
}

#[tactic(auto, unfolding(crate::specs::Alu::multiply))]
pub(crate) fn mul(a: u32, b: u32) -> u32
    ensures { result ≡ alu.multiply a b }
{
    a.wrapping_mul(b)
}

#[tactic(auto, unfolding(crate::specs::Alu::multiply_high))]
pub(crate) fn mulh(a: u32, b: u32) -> u32
    ensures { result ≡ alu.multiply_high a b }
{
    high_word(i64::from(a.cast_signed()) * i64::from(b.cast_signed()))
}

#[tactic(auto, unfolding(crate::specs::Alu::multiply_high_mixed))]
pub(crate) fn mulhsu(a: u32, b: u32) -> u32
    ensures { result ≡ alu.multiply_high_mixed a b }
{
    high_word(i64::from(a.cast_signed()) * i64::from(b))
}

#[tactic(auto, unfolding(crate::specs::Alu::multiply_high_unsigned))]
pub(crate) fn mulhu(a: u32, b: u32) -> u32
    ensures { result ≡ alu.multiply_high_unsigned a b }
{
    (u64::from(a) * u64::from(b) >> 32) as u32
}

#[tactic(auto, unfolding(crate::specs::Alu::divide))]
pub(crate) fn div(a: u32, b: u32) -> u32
    ensures { result ≡ alu.divide a b }
{
    if b == 0 {
        return u32::MAX;
    }
    a.cast_signed()
        .wrapping_div(b.cast_signed())
        .cast_unsigned()
}

#[tactic(auto, unfolding(crate::specs::Alu::divide_unsigned))]
pub(crate) fn divu(a: u32, b: u32) -> u32
    ensures { result ≡ alu.divide_unsigned a b }
{
    if b == 0 { u32::MAX } else { a / b }
}

#[tactic(auto, unfolding(crate::specs::Alu::remainder))]
pub(crate) fn rem(a: u32, b: u32) -> u32
    ensures { result ≡ alu.remainder a b }
{
    if b == 0 {
        return a;
    }
    a.cast_signed()
        .wrapping_rem(b.cast_signed())
        .cast_unsigned()
}

#[tactic(auto, unfolding(crate::specs::Alu::remainder_unsigned))]
pub(crate) fn remu(a: u32, b: u32) -> u32
    ensures { result ≡ alu.remainder_unsigned a b }
{
    if b == 0 { a } else { a % b }
}

// Bits 63 to 32 of a product.
fn high_word(product: i64) -> u32
    ensures { result ≡ word_of (int_shr product 32) }
{
    (product.cast_unsigned() >> 32) as u32
}
