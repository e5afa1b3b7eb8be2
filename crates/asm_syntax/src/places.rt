//! What the places of a statement take.
ghost use Rattle.std.specs.Prelude.{◌≡◌, ◌≤ℤ◌, IfOk};
ghost use Rattle.asm_syntax.specs.Numbers.{least, greatest};
ghost use Rattle.asm_syntax.specs.Places.{register, number, natural, label, csr};

use crate::class::{Class, is_name};
use crate::line::LineBad;
use crate::number::number_in;
use crate::range::Range;
use crate::registers::{csr_named, register_named};

/// A register's number.
#[tactic(auto, unfolding(crate::specs::Places::register))]
pub(crate) fn register(word: &[u8]) -> Result<u32, LineBad>
    ensures { result ≡ register word.now }
{
    if Class::Name.has_all(word) {
        register_named(word).ok_or(LineBad::BadRegister)
    } else {
        Err(LineBad::BadLine)
    }
}

/// A number of a range.
#[tactic(auto, unfolding(crate::specs::Places::number))]
pub(crate) fn number(range: Range, word: &[u8]) -> Result<i64, LineBad>
    ensures value { result ≡ number range word.now }
    ensures low { IfOk result (λ n. least range ≤ℤ n) }
    ensures high { IfOk result (λ n. n ≤ℤ greatest range) }
{
    number_in(range, word)
}

/// An immediate of twelve bits with sign.
pub(crate) fn immediate(word: &[u8]) -> Result<i32, LineBad>
    ensures { result ≡ number Range.Immediate word.now }
{
    match number(Range::Immediate, word) {
        Ok(n) => Ok(n as i32),
        Err(bad) => Err(bad),
    }
}

/// An immediate of five bits.
pub(crate) fn amount(word: &[u8]) -> Result<i32, LineBad>
    ensures { result ≡ number Range.Amount word.now }
{
    match number(Range::Amount, word) {
        Ok(n) => Ok(n as i32),
        Err(bad) => Err(bad),
    }
}

/// An immediate of twenty bits.
pub(crate) fn upper_immediate(word: &[u8]) -> Result<i32, LineBad>
    ensures { result ≡ number Range.Upper word.now }
{
    match number(Range::Upper, word) {
        Ok(n) => Ok(n as i32),
        Err(bad) => Err(bad),
    }
}

/// How many zeros.
pub(crate) fn zeros(word: &[u8]) -> Result<u32, LineBad>
    ensures { result ≡ natural Range.Space word.now }
{
    match number(Range::Space, word) {
        Ok(n) => Ok(n as u32),
        Err(bad) => Err(bad),
    }
}

/// That the word is a label.
#[tactic(auto, unfolding(crate::specs::Places::label))]
pub(crate) fn label(word: &[u8]) -> Result<(), LineBad>
    ensures { result ≡ label word.now }
{
    if is_name(word) {
        Ok(())
    } else {
        Err(LineBad::BadLine)
    }
}

/// A CSR's number, from its name or from the number itself.
#[tactic(auto, unfolding(crate::specs::Places::csr))]
pub(crate) fn csr(word: &[u8]) -> Result<u32, LineBad>
    ensures { result ≡ csr word.now }
{
    if is_name(word) {
        return csr_named(word).ok_or(LineBad::UnknownWord);
    }
    match number(Range::CsrNumber, word) {
        Ok(n) => Ok(n as u32),
        Err(bad) => Err(bad),
    }
}
