//! Numbers as the language writes them.
ghost use Rattle.std.specs.Prelude.{◌≡◌, ◌<◌, ◌≤◌, ◌^◌, min, ◌≤ℤ◌, IfSome, IfOk, option_map};
ghost use Rattle.cs_base.specs.Texts.{hexadecimal_value};
ghost use Rattle.asm_syntax.specs.Numbers.{below, spelled, number_of, in_range, least, greatest, clipped};

use crate::line::LineBad;
use crate::range::Range;
use cs_base::hexadecimal_value;

/// No place takes a number of this size or more, so a greater one is read as this.
const LIMIT: u64 = 0x2_0000_0000;

fn digit(base: u64, byte: u8) -> Option<u64>
    ensures value { result ≡ below base (hexadecimal_value byte) }
    ensures small { IfSome result (λ digit. digit < 16) }
{
    match hexadecimal_value(byte) {
        Some(digit) if u64::from(digit) < base => Some(u64::from(digit)),
        _ => None,
    }
}

/// The number that digits of a base spell, or LIMIT where that is less.
#[tactic(auto, unfolding(crate::specs::Numbers::spelled))]
fn spelled(base: u64, digits: &[u8]) -> Option<u64>
    requires least { 1 ≤ base }
    requires most { base ≤ 16 }
    ensures value { result ≡ option_map (λ n. min n (2 ^ 33)) (spelled base digits.now) }
    ensures small { IfSome result (λ number. number ≤ 2 ^ 33) }
{
    if digits.is_empty() {
        return None;
    }
    let mut number = 0;
    for byte in digits {
        let digit = digit(base, *byte)?;
        number = (number * base + digit).min(LIMIT);
    }
    Some(number)
}

#[tactic(auto, unfolding(crate::specs::Numbers::number_of))]
fn number(word: &[u8]) -> Option<i64>
    ensures { result ≡ option_map clipped (number_of word.now) }
{
    if let Some(digits) = word.strip_prefix(b"0x".as_slice()) {
        return Some(spelled(16, digits)? as i64);
    }
    if let Some(digits) = word.strip_prefix(b"-".as_slice()) {
        return Some(-(spelled(10, digits)? as i64));
    }
    Some(spelled(10, word)? as i64)
}

fn in_range(range: Range, number: Option<i64>) -> Result<i64, LineBad>
    ensures value { result ≡ in_range range number }
    ensures low { IfOk result (λ z. least range ≤ℤ z) }
    ensures high { IfOk result (λ z. z ≤ℤ greatest range) }
{
    match number {
        None => Err(LineBad::BadLine),
        Some(number) => {
            if range.least() <= number && number <= range.greatest() {
                Ok(number)
            } else {
                Err(LineBad::OutOfRange {
                    size: range.size_outside(),
                })
            }
        }
    }
}

/// The number of a range that a word is.
pub(crate) fn number_in(range: Range, word: &[u8]) -> Result<i64, LineBad>
    ensures value { result ≡ in_range range (number_of word.now) }
    ensures low { IfOk result (λ z. least range ≤ℤ z) }
    ensures high { IfOk result (λ z. z ≤ℤ greatest range) }
{
    in_range(range, number(word))
}
