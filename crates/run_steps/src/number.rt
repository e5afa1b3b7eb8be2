//! Numbers as a schedule spells them: decimal digits without a sign and without a leading zero.
ghost use Rattle.std.specs.Prelude.{◌^◌};
ghost use Rattle.run_steps.specs.Steps.{IsNumber};

use itoa::Buffer;
use std::str;

/// The number below 2^64 that these digits spell.
pub fn number(digits: &[u8]) -> Option<u64>
    ensures { IsNumber (2 ^ 64) digits.now result }
{
    let Ok(text) = str::from_utf8(digits) else {
        return None;
    };
    match text.parse::<u64>() {
        Ok(number) if Buffer::new().format(number).as_bytes() == digits => Some(number),
        _ => None,
    }
}

/// The number below 2^32 that these digits spell.
pub fn short_number(digits: &[u8]) -> Option<u32>
    ensures { IsNumber (2 ^ 32) digits.now result }
{
    match number(digits) {
        Some(number) if number <= u64::from(u32::MAX) => Some(number as u32),
        _ => None,
    }
}
