ghost use Rattle.std.specs.Prelude.{◌≡◌, ◌≤◌, ◌<◌, ◌+◌, ◌*◌, ◌%◌, length};
ghost use Rattle.std.specs.Simd.Lanes.{chunk, zip2, sum_l, Each1, Each2};
ghost use mir.Val.{Fits};
ghost use mir.Syntax.{w16};
ghost use Rattle.lane_kernels.specs.Checksum.{ones_sum_of, word_sum, folded, high_bytes, low_bytes};

use std::simd::prelude::*;

/// Bytes in one vector.
const LANES: usize = 32;

/// Bytes that are summed before the sum is folded: with 255 to a lane of 16 bits for each of its 256 vectors, no lane
/// passes its type's end.
const BLOCK: usize = 8192;

/// The sum of a folded sum and of a block's words, folded again to 16 bits.
#[inline(always)]
fn fold(sum: u32) -> u16
    ensures { result ≡ folded sum }
{
    if sum == 0 {
        0
    } else {
        (1 + (sum - 1) % 65535) as u16
    }
}

/// The sum of the words of a short text, one word after another.
#[inline(always)]
fn plain_sum(bytes: &[u8]) -> u32
    requires { length bytes.now ≤ BLOCK }
    ensures { result ≡ word_sum bytes.now }
{
    let mut sum = 0;
    let mut at = 0;
    while at + 2 <= bytes.len() {
        sum += u32::from(bytes[at]) * 256 + u32::from(bytes[at + 1]);
        at += 2;
    }
    if at < bytes.len() {
        sum += u32::from(bytes[at]) * 256;
    }
    sum
}

/// The high and the low bytes of the 16 words from a place on, each in a lane.
#[inline(always)]
fn halves(block: &[u8], at: usize) -> (u16x16, u16x16)
    requires { at + LANES ≤ length block.now }
    ensures highs { result.0 ≡ high_bytes (chunk at LANES block.now) }
    ensures lows { result.1 ≡ low_bytes (chunk at LANES block.now) }
{
    let words = u16x16::from_le_bytes(u8x32::from_slice(&block[at..]));
    (words & u16x16::splat(0xff), words >> u16x16::splat(8))
}

#[inline(always)]
fn add(a: u16x16, b: u16x16) -> u16x16
    requires { Each2 (λ x y. Fits w16 (x + y)) a b }
    ensures { result ≡ zip2 (λ x y. x + y) a b }
{
    a.strict_add(b)
}

/// The sum of all lanes.
#[inline(always)]
fn total(lanes: u16x16) -> u32
    requires count { length lanes ≡ 16 }
    requires words { Each1 (λ x. x ≤ 65535) lanes }
    ensures { result ≡ sum_l lanes }
{
    lanes.cast::<u32>().strict_reduce_sum()
}

/// The sum of a block's words: high and low bytes add up in lanes of their own.
#[inline(always)]
fn block_sum(block: &[u8]) -> u32
    requires { length block.now ≤ BLOCK }
    ensures sum { result ≡ word_sum block.now }
    ensures small { result ≤ 65536 * BLOCK }
{
    let mut highs = u16x16::splat(0);
    let mut lows = u16x16::splat(0);
    let mut at = 0;
    while at + LANES <= block.len() {
        let (more_highs, more_lows) = halves(block, at);
        highs = add(highs, more_highs);
        lows = add(lows, more_lows);
        at += LANES;
    }
    total(highs) * 256 + total(lows) + plain_sum(&block[at..])
}

/// The ones' complement sum of the 16-bit big-endian words (RFC 1071), an odd last byte being the high half of a word:
/// 0 where all bytes are 0, and else `1 + (S - 1) mod 65535`, where `S` is the plain sum of the words.
pub fn ones_sum(bytes: &[u8]) -> u16
    ensures sum { result ≡ ones_sum_of bytes.now }
{
    let mut sum = 0;
    let mut at = 0;
    while at + BLOCK <= bytes.len() {
        sum = fold(u32::from(sum) + block_sum(&bytes[at..at + BLOCK]));
        at += BLOCK;
    }
    fold(u32::from(sum) + block_sum(&bytes[at..]))
}
