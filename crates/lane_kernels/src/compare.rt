ghost use Rattle.std.specs.Prelude.{◌≡◌, ◌≤◌, ◌+◌, length};
ghost use Rattle.std.specs.Simd.Lanes.{chunk};
ghost use Rattle.lane_kernels.specs.Difference.{difference_from, differing_bits, equal_front, first_difference_of};

use std::simd::prelude::*;

/// Bytes in one vector.
const LANES: usize = 32;

/// A bit for each of the 32 bytes from a place on, the lowest first: whether the two differ there.
#[inline(always)]
fn differing(a: &[u8], b: &[u8], at: usize) -> u64
    requires in_a { at + LANES ≤ length a.now }
    requires in_b { at + LANES ≤ length b.now }
    ensures { result ≡ differing_bits (chunk at LANES a.now) (chunk at LANES b.now) }
{
    u8x32::from_slice(&a[at..])
        .simd_ne(u8x32::from_slice(&b[at..]))
        .to_bitmask()
}

/// How many of the 32 bytes from a place on are equal before the first that differ.
#[inline(always)]
fn equal_lanes(a: &[u8], b: &[u8], at: usize) -> usize
    requires in_a { at + LANES ≤ length a.now }
    requires in_b { at + LANES ≤ length b.now }
    ensures { result ≡ equal_front (chunk at LANES a.now) (chunk at LANES b.now) }
{
    let bits = differing(a, b, at);
    if bits == 0 {
        LANES
    } else {
        bits.trailing_zeros() as usize
    }
}

/// The first place from `start` on at which the two differ, one byte after another.
#[inline(always)]
fn plain_difference(a: &[u8], b: &[u8], start: usize) -> Option<usize>
    requires in_a { start ≤ length a.now }
    requires in_b { start ≤ length b.now }
    ensures { result ≡ difference_from start a.now b.now }
{
    let common = a.len().min(b.len());
    for at in start..common {
        if a[at] != b[at] {
            return Some(at);
        }
    }
    None
}

/// The least place below both lengths at which the two differ. `None` says that there is none: one is the beginning of
/// the other.
pub fn first_difference(a: &[u8], b: &[u8]) -> Option<usize>
    ensures place { result ≡ first_difference_of a.now b.now }
{
    let common = a.len().min(b.len());
    let mut at = 0;
    while at + LANES <= common {
        let equal = equal_lanes(a, b, at);
        if equal < LANES {
            return Some(at + equal);
        }
        at += LANES;
    }
    plain_difference(a, b, at)
}
