//! Known sums and places, and both kernels against the plain loops at each short length.
use crate::{first_difference, ones_sum};

/// The sum word by word, each carry added back in at once.
fn plain_sum(bytes: &[u8]) -> u16 {
    let mut sum = 0u32;
    for (place, byte) in bytes.iter().enumerate() {
        let shift = if place % 2 == 0 { 8 } else { 0 };
        sum = sum.wrapping_add(u32::from(*byte) << shift);
        sum = (sum & 0xffff).wrapping_add(sum >> 16);
    }
    (sum & 0xffff) as u16
}

#[test]
fn known_sums(rt: HostRuntime) {
    let mut last_alone = [0; 33];
    last_alone[32] = 1;
    let sums: [(&[u8], u16); 5] = [
        (&[0x00, 0x01, 0xf2, 0x03, 0xf4, 0xf5, 0xf6, 0xf7], 0xddf2),
        (&[0x00, 0x01, 0xf2], 0xf201),
        (&[], 0),
        (&[0; 64], 0),
        (&last_alone, 0x0100),
    ];
    for (bytes, sum) in sums {
        assert_eq!(rt; ones_sum(bytes), sum);
    }
}

#[test]
fn a_long_sum(rt: HostRuntime) -> Result<(), std::alloc::AllocError> {
    let bytes = vec![in rt.alloc(); 0xff; 1_000_000]?;
    assert_eq!(rt; ones_sum(bytes.as_slice()), 0xffff);
    Ok(())
}

#[test]
fn each_short_length(rt: HostRuntime) {
    let mut bytes = [0; 100];
    for place in 0..100usize {
        bytes[place] = ((place * 37 + 11) % 251) as u8;
    }
    for length in 0..101usize {
        assert_eq!(rt; ones_sum(&bytes[0..length]), plain_sum(&bytes[0..length]));
    }
}

#[test]
fn each_place(rt: HostRuntime) {
    let same = [7; 100];
    for place in 0..100usize {
        let mut other = [7; 100];
        other[place] = 8;
        assert_eq!(rt; first_difference(&same, &other), Some(place));
        assert_eq!(rt; first_difference(&other, &same[0..place]), None);
    }
    assert_eq!(rt; first_difference(&same, &same), None);
    assert_eq!(rt; first_difference(&same[0..40], &same[0..41]), None);
    assert_eq!(rt; first_difference(&[1, 2, 3], &[1, 9]), Some(1));
}
