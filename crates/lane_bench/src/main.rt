//! Times the kernels of `lane_kernels` and their plain loops over texts of the lengths that are given.
#![tactic(auto)]

use lane_kernels::{first_difference, ones_sum};
use std::time::Instant;
use std::{env, io};

/// Bytes that each measurement goes over in all.
const BYTES: u64 = 64 << 20;

/// Measurements of which the fastest counts.
const ROUNDS: u32 = 5;

#[derive(Clone, Copy)]
enum Kernel {
    OnesSum,
    PlainSum,
    FirstDifference,
    PlainDifference,
}

impl Kernel {
    fn run(self, a: &[u8], b: &[u8]) -> u64 {
        match self {
            Kernel::OnesSum => u64::from(ones_sum(a)),
            Kernel::PlainSum => u64::from(plain_sum(a)),
            Kernel::FirstDifference => first_difference(a, b).unwrap_or(a.len()) as u64,
            Kernel::PlainDifference => plain_difference(a, b).unwrap_or(a.len()) as u64,
        }
    }
}

/// The sum word by word, each carry added back in at once.
fn plain_sum(bytes: &[u8]) -> u16 {
    let mut sum = 0u32;
    for pair in bytes.chunks(2) {
        let word = match pair {
            [high, low] => u32::from(*high) << 8 | u32::from(*low),
            [high] => u32::from(*high) << 8,
            _ => 0,
        };
        sum = sum.wrapping_add(word);
        sum = (sum & 0xffff).wrapping_add(sum >> 16);
    }
    (sum & 0xffff) as u16
}

/// The first place at which the two differ, byte by byte.
fn plain_difference(a: &[u8], b: &[u8]) -> Option<usize> {
    a.iter().zip(b).position(|(x, y)| x != y)
}

/// The nanoseconds of the fastest of some measurements of so many calls, and what the answers add up to.
#[inline(never)]
fn fastest(
    rt: &HostRuntime,
    kernel: Kernel,
    a: &mut [u8],
    b: &mut [u8],
    calls: u64,
) -> io::Result<(u64, u64)> {
    let mut best = u64::MAX;
    let mut answers = 0u64;
    for _ in 0..ROUNDS {
        let began = Instant::now(rt)?;
        for call in 0..calls {
            let byte = (call & 0xff) as u8;
            if let Some(first) = a.first_mut() {
                *first = byte;
            }
            if let Some(first) = b.first_mut() {
                *first = byte;
            }
            answers = answers.wrapping_add(kernel.run(a, b));
        }
        let took = u64::try_from(began.elapsed(rt)?.as_nanos()).unwrap_or(u64::MAX);
        best = best.min(took);
    }
    Ok((best, answers))
}

/// One line: a kernel, its plain loop, and how many times faster it is.
fn report(
    rt: &HostRuntime,
    name: &str,
    kernel: Kernel,
    plain: Kernel,
    length: usize,
) -> io::Result<()> {
    let mut a = vec![in rt.alloc(); 0x5a; length]?;
    let mut b = vec![in rt.alloc(); 0x5a; length]?;
    let calls = BYTES.checked_div(length as u64).unwrap_or(1);
    let (lanes, lane_answers) = fastest(rt, kernel, a.as_mut_slice(), b.as_mut_slice(), calls)?;
    let (bytes, byte_answers) = fastest(rt, plain, a.as_mut_slice(), b.as_mut_slice(), calls)?;
    let agreement = if lane_answers == byte_answers {
        "equal"
    } else {
        "DIFFERENT"
    };
    println!(rt;
        "{name} length {length} calls {calls} lanes {lanes} ns plain {bytes} ns {agreement}"
    )
}

fn main(rt: HostRuntime) -> io::Result<()> {
    for word in env::args(&rt)?.skip(1) {
        let Ok(length) = word.as_str().parse::<usize>() else {
            continue;
        };
        report(&rt, "ones_sum", Kernel::OnesSum, Kernel::PlainSum, length)?;
        report(
            &rt,
            "first_difference",
            Kernel::FirstDifference,
            Kernel::PlainDifference,
            length,
        )?;
    }
    Ok(())
}
