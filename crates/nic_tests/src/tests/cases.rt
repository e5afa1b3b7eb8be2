//! What is given to an adapter, and what it sends and logs of it: by the rules of docs/DEFINITIONS.md, by hand.

/// What is given to an adapter.
#[derive(Clone, Copy)]
pub(crate) enum Given {
    /// The host writes a register: its offset and the value.
    Write(u64, u32),
    /// The host reads so many bytes at an offset.
    Read(u64, usize),
    /// Frames to an address arrive: the length of each, and how many.
    Frames(u64, usize, u32),
    /// A read is completed with these bytes.
    Bytes(u64, &'static [u8]),
    /// A read is completed with so many zeros.
    Zeros(u64, usize),
    /// A write is completed.
    Done(u64),
}

use Given::{Bytes, Done, Frames, Read, Write, Zeros};

/// Registers that are written first, and then each step with what it does.
pub(crate) struct Case {
    pub(crate) registers: &'static [(u64, u32)],
    pub(crate) steps: &'static [(Given, &'static str)],
}

const OWN: u64 = 0x0200_0000_000a;

const OTHER: u64 = 0x0200_0000_000b;

const GROUP: u64 = 0x0300_0000_0001;

const BROADCAST: u64 = 0xffff_ffff_ffff;

/// Rings of eight descriptors at 0x1000, and one engine is on.
const SENDS: [(u64, u32); 4] = [(0, 0x40), (0x400, 2), (0x3800, 0x1000), (0x3808, 0x80)];

const RECEIVES: [(u64, u32); 5] = [
    (0, 0x40),
    (0x100, 0x30002),
    (0x2800, 0x1000),
    (0x2808, 0x80),
    (0xd0, 0xc0),
];

/// Transmit descriptors: address, length, CSO, CMD, status, CSS.
const TEN: [u8; 16] = [0, 0x20, 0, 0, 0, 0, 0, 0, 10, 0, 0, 0, 0, 0, 0, 0];

const FOUR_END: [u8; 16] = [0, 0x30, 0, 0, 0, 0, 0, 0, 4, 0, 0, 9, 0xf0, 0, 0, 0];

const SIZE_0: [u8; 16] = [0, 0x20, 0, 0, 0, 0, 0, 0, 0, 0, 0, 1, 0, 0, 0, 0];

const SIZE_13: [u8; 16] = [0, 0x20, 0, 0, 0, 0, 0, 0, 13, 0, 0, 1, 0, 0, 0, 0];

pub(crate) const SIZE_14: [u8; 16] = [0, 0x20, 0, 0, 0, 0, 0, 0, 14, 0, 0, 1, 0, 0, 0, 0];

const SIZE_60: [u8; 16] = [0, 0x20, 0, 0, 0, 0, 0, 0, 60, 0, 0, 1, 0, 0, 0, 0];

const SIZE_1514: [u8; 16] = [0, 0x20, 0, 0, 0, 0, 0, 0, 0xea, 5, 0, 1, 0, 0, 0, 0];

const SIZE_1515: [u8; 16] = [0, 0x20, 0, 0, 0, 0, 0, 0, 0xeb, 5, 0, 1, 0, 0, 0, 0];

const SIZE_3000: [u8; 16] = [
    0xf0, 0xff, 0xff, 0xff, 0xff, 0xff, 0xff, 0xff, 0xb8, 0x0b, 0, 1, 0, 0, 0, 0,
];

const EXTENDED: [u8; 16] = [0, 0x20, 0, 0, 0, 0, 0, 0, 60, 0, 0, 0x29, 0, 0, 0, 0];

const REPORT: [u8; 16] = [0, 0x20, 0, 0, 0, 0, 0, 0, 0, 0, 0, 8, 0, 0, 0, 0];

/// A frame of 16 bytes, and descriptors that ask for its checksum.
const SIXTEEN: [u8; 16] = [0, 0, 0, 0, 0, 0, 0, 0, 0, 0, 0, 0, 0, 0, 0x12, 0x34];

const SUM_AT_END: [u8; 16] = [0, 0x20, 0, 0, 0, 0, 0, 0, 16, 0, 14, 5, 0, 14, 0, 0];

const SUM_PAST_END: [u8; 16] = [0, 0x20, 0, 0, 0, 0, 0, 0, 16, 0, 15, 5, 0, 14, 0, 0];

const SUM_OF_NONE: [u8; 16] = [0, 0x20, 0, 0, 0, 0, 0, 0, 16, 0, 14, 5, 0, 16, 0, 0];

const SUM_OF_ONE: [u8; 16] = [0, 0x20, 0, 0, 0, 0, 0, 0, 16, 0, 14, 5, 0, 15, 0, 0];

/// A receive descriptor of a buffer at 0x4000.
const BUFFER: [u8; 16] = [0, 0x40, 0, 0, 0, 0, 0, 0, 9, 9, 9, 9, 0xff, 9, 9, 9];

/// Other lengths than four, offsets without a register, and those beyond 32 bits.
const ACCESSES: [(Given, &str); 8] = [
    (Read(8, 4), "is 01000000"),
    (Read(8, 3), "is 000000"),
    (Read(10, 4), "is 00000000"),
    (Read(0x1_0000_0008, 4), "is 00000000"),
    (Write(0x1_0000_0000, 0x40), "done"),
    (Read(8, 4), "is 01000000"),
    (Write(0, 0x40), "done"),
    (Read(8, 4), "is 03000000"),
];

/// The line is told where it changes, once; causes that aren't kept do nothing.
const LINE: [(Given, &str); 9] = [
    (Write(0xd0, 0xffff_ffff), "done"),
    (Read(0xd0, 4), "is d7000000"),
    (Write(0xc8, 0x28), "done"),
    (Write(0xc8, 4), "done, high"),
    (Write(0xc8, 0x10), "done"),
    (Write(0xc0, 4), "done"),
    (Write(0xd8, 0x10), "done, low"),
    (Write(0xd0, 0x10), "done, high"),
    (Read(0xc0, 4), "is 10000000, low"),
];

/// A frame of two descriptors, the second reported; completions that aren't awaited, or of another length.
const TWO_PARTS: [(Given, &str); 13] = [
    (Write(0x3818, 2), "done, read 0 0x1000 16"),
    (Zeros(0, 15), ""),
    (Bytes(0, &TEN), "read 1 0x2000 10"),
    (Zeros(7, 10), ""),
    (Zeros(1, 9), ""),
    (Done(1), ""),
    (Zeros(1, 10), "read 2 0x1010 16"),
    (Bytes(2, &FOUR_END), "read 3 0x3000 4"),
    (
        Zeros(3, 4),
        "frame 0000000000000000000000000000, write 4 0x101c f1, tx 14",
    ),
    (Read(0x3810, 4), "is 01000000"),
    (Done(4), ""),
    (Read(0x3810, 4), "is 02000000"),
    (Read(0xc0, 4), "is 03000000"),
];

/// Frames that are too short or too long, a buffer past 2^64 that is read in two pieces; none is reported.
const SIZES: [(Given, &str); 12] = [
    (Write(0x3818, 5), "done, read 0 0x1000 16"),
    (Bytes(0, &SIZE_13), "read 1 0x2000 13"),
    (Zeros(1, 13), "read 2 0x1010 16, drop size"),
    (Bytes(2, &SIZE_1514), "read 3 0x2000 1514"),
    (Zeros(3, 1514), "frame 1514, read 4 0x1020 16, tx 1514"),
    (Bytes(4, &SIZE_1515), "read 5 0x2000 1515"),
    (Zeros(5, 1515), "read 6 0x1030 16, drop size"),
    (Bytes(6, &SIZE_0), "read 7 0x1040 16, drop size"),
    (Bytes(7, &SIZE_3000), "read 8 0xfffffffffffffff0 2048"),
    (Zeros(8, 2048), "read 9 0x7f0 952"),
    (Zeros(9, 952), "drop size"),
    (Read(0xc0, 4), "is 02000000"),
];

/// Frames of 14 and 60 bytes with PSP, and a descriptor with DEXT.
const PADDING: [(Given, &str); 7] = [
    (Write(0x400, 0xa), "done"),
    (Write(0x3818, 3), "done, read 0 0x1000 16"),
    (Bytes(0, &SIZE_14), "read 1 0x2000 14"),
    (Zeros(1, 14), "frame 60, read 2 0x1010 16, tx 60"),
    (Bytes(2, &SIZE_60), "read 3 0x2000 60"),
    (Zeros(3, 60), "frame 60, read 4 0x1020 16, tx 60"),
    (Bytes(4, &EXTENDED), "skip dext"),
];

/// The checksum at the frame's end, past it, of no byte, and of one.
const CHECKSUMS: [(Given, &str); 9] = [
    (Write(0x3818, 4), "done, read 0 0x1000 16"),
    (Bytes(0, &SUM_AT_END), "read 1 0x2000 16"),
    (
        Bytes(1, &SIXTEEN),
        "frame 0000000000000000000000000000edcb, read 2 0x1010 16, tx 16",
    ),
    (Bytes(2, &SUM_PAST_END), "read 3 0x2000 16"),
    (
        Bytes(3, &SIXTEEN),
        "frame 00000000000000000000000000001234, read 4 0x1020 16, tx 16",
    ),
    (Bytes(4, &SUM_OF_NONE), "read 5 0x2000 16"),
    (
        Bytes(5, &SIXTEEN),
        "frame 00000000000000000000000000001234, read 6 0x1030 16, tx 16",
    ),
    (Bytes(6, &SUM_OF_ONE), "read 7 0x2000 16"),
    (
        Bytes(7, &SIXTEEN),
        "frame 0000000000000000000000000000cbff, tx 16",
    ),
];

/// A reset while a frame is in work; what was asked for before comes late.
const RESET_OF_SENDING: [(Given, &str); 11] = [
    (Write(0x3818, 2), "done, read 0 0x1000 16"),
    (Bytes(0, &TEN), "read 1 0x2000 10"),
    (Zeros(1, 10), "read 2 0x1010 16"),
    (Write(0, 0x0400_0000), "done"),
    (Bytes(2, &SIZE_14), ""),
    (Write(0, 0x40), "done"),
    (Write(0x400, 2), "done"),
    (Write(0x3808, 0x80), "done"),
    (Write(0x3818, 1), "done, read 3 0x0 16"),
    (Bytes(3, &SIZE_14), "read 4 0x2000 14"),
    (Zeros(4, 14), "frame 0000000000000000000000000000, tx 14"),
];

/// A reset in each of the other states of both engines; each completion is late.
const RESETS: [(Given, &str); 28] = [
    (Write(0x3818, 1), "done, read 0 0x1000 16"),
    (Bytes(0, &TEN), "read 1 0x2000 10"),
    (Write(0, 0x0400_0000), "done"),
    (Zeros(1, 10), ""),
    (Write(0, 0x40), "done"),
    (Write(0x400, 2), "done"),
    (Write(0x3808, 0x80), "done"),
    (Write(0x3818, 1), "done, read 2 0x0 16"),
    (Bytes(2, &REPORT), "write 3 0xc 01"),
    (Write(0, 0x0400_0000), "done"),
    (Done(3), ""),
    (Read(0xc0, 4), "is 00000000"),
    (Write(0, 0x40), "done"),
    (Write(0x100, 2), "done"),
    (Write(0x2808, 0x80), "done"),
    (Write(0x2818, 1), "done"),
    (Frames(OWN, 60, 1), "read 4 0x0 16"),
    (Write(0, 0x0400_0000), "done"),
    (Bytes(4, &BUFFER), ""),
    (Write(0, 0x40), "done"),
    (Write(0x100, 2), "done"),
    (Write(0x2808, 0x80), "done"),
    (Write(0x2818, 1), "done"),
    (Frames(OWN, 60, 1), "read 5 0x0 16"),
    (Bytes(5, &BUFFER), "write 6 0x4000 60"),
    (Done(6), "write 7 0x0 00400000000000003c000a0203000000"),
    (Write(0, 0x0400_0000), "done"),
    (Done(7), ""),
];

/// The second descriptor of a ring that begins 16 bytes before 2^64; sending is still off.
const FAR: [(u64, u32); 6] = [
    (0, 0x40),
    (0x3800, 0xffff_fff0),
    (0x3804, 0xffff_ffff),
    (0x3808, 0x80),
    (0x3810, 1),
    (0x3818, 2),
];

const PAST_THE_END: [(Given, &str); 2] = [
    (Write(0x400, 2), "done, read 0 0x0 16"),
    (Bytes(0, &REPORT), "write 1 0xc 01"),
];

/// The last descriptor of a ring and the first one.
const WRAPPED: [(u64, u32); 5] = [
    (0, 0x40),
    (0x3800, 0x1000),
    (0x3808, 0x80),
    (0x3810, 7),
    (0x3818, 1),
];

/// The length set to 0 and another base written while a descriptor is in work, and tail and head out of range.
const RINGS: [(Given, &str); 12] = [
    (Write(0x400, 2), "done, read 0 0x1070 16"),
    (Bytes(0, &EXTENDED), "read 1 0x1000 16, skip dext"),
    (Write(0x3808, 0), "done"),
    (Bytes(1, &EXTENDED), "skip dext"),
    (Read(0x3810, 4), "is 00000000"),
    (Write(0x3808, 0x80), "done, read 2 0x1000 16"),
    (Write(0x3800, 0x8000), "done"),
    (Bytes(2, &REPORT), "write 3 0x100c 01"),
    (Done(3), ""),
    (Read(0xc0, 4), "is 03000000"),
    (Write(0x3818, 8), "done"),
    (Write(0x3810, 8), "done"),
];

/// A frame over three buffers of 256 bytes: each descriptor is written back after its bytes, EOP is in the last one.
const THREE_PARTS: [(Given, &str); 13] = [
    (Write(0x2818, 4), "done"),
    (Frames(OWN, 600, 1), "read 0 0x1000 16"),
    (Bytes(0, &BUFFER), "write 1 0x4000 256"),
    (Done(1), "write 2 0x1000 004000000000000000010a0201000000"),
    (Done(1), ""),
    (Done(2), "read 3 0x1010 16"),
    (Bytes(3, &BUFFER), "write 4 0x4000 256"),
    (Done(4), "write 5 0x1010 004000000000000000010a0201000000"),
    (Done(5), "read 6 0x1020 16"),
    (Bytes(6, &BUFFER), "write 7 0x4000 88"),
    (Done(7), "write 8 0x1020 004000000000000058000a0203000000"),
    (Done(8), "high, rx 600"),
    (Read(0xc0, 4), "is 80000000, low"),
];

/// A frame waits while the ring has no length, or its head or tail is past its end; completions of 15 bytes, and of a read
/// that isn't outstanding, in the place of the descriptor.
const UNREADY: [(Given, &str); 11] = [
    (Write(0x2808, 0), "done"),
    (Write(0x2818, 1), "done"),
    (Frames(OWN, 60, 1), ""),
    (Write(0x2818, 8), "done"),
    (Write(0x2808, 0x80), "done"),
    (Write(0x2810, 8), "done"),
    (Write(0x2818, 1), "done"),
    (Write(0x2810, 0), "done, read 0 0x1000 16"),
    (Zeros(0, 15), ""),
    (Zeros(1, 16), ""),
    (Bytes(0, &BUFFER), "write 1 0x4000 60"),
];

/// A reset while a part is written, its completion late; then a buffer of 16,384 bytes.
const RESET_OF_RECEIVING: [(Given, &str); 12] = [
    (Write(0x100, 0x10002), "done"),
    (Write(0x2818, 4), "done"),
    (Frames(OWN, 1514, 2), "read 0 0x1000 16"),
    (Bytes(0, &BUFFER), "write 1 0x4000 1024"),
    (Write(0, 0x0400_0000), "done"),
    (Done(1), ""),
    (Write(0, 0x40), "done"),
    (Write(0x100, 0x0201_0002), "done"),
    (Write(0x2808, 0x80), "done"),
    (Write(0x2818, 1), "done"),
    (Frames(OWN, 1514, 1), "read 2 0x0 16"),
    (Bytes(2, &BUFFER), "write 3 0x4000 1514"),
];

/// The filter by RAL and RAH 15, BAM, MPE and UPE, and receiving that is off.
const FILTER: [(Given, &str); 16] = [
    (Frames(OWN, 60, 1), ""),
    (Frames(OTHER, 60, 1), "drop filter"),
    (Write(0x5478, 2), "done"),
    (Write(0x547c, 0x0b00), "done"),
    (Frames(OTHER, 60, 1), "drop filter"),
    (Write(0x547c, 0x8000_0b00), "done"),
    (Frames(OTHER, 60, 1), ""),
    (Frames(BROADCAST, 60, 1), "drop filter"),
    (Write(0x100, 0x8002), "done"),
    (Frames(BROADCAST, 60, 1), ""),
    (Frames(GROUP, 60, 1), "drop filter"),
    (Write(0x100, 0x12), "done"),
    (Frames(GROUP, 60, 1), ""),
    (Write(0x100, 0xa), "done"),
    (Frames(GROUP, 60, 1), "drop filter"),
    (Write(0, 0), "done"),
];

/// 64 frames wait; the next ones are dropped, and the line is told once.
const FULL: [(Given, &str); 4] = [
    (Frames(OWN, 60, 64), ""),
    (Frames(OWN, 60, 1), "high, drop fifo"),
    (Frames(OWN, 60, 1), "drop fifo"),
    (Write(0x2818, 1), "done, read 0 0x1000 16"),
];

const OFF: [(Given, &str); 1] = [(Frames(OWN, 60, 1), "drop off")];

pub(crate) const CASES: [Case; 16] = [
    Case {
        registers: &SENDS,
        steps: &RESETS,
    },
    Case {
        registers: &[],
        steps: &ACCESSES,
    },
    Case {
        registers: &[],
        steps: &LINE,
    },
    Case {
        registers: &SENDS,
        steps: &TWO_PARTS,
    },
    Case {
        registers: &SENDS,
        steps: &SIZES,
    },
    Case {
        registers: &SENDS,
        steps: &PADDING,
    },
    Case {
        registers: &SENDS,
        steps: &CHECKSUMS,
    },
    Case {
        registers: &SENDS,
        steps: &RESET_OF_SENDING,
    },
    Case {
        registers: &FAR,
        steps: &PAST_THE_END,
    },
    Case {
        registers: &WRAPPED,
        steps: &RINGS,
    },
    Case {
        registers: &RECEIVES,
        steps: &THREE_PARTS,
    },
    Case {
        registers: &RECEIVES,
        steps: &UNREADY,
    },
    Case {
        registers: &RECEIVES,
        steps: &RESET_OF_RECEIVING,
    },
    Case {
        registers: &RECEIVES,
        steps: &FILTER,
    },
    Case {
        registers: &RECEIVES,
        steps: &FULL,
    },
    Case {
        registers: &[],
        steps: &OFF,
    },
];
