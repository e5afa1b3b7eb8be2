//! The limits of what is simulated. Times are in picoseconds, lengths in bytes.

/// The most components of a system.
pub const MOST_COMPONENTS: usize = 64;

/// The most ports of a component.
pub const MOST_PORTS: usize = 32;

/// The most links of a system.
pub const MOST_LINKS: usize = 1024;

/// The most messages that a queue of a link holds.
pub const MOST_SLOTS: u32 = 1024;

/// The latest end of a run.
pub const LATEST_END: u64 = 1_000_000_000_000_000;

/// The longest latency of a link.
pub const LONGEST_LATENCY: u64 = 1_000_000_000_000;

/// The longest name of a component.
pub const LONGEST_NAME: usize = 16;

/// The most frames that a beacon sends.
pub const MOST_FRAMES: u64 = 1_000_000_000;

/// The shortest Ethernet frame, without its check sequence.
pub const SHORTEST_FRAME: usize = 14;

/// The longest Ethernet frame, without its check sequence.
pub const LONGEST_FRAME: usize = 1514;

/// The longest payload of a message.
pub const LONGEST_PAYLOAD: usize = 2048;

/// The most bytes of a memory device.
pub const MOST_MEMORY: u64 = 16_777_216;

/// The least bytes of a host's RAM.
pub const LEAST_RAM: u64 = 65_536;

/// The most bytes of a host's RAM.
pub const MOST_RAM: u64 = 16_777_216;

/// The longest time from instruction to instruction of a host.
pub const LONGEST_CYCLE: u64 = 1_000_000_000;

/// The longest name of an image's file.
pub const LONGEST_FILE_NAME: usize = 255;

/// The longest file of the system that is read.
pub const LONGEST_FILE: u64 = 33_554_432;
