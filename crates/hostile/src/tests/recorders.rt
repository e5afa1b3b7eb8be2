//! Files and dialers that tell a test what they were asked for.
use cs_base::{DialBad, Dialer, FileBad, Files, Items, MemFiles, Octets};
use std::alloc::Global;

/// Files in memory, and the names that they were asked for, each with a line feed.
#[derive(Debug, Drop)]
pub(super) struct Reads {
    files: MemFiles,
    asked: Octets,
}

impl Reads {
    /// These files, of which none was asked for yet.
    pub(super) fn new(alloc: Global, files: MemFiles) -> Reads {
        Reads {
            files,
            asked: Octets::new(alloc),
        }
    }

    /// The names that were asked for, each with a line feed.
    pub(super) fn asked(&self) -> &[u8] {
        self.asked.as_slice()
    }
}

impl Files for Reads {
    ghost use Rattle.cs_base.specs.MemForms.{files_seen};

    ghost seen = { λ reads. files_seen reads.files };

    fn faults(&self) -> u64 {
        self.files.faults()
    }

    fn read(&mut self, alloc: Global, name: &str) -> Result<Octets, FileBad> {
        self.asked.append(name.as_bytes())?;
        self.asked.push(b'\n')?;
        self.files.read(alloc, name)
    }
}

/// A dialer, and the channels that it was to dial.
#[derive(Drop)]
pub(super) struct Dials<D> {
    dialer: D,
    dialed: Items<u32>,
}

impl<D> Dials<D> {
    /// This dialer, which has dialed no channel yet.
    pub(super) fn new(alloc: Global, dialer: D) -> Dials<D> {
        Dials {
            dialer,
            dialed: Items::new(alloc),
        }
    }

    /// The channels that were to be dialed.
    pub(super) fn dialed(&self) -> &[u32] {
        self.dialed.as_slice()
    }
}

impl<D: Dialer> Dialer for Dials<D> {
    type Out = D::Out;

    type In = D::In;

    ghost seen = { λ dials. D.seen dials.dialer };

    fn faults(&self) -> u64 {
        self.dialer.faults()
    }

    fn dial(&mut self, alloc: Global, channel: u32) -> Result<(D::Out, D::In), DialBad> {
        self.dialed.push(channel)?;
        self.dialer.dial(alloc, channel)
    }
}
