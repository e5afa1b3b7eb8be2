//! Files and streams of the system. They tell nothing, and nothing is assumed of them.
ghost use Rattle.std.specs.Prelude.{◌≡◌, None};

use crate::files::{FileBad, Files};
use crate::items::{Items, Octets};
use crate::limits::LONGEST_FILE;
use crate::mem_files::one_more;
use crate::no_memory::Failed;
use crate::sink::Sink;
use std::alloc::Global;
use std::io::{ErrorKind, Read, Write};
use std::{fs, io};

/// The files of the system. A file of more than 33,554,432 bytes counts as a fault.
#[derive(Drop)]
pub struct RealFiles<'a, R> {
    runtime: &'a R,
    faults: u64,
}

impl<'a, R: std::rt::Files> RealFiles<'a, R> {
    pub fn new(runtime: &'a R) -> RealFiles<'a, R> {
        RealFiles { runtime, faults: 0 }
    }
}

/// At most one byte more than the longest file has, from the beginning of a file.
fn read_start<R: std::rt::Files>(runtime: &R, alloc: Global, name: &str) -> io::Result<Vec<u8>> {
    let mut bytes = Vec::new(alloc);
    let file = fs::open(runtime, name)?;
    file.take(LONGEST_FILE + 1).read_to_end(&mut bytes)?;
    Ok(bytes)
}

impl<R: std::rt::Files> Files for RealFiles<'_, R> {
    ghost seen = { λ f. record { held = λ _. None; asked = None; faults = f.faults } };

    fn faults(&self) -> u64 {
        self.faults
    }

    fn read(&mut self, alloc: Global, name: &str) -> Result<Octets, FileBad> {
        match read_start(self.runtime, alloc, name) {
            Ok(bytes) if bytes.len() as u64 <= LONGEST_FILE => return Ok(Items::from_vec(bytes)),
            Err(error) if error.kind() == ErrorKind::OutOfMemory => return Err(FileBad::NoMemory),
            Ok(_) | Err(_) => {}
        }
        self.faults = one_more(self.faults);
        Err(FileBad::Failed)
    }
}

/// A stream of the system.
#[derive(Drop)]
pub struct RealSink<W> {
    stream: W,
    faults: u64,
}

impl<W: Write> RealSink<W> {
    pub fn new(stream: W) -> RealSink<W> {
        RealSink { stream, faults: 0 }
    }
}

impl<W: Write> Sink for RealSink<W> {
    ghost seen = { λ s. record { written = None; faults = s.faults } };

    fn faults(&self) -> u64 {
        self.faults
    }

    fn write(&mut self, bytes: &[u8]) -> Result<usize, Failed> {
        match self.stream.write(bytes) {
            Ok(taken) if taken > 0 => Ok(taken),
            Ok(_) | Err(_) => {
                self.faults = one_more(self.faults);
                Err(Failed)
            }
        }
    }
}
