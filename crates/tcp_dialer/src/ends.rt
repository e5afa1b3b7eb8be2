ghost use Rattle.std.specs.Prelude.{◌≡◌, None, false};
ghost use Rattle.cs_base.specs.Outside.{one_more};

use cs_base::no_memory::Failed;
use cs_base::wires::{Got, Sent, WireIn, WireOut};
use std::alloc::Global;
use std::io::{ErrorKind, Read, Write};
use std::net::TcpStream;
use std::sync::Arc;
use std::sync::atomic::{AtomicU64, Ordering};

/// How many bytes the sending end has handed to its connection, modulo 2^64.
pub(crate) type Handed = Arc<AtomicU64, Global>;

/// Where nothing was handed over, the receiving end asks its connection at each so many calls alone, whether it has ended.
const ASKS_EACH: u64 = 64;

/// One more, but never past the last value of a counter.
pub(crate) fn one_more(count: u64) -> u64
    ensures { result ≡ one_more count }
{
    count.saturating_add(1)
}

/// Whether a call can be made again later.
fn is_pause(kind: ErrorKind) -> bool {
    kind == ErrorKind::WouldBlock || kind == ErrorKind::Interrupted
}

/// The sending end of a connection.
#[derive(Drop)]
pub struct TcpOut {
    stream: TcpStream,
    handed: Handed,
    faults: u64,
    idles: u64,
}

impl TcpOut {
    pub(crate) fn new(stream: TcpStream, handed: Handed) -> TcpOut
        ensures faults { result.faults ≡ 0 }
        ensures idles { result.idles ≡ 0 }
    {
        TcpOut {
            stream,
            handed,
            faults: 0,
            idles: 0,
        }
    }
}

impl WireOut for TcpOut {
    ghost seen = { λ w. record { taken = None; faults = w.faults; idles = w.idles } };

    fn faults(&self) -> u64 {
        self.faults
    }

    fn idles(&self) -> u64 {
        self.idles
    }

    fn send(&mut self, bytes: &[u8]) -> Result<Sent, Failed> {
        match self.stream.write(bytes) {
            Ok(count) if count > 0 => {
                self.handed.fetch_add(count as u64, Ordering::SeqCst);
                return Ok(Sent::Took(count));
            }
            Err(error) if is_pause(error.kind()) => {
                self.idles = one_more(self.idles);
                return Ok(Sent::NotYet);
            }
            Ok(_) | Err(_) => {}
        }
        self.faults = one_more(self.faults);
        Err(Failed)
    }
}

/// The receiving end of a connection. It knows how much the sending end has handed over, so that it seldom asks where nothing
/// can come.
#[derive(Drop)]
pub struct TcpIn {
    stream: TcpStream,
    handed: Handed,
    taken: u64,
    faults: u64,
    idles: u64,
    ended: bool,
}

impl TcpIn {
    pub(crate) fn new(stream: TcpStream, handed: Handed) -> TcpIn
        ensures faults { result.faults ≡ 0 }
        ensures idles { result.idles ≡ 0 }
        ensures ended { result.ended ≡ false }
    {
        TcpIn {
            stream,
            handed,
            taken: 0,
            faults: 0,
            idles: 0,
            ended: false,
        }
    }

    /// Whether the connection needn't be asked: all that was handed to it was taken out.
    fn is_empty(&self) -> bool {
        self.taken == self.handed.load(Ordering::SeqCst) && self.idles % ASKS_EACH != 0
    }
}

impl WireIn for TcpIn {
    ghost seen = { λ w. record { given = None; faults = w.faults; idles = w.idles; ended = w.ended } };

    fn faults(&self) -> u64 {
        self.faults
    }

    fn idles(&self) -> u64 {
        self.idles
    }

    fn ended(&self) -> bool {
        self.ended
    }

    fn recv(&mut self, buffer: &mut [u8]) -> Result<Got, Failed> {
        if self.ended {
            return Ok(Got::End);
        }
        if self.is_empty() {
            self.idles = one_more(self.idles);
            return Ok(Got::NotYet);
        }
        match self.stream.read(buffer) {
            Ok(0) => {
                self.ended = true;
                return Ok(Got::End);
            }
            Ok(count) => {
                self.taken = self.taken.wrapping_add(count as u64);
                return Ok(Got::Took(count));
            }
            Err(error) if is_pause(error.kind()) => {
                self.idles = one_more(self.idles);
                return Ok(Got::NotYet);
            }
            Err(_) => {}
        }
        self.faults = one_more(self.faults);
        Err(Failed)
    }
}
