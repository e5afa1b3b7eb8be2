ghost use Rattle.std.specs.Prelude.{◌≡◌, None};

use crate::ends::{Handed, TcpIn, TcpOut, one_more};
use cs_base::{DialBad, Dialer, NoMemory};
use std::alloc::Global;
use std::io;
use std::io::ErrorKind;
use std::net::{Ipv4Addr, Net, TcpListener, TcpStream};
use std::sync::Arc;
use std::sync::atomic::AtomicU64;

/// Makes one connection a channel, over the loopback address of this machine. No end of it waits.
#[derive(Drop)]
pub struct TcpDialer<'a, R> {
    net: &'a R,
    faults: u64,
}

impl<'a, R> TcpDialer<'a, R> {
    /// A dialer that has dialed nothing.
    pub fn new(net: &'a R) -> TcpDialer<'a, R>
        ensures { result.faults ≡ 0 }
    {
        TcpDialer { net, faults: 0 }
    }
}

/// A count for both ends of a connection.
fn shared_count(alloc: Global) -> Result<(Handed, Handed), NoMemory> {
    let handed = Arc::new(alloc, AtomicU64::new(0))?;
    let same = Arc::try_clone(&handed)?;
    Ok((handed, same))
}

/// A connection of this process with itself: the end that sends, and the one that receives.
fn connect<R: Net<Listener = TcpListener, Stream = TcpStream>>(
    net: &R,
) -> io::Result<(TcpStream, TcpStream)> {
    let listener = TcpListener::bind(net, (Ipv4Addr::LOCALHOST, 0))?;
    let out = TcpStream::connect(net, listener.local_addr()?)?;
    let (wire, peer) = listener.accept()?;
    if peer != out.local_addr()? {
        return Err(io::Error::from(ErrorKind::ConnectionRefused));
    }
    out.set_nodelay(true)?;
    out.set_nonblocking(true)?;
    wire.set_nonblocking(true)?;
    Ok((out, wire))
}

impl<R: Net<Listener = TcpListener, Stream = TcpStream>> Dialer for TcpDialer<'_, R> {
    type Out = TcpOut;

    type In = TcpIn;

    ghost seen = { λ d. record { dialed = None; faults = d.faults } };

    fn faults(&self) -> u64 {
        self.faults
    }

    fn dial(&mut self, alloc: Global, _channel: u32) -> Result<(TcpOut, TcpIn), DialBad> {
        let (handed, same) = shared_count(alloc)?;
        match connect(self.net) {
            Ok((out, wire)) => Ok((TcpOut::new(out, handed), TcpIn::new(wire, same))),
            Err(_) => {
                self.faults = one_more(self.faults);
                Err(DialBad::Failed)
            }
        }
    }
}
