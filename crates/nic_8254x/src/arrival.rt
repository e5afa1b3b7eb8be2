ghost use Rattle.std.specs.Prelude.{◌≡◌, ◌≤◌, ◌++◌, length, slice_range, OnOk};
ghost use Rattle.nic_8254x.specs.Arrival.{arrives};

use crate::nic::Nic;
use cs_base::{Mac, NoMemory};
use device_api::Effects;
use eth_proto::EthMsg;

/// Frames that can wait.
pub(crate) const PLACES: usize = 64;

/// ICR.RXO, receiver overrun.
const RXO: u32 = 1 << 6;

/// The address that a frame begins with.
fn destination(frame: &[u8]) -> Mac
    requires { 6 ≤ length frame.now }
    ensures { result ≡ slice_range frame.now 0 6 }
{
    Mac([frame[0], frame[1], frame[2], frame[3], frame[4], frame[5]])
}

impl Nic {
    /// A frame arrives: it is dropped, or it waits.
    #[tactic(auto, unfolding(crate::specs::Arrival::arrives))]
    pub(crate) fn arrive(&mut self, frame: EthMsg, out: &mut Effects) -> Result<(), NoMemory>
        ensures state { OnOk result (self.new ≡ (arrives self.old frame).state) }
        ensures sends { OnOk result (out.new.sends
            ≡ out.old.sends ++ (arrives self.old frame).sends) }
        ensures lines { OnOk result (out.new.lines
            ≡ out.old.lines ++ (arrives self.old frame).lines) }
    {
        if !self.regs.rx_on() {
            return out.line(b"drop off");
        }
        if !self.regs.accepts(destination(frame.frame())) {
            return out.line(b"drop filter");
        }
        if self.queue.len() >= PLACES {
            self.regs.raise(RXO);
            return out.line(b"drop fifo");
        }
        self.queue.push(frame)
    }
}
