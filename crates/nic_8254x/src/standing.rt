//! Whether an adapter may stand as it does: what is tested of parts before they are an adapter again.

ghost use Rattle.std.specs.Prelude.{◌≡◌, ◌↔◌, All, IsTrue};
ghost use Rattle.eth_proto.specs.Frame.{IsFrame};
ghost use Rattle.nic_regs.specs.Registers.{Registers};
ghost use Rattle.nic_8254x.specs.Receiving.{first};
ghost use Rattle.nic_8254x.specs.Sound.{rx_id, tx_id, AreIds};
ghost use Rattle.nic_8254x.specs.Valid.{IsAdapter, IsPart, IsRxStep, IsTxStep};
ghost use Rattle.nic_8254x.specs.Parts.{Stands, standing};

use crate::arrival::PLACES;
use crate::parts::NicParts;
use crate::state::{RxStep, TxStep};
use cs_base::Octets;
use nic_regs::Regs;
use nic_rings::TxDesc;

/// The lengths of frames, and the most bytes of a receive buffer.
const SHORTEST: usize = 14;

const LONGEST: usize = 1514;

const BUFFER: u32 = 16384;

fn is_frame(bytes: &Octets) -> bool
    ensures { IsTrue result ↔ IsFrame bytes.now }
{
    SHORTEST <= bytes.len() && bytes.len() <= LONGEST
}

fn are_frames(frames: &[Octets]) -> bool
    ensures { IsTrue result ↔ All IsFrame frames.now }
{
    frames.iter().all(|frame| is_frame(frame))
}

/// The first frame that waits; no bytes where none waits.
fn first(frames: &[Octets]) -> &[u8]
    ensures { result.now ≡ first frames.now }
{
    match frames.first() {
        Some(frame) => frame.as_slice(),
        None => &[],
    }
}

fn is_part(frame: &[u8], from: u32, part: u32) -> bool
    ensures { IsTrue result ↔ IsPart frame.now from part }
{
    let end = u64::from(from) + u64::from(part);
    1 <= part && part <= BUFFER && end <= frame.len() as u64
}

fn is_rx_step(frame: &[u8], from: u32, step: RxStep) -> bool
    ensures { IsTrue result ↔ IsRxStep frame.now from step }
{
    match step {
        RxStep::Idle => true,
        RxStep::Read { .. } => (from as usize) < frame.len(),
        RxStep::Data { part, done, .. } => is_part(frame, from, part) && done < part,
        RxStep::Back { part, .. } => is_part(frame, from, part),
    }
}

fn is_tx_step(step: TxStep) -> bool
    ensures { IsTrue result ↔ IsTxStep step }
{
    match step {
        TxStep::Data {
            descriptor,
            done,
            ..
        } => done < u32::from(TxDesc::from_bytes(&descriptor).length),
        _ => true,
    }
}

/// Whether the engines fit the frames that wait.
fn are_engines(frames: &[Octets], from: u32, rx: RxStep, tx: TxStep) -> bool
    ensures { IsTrue result ↔ IsAdapter frames.now from rx tx }
{
    let frame = first(frames);
    (from == 0 || (from as usize) < frame.len()) && is_rx_step(frame, from, rx) && is_tx_step(tx)
}

fn rx_id(step: RxStep) -> Option<u64>
    ensures { result ≡ rx_id step }
{
    match step {
        RxStep::Idle => None,
        RxStep::Read { id, .. } => Some(id),
        RxStep::Data { id, .. } => Some(id),
        RxStep::Back { id, .. } => Some(id),
    }
}

fn tx_id(step: TxStep) -> Option<u64>
    ensures { result ≡ tx_id step }
{
    match step {
        TxStep::Idle => None,
        TxStep::Read { id, .. } => Some(id),
        TxStep::Data { id, .. } => Some(id),
        TxStep::Back { id } => Some(id),
    }
}

/// Whether ids were given, to each engine its own.
fn are_ids(next_id: u64, receiving: Option<u64>, sending: Option<u64>) -> bool
    ensures { IsTrue result ↔ AreIds next_id receiving sending }
{
    match (receiving, sending) {
        (Some(id), Some(other)) => id < next_id && other < next_id && id != other,
        (Some(id), None) => id < next_id,
        (None, Some(other)) => other < next_id,
        (None, None) => true,
    }
}

impl NicParts {
    /// Whether an adapter with these registers may stand so before and after each event.
    pub(crate) fn stands(&self, regs: &Regs) -> bool
        ensures { IsTrue result ↔ Stands (standing regs.now self.now) }
    {
        let frames = self.queue.as_slice();
        frames.len() <= PLACES
            && are_frames(frames)
            && are_engines(frames, self.from, self.rx, self.tx)
            && are_ids(self.next_id, rx_id(self.rx), tx_id(self.tx))
            && self.told == regs.line()
    }
}
