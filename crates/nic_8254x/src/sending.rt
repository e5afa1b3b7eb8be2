//! The transmit engine: frames are read from the buffers of the host, one descriptor after another, and sent.

ghost use Rattle.std.specs.Prelude.{◌≡◌, ◌≤◌, ◌<◌, ◌+◌, ◌++◌, ◌^◌, ◌==◌, ◌&&◌, [], length, not, IfOk, OnOk, IsTrue};
ghost use Rattle.nic_8254x.specs.State.{has_id};
ghost use Rattle.nic_8254x.specs.Sending.{advances, completes, drops_frame, finishes, frame_of, goes_on, has_descriptor, is_end, is_extended, may_send, needs_id, padded, piece_read, reads_descriptor, reads_piece, reports, reports_or_advances, sends_frame, sends_on, skips, with_next_tx, writes_back, tx_read_done, tx_write_done};
ghost use Rattle.nic_8254x.specs.Receiving.{piece};
ghost use Rattle.nic_8254x.specs.Checksum.{checksummed};
ghost use Rattle.nic_rings.specs.Descriptors.{tx_desc_of};

use crate::checksum::insert_checksum;
use crate::nic::{ETHERNET, Nic, PCIE};
use crate::state::TxStep;
use access_proto::{Data, Length};
use cs_base::{NoMemory, Octets};
use device_api::{Effects, LineText};
use eth_proto::EthMsg;
use nic_rings::TxDesc;
use pcie_proto::DevMsg;
use sb_message::Body;
use std::alloc::Global;
use std::mem;

/// Bytes of a descriptor, and the place in it of its status.
const DESCRIPTOR: u32 = 16;

const STATUS: u64 = 12;

/// The most bytes that are moved at once.
const PIECE: u32 = 2048;

/// The bits of CMD: end of packet, report status, descriptor extension.
const EOP: u8 = 1;

const RS: u8 = 1 << 3;

const DEXT: u8 = 1 << 5;

/// The status of a descriptor that is written back: descriptor done.
const DD: u8 = 1;

/// ICR.TXDW, a descriptor was written back; ICR.TXQE, the ring is empty.
const TXDW: u32 = 1;

const TXQE: u32 = 1 << 1;

/// The least length that a frame is padded to.
const PADDED: usize = 60;

/// Whether bytes are as many as were asked for.
fn is_piece(bytes: &[u8], descriptor: &[u8; 16], done: u32) -> bool
    ensures size { result ≡ (length bytes.now == piece (tx_desc_of descriptor.now).length done) }
    ensures fits { IsTrue result → done + length bytes.now < 2 ^ 32 }
{
    let left = u32::from(TxDesc::from_bytes(descriptor).length).saturating_sub(done);
    bytes.len() == PIECE.min(left) as usize
}

impl Nic {
    /// Whether an engine that rests reads the descriptor at the head.
    fn may_send(&self) -> bool
        ensures { result ≡ may_send self.now }
    {
        self.regs.tx_on() && self.regs.tx_ring().free() > 0 && self.has_id()
    }

    fn read_tx_descriptor(&mut self, out: &mut Effects) -> Result<(), NoMemory>
        requires id { IsTrue (has_id self.old) }
        ensures state { OnOk result (self.new ≡ (reads_descriptor self.old).state) }
        ensures sends { OnOk result (out.new.sends
            ≡ out.old.sends ++ (reads_descriptor self.old).sends) }
        ensures lines { OnOk result (out.new.lines
            ≡ out.old.lines ++ (reads_descriptor self.old).lines) }
    {
        let place = self.regs.tx_ring().address();
        let id = self.next_id;
        let len = Length::new(DESCRIPTOR).unwrap();
        out.send(
            PCIE,
            Body::Dev(DevMsg::Read {
                id,
                addr: place,
                len,
            }),
        )?;
        self.sending = TxStep::Read { id, place };
        self.next_id = id + 1;
        Ok(())
    }

    /// An engine that rests reads the descriptor at the head.
    #[tactic(auto, unfolding(crate::specs::Sending::starts_sending))]
    pub(crate) fn start_sending(&mut self, out: &mut Effects) -> Result<(), NoMemory>
        ensures state { OnOk result (self.new ≡ (sends_on self.old self.old.sending).state) }
        ensures sends { OnOk result (out.new.sends
            ≡ out.old.sends ++ (sends_on self.old self.old.sending).sends) }
        ensures lines { OnOk result (out.new.lines
            ≡ out.old.lines ++ (sends_on self.old self.old.sending).lines) }
    {
        match self.sending {
            TxStep::Idle if self.may_send() => self.read_tx_descriptor(out),
            _ => Ok(()),
        }
    }

    /// The head advances, but in a ring that doesn't have it; where it then equals the tail, TXQE is raised.
    fn advance_tx(&mut self)
        ensures { self.new ≡ advances self.old }
    {
        self.sending = TxStep::Idle;
        let ring = self.regs.tx_ring();
        if ring.head >= ring.count() {
            return;
        }
        let head = ring.advance();
        self.regs.set_tx_head(head);
        if head == ring.tail {
            self.regs.raise(TXQE);
        }
    }

    /// A frame of 14 to 1,514 bytes is sent, any other dropped.
    #[tactic(auto, unfolding(crate::specs::Sending::completes))]
    fn complete(
        &mut self,
        alloc: Global,
        descriptor: &TxDesc,
        out: &mut Effects,
    ) -> Result<(), NoMemory>
        ensures state { OnOk result (self.new ≡ (completes self.old descriptor.now).state) }
        ensures sends { OnOk result (out.new.sends
            ≡ out.old.sends ++ (completes self.old descriptor.now).sends) }
        ensures lines { OnOk result (out.new.lines
            ≡ out.old.lines ++ (completes self.old descriptor.now).lines) }
        ensures same_id { OnOk result (self.new.next_id ≡ self.old.next_id) }
    {
        if self.work.len() < 14 || self.work.len() > 1514 {
            self.drop_frame(alloc, out)
        } else {
            self.send_frame(alloc, descriptor, out)
        }
    }

    fn drop_frame(&mut self, alloc: Global, out: &mut Effects) -> Result<(), NoMemory>
        ensures state { OnOk result (self.new ≡ (drops_frame self.old).state) }
        ensures sends { OnOk result (out.new.sends
            ≡ out.old.sends ++ (drops_frame self.old).sends) }
        ensures lines { OnOk result (out.new.lines
            ≡ out.old.lines ++ (drops_frame self.old).lines) }
    {
        self.work = Octets::new(alloc);
        out.line(b"drop size")
    }

    fn send_frame(
        &mut self,
        alloc: Global,
        descriptor: &TxDesc,
        out: &mut Effects,
    ) -> Result<(), NoMemory>
        requires least { 14 ≤ length self.old.work }
        requires most { length self.old.work ≤ 1514 }
        ensures state { OnOk result (self.new ≡ (sends_frame self.old
            (frame_of self.old descriptor.now)).state) }
        ensures sends { OnOk result (out.new.sends
            ≡ out.old.sends ++ (sends_frame self.old (frame_of self.old descriptor.now)).sends) }
        ensures lines { OnOk result (out.new.lines
            ≡ out.old.lines ++ (sends_frame self.old (frame_of self.old descriptor.now)).lines) }
    {
        let work = mem::replace(&mut self.work, Octets::new(alloc));
        let frame = self.frame_of(descriptor, work)?;
        let mut line = LineText::new(alloc);
        line.append(b"tx ")?;
        line.decimal(frame.frame().len() as u64)?;
        out.send(ETHERNET, Body::Eth(frame))?;
        out.line_text(line)
    }

    /// The frame that is sent of what was read: with its checksum, and padded.
    fn frame_of(&self, descriptor: &TxDesc, work: Octets) -> Result<EthMsg, NoMemory>
        requires least { 14 ≤ length work }
        requires most { length work ≤ 1514 }
        ensures { IfOk result (λ frame. frame ≡ padded self.now.regs
            (checksummed descriptor.now work)) }
    {
        let mut frame = work.into_vec();
        insert_checksum(descriptor, frame.as_mut_slice());
        if self.regs.pads() && frame.len() < PADDED {
            frame.resize(PADDED, 0)?;
        }
        Ok(EthMsg::new(Octets::from_vec(frame)).unwrap())
    }

    /// Writes one byte back, the descriptor's status with DD.
    fn write_status(
        &mut self,
        alloc: Global,
        place: u64,
        descriptor: &TxDesc,
        out: &mut Effects,
    ) -> Result<(), NoMemory>
        requires id { IsTrue (has_id self.old) }
        ensures state { OnOk result (self.new ≡ (writes_back self.old place descriptor.now).state) }
        ensures sends { OnOk result (out.new.sends
            ≡ out.old.sends ++ (writes_back self.old place descriptor.now).sends) }
        ensures lines { OnOk result (out.new.lines
            ≡ out.old.lines ++ (writes_back self.old place descriptor.now).lines) }
    {
        let bytes = Octets::from_slice(alloc, &[descriptor.status | DD])?;
        let bytes = Data::new(bytes).unwrap();
        let id = self.next_id;
        let addr = place.wrapping_add(STATUS);
        out.send(PCIE, Body::Dev(DevMsg::Write { id, addr, bytes }))?;
        self.sending = TxStep::Back { id };
        self.next_id = id + 1;
        Ok(())
    }

    /// With RS the descriptor is written back, else the head advances at once.
    fn report(
        &mut self,
        alloc: Global,
        place: u64,
        descriptor: &TxDesc,
        out: &mut Effects,
    ) -> Result<(), NoMemory>
        requires id { IsTrue (reports descriptor.now) → IsTrue (has_id self.old) }
        ensures state { OnOk result (self.new ≡
            (reports_or_advances descriptor.now place self.old).state) }
        ensures sends { OnOk result (out.new.sends
            ≡ out.old.sends ++ (reports_or_advances descriptor.now place self.old).sends) }
        ensures lines { OnOk result (out.new.lines
            ≡ out.old.lines ++ (reports_or_advances descriptor.now place self.old).lines) }
    {
        if descriptor.cmd & RS != 0 {
            self.write_status(alloc, place, descriptor, out)
        } else {
            self.advance_tx();
            Ok(())
        }
    }

    /// The descriptor's bytes are there; with EOP the frame is complete.
    fn finish(
        &mut self,
        alloc: Global,
        place: u64,
        descriptor: &TxDesc,
        out: &mut Effects,
    ) -> Result<(), NoMemory>
        requires id { IsTrue (reports descriptor.now) → IsTrue (has_id self.old) }
        ensures state { OnOk result (self.new ≡ (finishes self.old place descriptor.now).state) }
        ensures sends { OnOk result (out.new.sends
            ≡ out.old.sends ++ (finishes self.old place descriptor.now).sends) }
        ensures lines { OnOk result (out.new.lines
            ≡ out.old.lines ++ (finishes self.old place descriptor.now).lines) }
    {
        if descriptor.cmd & EOP != 0 {
            self.complete(alloc, descriptor, out)?;
        }
        self.report(alloc, place, descriptor, out)
    }

    /// Reads the next piece of the descriptor's buffer.
    fn read_piece(
        &mut self,
        place: u64,
        bytes: &[u8; 16],
        done: u32,
        out: &mut Effects,
    ) -> Result<(), NoMemory>
        requires id { IsTrue (has_id self.old) }
        requires more { done < (tx_desc_of bytes.now).length }
        ensures state { OnOk result (self.new ≡ (reads_piece self.old place bytes.now done).state) }
        ensures sends { OnOk result (out.new.sends
            ≡ out.old.sends ++ (reads_piece self.old place bytes.now done).sends) }
        ensures lines { OnOk result (out.new.lines
            ≡ out.old.lines ++ (reads_piece self.old place bytes.now done).lines) }
    {
        let descriptor = TxDesc::from_bytes(bytes);
        let id = self.next_id;
        let len = Length::new((u32::from(descriptor.length) - done).min(PIECE)).unwrap();
        let addr = descriptor.addr.wrapping_add(u64::from(done));
        out.send(PCIE, Body::Dev(DevMsg::Read { id, addr, len }))?;
        self.sending = TxStep::Data {
            id,
            place,
            descriptor: *bytes,
            done,
        };
        self.next_id = id + 1;
        Ok(())
    }

    /// The next bytes are read, or the descriptor is at its end.
    fn go_on(
        &mut self,
        alloc: Global,
        place: u64,
        bytes: &[u8; 16],
        done: u32,
        out: &mut Effects,
    ) -> Result<(), NoMemory>
        requires id { IsTrue (needs_id (tx_desc_of bytes.now) done) → IsTrue (has_id self.old) }
        ensures state { OnOk result (self.new ≡ (goes_on self.old place bytes.now done).state) }
        ensures sends { OnOk result (out.new.sends
            ≡ out.old.sends ++ (goes_on self.old place bytes.now done).sends) }
        ensures lines { OnOk result (out.new.lines
            ≡ out.old.lines ++ (goes_on self.old place bytes.now done).lines) }
    {
        let descriptor = TxDesc::from_bytes(bytes);
        if done < u32::from(descriptor.length) {
            self.read_piece(place, bytes, done, out)
        } else {
            self.finish(alloc, place, &descriptor, out)
        }
    }

    fn lacks_id(&self, descriptor: &TxDesc, done: u32) -> bool
        ensures { result ≡ (needs_id descriptor.now done && not (has_id self.now)) }
    {
        (done < u32::from(descriptor.length) || descriptor.cmd & RS != 0) && !self.has_id()
    }

    fn skip(&mut self, out: &mut Effects) -> Result<(), NoMemory>
        ensures state { OnOk result (self.new ≡ (skips self.old).state) }
        ensures sends { OnOk result (out.new.sends ≡ out.old.sends ++ (skips self.old).sends) }
        ensures lines { OnOk result (out.new.lines ≡ out.old.lines ++ (skips self.old).lines) }
    {
        self.advance_tx();
        out.line(b"skip dext")
    }

    /// The descriptor was read. One with DEXT is skipped.
    fn use_tx_descriptor(
        &mut self,
        alloc: Global,
        place: u64,
        bytes: &[u8; 16],
        out: &mut Effects,
    ) -> Result<(), NoMemory>
        ensures state { OnOk result (self.new ≡ (has_descriptor self.old place bytes.now).state) }
        ensures sends { OnOk result (out.new.sends
            ≡ out.old.sends ++ (has_descriptor self.old place bytes.now).sends) }
        ensures lines { OnOk result (out.new.lines
            ≡ out.old.lines ++ (has_descriptor self.old place bytes.now).lines) }
    {
        let descriptor = TxDesc::from_bytes(bytes);
        if descriptor.cmd & DEXT != 0 {
            return self.skip(out);
        }
        if self.lacks_id(&descriptor, 0) {
            return Ok(());
        }
        self.go_on(alloc, place, bytes, 0, out)
    }

    /// The bytes of a piece came.
    fn use_piece(
        &mut self,
        alloc: Global,
        place: u64,
        descriptor: &[u8; 16],
        done: u32,
        bytes: &[u8],
        out: &mut Effects,
    ) -> Result<(), NoMemory>
        requires { done + length bytes.now < 2 ^ 32 }
        ensures state { OnOk result (self.new ≡
            (piece_read self.old place descriptor.now done bytes.now).state) }
        ensures sends { OnOk result (out.new.sends
            ≡ out.old.sends ++ (piece_read self.old place descriptor.now done bytes.now).sends) }
        ensures lines { OnOk result (out.new.lines
            ≡ out.old.lines ++ (piece_read self.old place descriptor.now done bytes.now).lines) }
    {
        let done = done + bytes.len() as u32;
        if self.lacks_id(&TxDesc::from_bytes(descriptor), done) {
            return Ok(());
        }
        self.work.append(bytes)?;
        self.go_on(alloc, place, descriptor, done, out)
    }

    /// A completed read: of the descriptor, or of a piece.
    #[tactic(auto, unfolding(crate::specs::Sending::tx_read_done))]
    pub(crate) fn finish_tx_read(
        &mut self,
        alloc: Global,
        id: u64,
        bytes: &[u8],
        out: &mut Effects,
    ) -> Result<(), NoMemory>
        ensures state { OnOk result (self.new ≡
            (tx_read_done self.old self.old.sending id bytes.now).state) }
        ensures sends { OnOk result (out.new.sends
            ≡ out.old.sends ++ (tx_read_done self.old self.old.sending id bytes.now).sends) }
        ensures lines { OnOk result (out.new.lines
            ≡ out.old.lines ++ (tx_read_done self.old self.old.sending id bytes.now).lines) }
    {
        let sending = self.sending;
        match sending {
            TxStep::Read { id: asked, place } if asked == id && bytes.len() == 16 => {
                let mut descriptor = [0; 16];
                descriptor.copy_from_slice(bytes);
                self.use_tx_descriptor(alloc, place, &descriptor, out)
            }
            TxStep::Data {
                id: asked,
                place,
                descriptor,
                done,
            } if asked == id && is_piece(bytes, &descriptor, done) => {
                self.use_piece(alloc, place, &descriptor, done, bytes, out)
            }
            _ => Ok(()),
        }
    }

    /// The descriptor was written back: TXDW is raised, and the head advances.
    #[tactic(auto, unfolding(crate::specs::Sending::tx_write_done))]
    pub(crate) fn finish_tx_write(&mut self, id: u64)
        ensures state { self.new ≡ (tx_write_done self.old self.old.sending id).state }
        ensures no_sends { (tx_write_done self.old self.old.sending id).sends ≡ [] }
        ensures no_lines { (tx_write_done self.old self.old.sending id).lines ≡ [] }
    {
        match self.sending {
            TxStep::Back { id: asked } if asked == id => {
                self.regs.raise(TXDW);
                self.advance_tx();
            }
            _ => {}
        }
    }
}
