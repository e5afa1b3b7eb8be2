//! The receive engine: the first frame of the queue goes to the buffers of the host, one descriptor after another.

ghost use Rattle.std.specs.Prelude.{◌≡◌, ◌≤◌, ◌<◌, ◌+◌, ◌++◌, length, nat_lt, if◌then◌else◌, OnOk, IsTrue};
ghost use Rattle.nic_8254x.specs.State.{has_id};
ghost use Rattle.nic_8254x.specs.Receiving.{filled_bytes, filled_descriptor, first, has_descriptor, is_last, may_receive, part_received, piece_written, reads_descriptor, receives, rx_read_done, rx_write_done, with_next_rx, writes_back, writes_piece};
ghost use Rattle.nic_8254x.specs.Valid.{IsPart};

use crate::checksum::packet_checksum;
use crate::nic::{Nic, PCIE};
use crate::state::RxStep;
use access_proto::{Data, Length};
use cs_base::{NoMemory, Octets};
use device_api::{Effects, LineText};
use nic_rings::RxDesc;
use pcie_proto::DevMsg;
use sb_message::Body;
use std::alloc::Global;

/// Bytes of a descriptor.
const DESCRIPTOR: u32 = 16;

/// The most bytes that are moved at once.
const PIECE: u32 = 2048;

/// The status of a descriptor that is written back: descriptor done, end of packet.
const DD: u8 = 1;

const EOP: u8 = 2;

/// ICR.RXT0, a frame was received.
const RXT0: u32 = 1 << 7;

impl Nic {
    /// Whether a frame waits; descriptors then don't hold all of it yet.
    fn has_frame(&self) -> bool
        ensures some { result ≡ nat_lt 0 (length self.now.queue) }
        ensures waits { IsTrue result → self.now.filled < length (first self.now.queue) }
    {
        let _frame = self.queue.first();
        self.queue.len() > 0
    }

    /// Whether an engine that rests reads the descriptor at the head.
    fn may_receive(&self) -> bool
        ensures may { result ≡ may_receive self.now }
        ensures waits { IsTrue result → self.now.filled < length (first self.now.queue) }
    {
        self.has_frame() && self.regs.rx_on() && self.regs.rx_ring().free() > 0 && self.has_id()
    }

    /// Reads the descriptor at the head.
    fn read_rx_descriptor(&mut self, out: &mut Effects) -> Result<(), NoMemory>
        requires id { IsTrue (has_id self.old) }
        requires waits { self.old.filled < length (first self.old.queue) }
        ensures state { OnOk result (self.new ≡ (reads_descriptor self.old).state) }
        ensures sends { OnOk result (out.new.sends
            ≡ out.old.sends ++ (reads_descriptor self.old).sends) }
        ensures lines { OnOk result (out.new.lines
            ≡ out.old.lines ++ (reads_descriptor self.old).lines) }
    {
        let place = self.regs.rx_ring().address();
        let id = self.next_id;
        let len = Length::new(DESCRIPTOR).unwrap();
        out.send(
            PCIE,
            Body::Dev(DevMsg::Read {
                id,
                addr: place,
                len,
            }),
        )?;
        self.receiving = RxStep::Read { id, place };
        self.next_id = id + 1;
        Ok(())
    }

    /// An engine that rests reads the descriptor at the head, where a frame waits for it.
    #[tactic(auto, unfolding(crate::specs::Receiving::starts_receiving))]
    pub(crate) fn start_receiving(&mut self, out: &mut Effects) -> Result<(), NoMemory>
        ensures state { OnOk result (self.new ≡ (receives self.old self.old.receiving).state) }
        ensures sends { OnOk result (out.new.sends
            ≡ out.old.sends ++ (receives self.old self.old.receiving).sends) }
        ensures lines { OnOk result (out.new.lines
            ≡ out.old.lines ++ (receives self.old self.old.receiving).lines) }
    {
        match self.receiving {
            RxStep::Idle if self.may_receive() => self.read_rx_descriptor(out),
            _ => Ok(()),
        }
    }

    /// Writes the next piece of a part to the descriptor's buffer.
    fn write_piece(
        &mut self,
        alloc: Global,
        place: u64,
        addr: u64,
        part: u32,
        done: u32,
        out: &mut Effects,
    ) -> Result<(), NoMemory>
        requires id { IsTrue (has_id self.old) }
        requires part { IsPart (first self.old.queue) self.old.filled part }
        requires more { done < part }
        ensures state { OnOk result (self.new ≡
            (writes_piece self.old place addr part done).state) }
        ensures sends { OnOk result (out.new.sends
            ≡ out.old.sends ++ (writes_piece self.old place addr part done).sends) }
        ensures lines { OnOk result (out.new.lines
            ≡ out.old.lines ++ (writes_piece self.old place addr part done).lines) }
    {
        let frame = self.queue.first();
        let from = (self.filled + done) as usize;
        let piece = (part - done).min(PIECE) as usize;
        let bytes = Octets::from_slice(alloc, &frame[from..from + piece])?;
        let bytes = Data::new(bytes).unwrap();
        let id = self.next_id;
        let to = addr.wrapping_add(u64::from(done));
        out.send(
            PCIE,
            Body::Dev(DevMsg::Write {
                id,
                addr: to,
                bytes,
            }),
        )?;
        self.receiving = RxStep::Data {
            id,
            place,
            addr,
            part,
            done,
        };
        self.next_id = id + 1;
        Ok(())
    }

    /// The descriptor was read: a part of the frame goes to its buffer.
    fn use_descriptor(
        &mut self,
        alloc: Global,
        place: u64,
        descriptor: &[u8; 16],
        out: &mut Effects,
    ) -> Result<(), NoMemory>
        requires id { IsTrue (has_id self.old) }
        requires waits { self.old.filled < length (first self.old.queue) }
        ensures state { OnOk result (self.new ≡
            (has_descriptor self.old place descriptor.now).state) }
        ensures sends { OnOk result (out.new.sends
            ≡ out.old.sends ++ (has_descriptor self.old place descriptor.now).sends) }
        ensures lines { OnOk result (out.new.lines
            ≡ out.old.lines ++ (has_descriptor self.old place descriptor.now).lines) }
    {
        let left = self.queue.first().len() as u32 - self.filled;
        let part = self.regs.buffer_size().min(left);
        let addr = RxDesc::from_bytes(descriptor).addr;
        self.write_piece(alloc, place, addr, part, 0, out)
    }

    fn is_last(&self, part: u32) -> bool
        requires { IsPart (first self.now.queue) self.now.filled part }
        ensures { result ≡ is_last self.now part }
    {
        let frame = self.queue.first();
        (self.filled + part) as usize == frame.len()
    }

    /// The status that a descriptor with a part gets.
    fn status_of(&self, part: u32) -> u8
        requires { IsPart (first self.now.queue) self.now.filled part }
        ensures { result ≡ (if is_last self.now part then 3 else 1) }
    {
        if self.is_last(part) { DD + EOP } else { DD }
    }

    /// The descriptor that holds a part.
    fn filled_descriptor(&self, addr: u64, part: u32) -> RxDesc
        requires { IsPart (first self.now.queue) self.now.filled part }
        ensures { result ≡ filled_descriptor self.now addr part }
    {
        RxDesc {
            addr,
            length: part as u16,
            checksum: packet_checksum(self.regs.checksum_start(), self.queue.first()),
            status: self.status_of(part),
            errors: 0,
            special: 0,
        }
    }

    #[tactic(auto, unfolding(crate::specs::Receiving::filled_bytes))]
    fn filled_bytes(&self, addr: u64, part: u32) -> [u8; 16]
        requires { IsPart (first self.now.queue) self.now.filled part }
        ensures { result ≡ filled_bytes self.now addr part }
    {
        self.filled_descriptor(addr, part).to_bytes()
    }

    /// The part was written: the descriptor is written back.
    fn write_back(
        &mut self,
        alloc: Global,
        place: u64,
        addr: u64,
        part: u32,
        out: &mut Effects,
    ) -> Result<(), NoMemory>
        requires id { IsTrue (has_id self.old) }
        requires part { IsPart (first self.old.queue) self.old.filled part }
        ensures state { OnOk result (self.new ≡ (writes_back self.old place addr part).state) }
        ensures sends { OnOk result (out.new.sends
            ≡ out.old.sends ++ (writes_back self.old place addr part).sends) }
        ensures lines { OnOk result (out.new.lines
            ≡ out.old.lines ++ (writes_back self.old place addr part).lines) }
    {
        let bytes = Octets::from_slice(alloc, &self.filled_bytes(addr, part))?;
        let bytes = Data::new(bytes).unwrap();
        let id = self.next_id;
        out.send(
            PCIE,
            Body::Dev(DevMsg::Write {
                id,
                addr: place,
                bytes,
            }),
        )?;
        self.receiving = RxStep::Back { id, part };
        self.next_id = id + 1;
        Ok(())
    }

    /// The head advances, but in a ring that doesn't have it.
    fn advance_rx(&mut self)
        ensures { self.new ≡ record self.old { regs = with_next_rx self.old.regs } }
    {
        let ring = self.regs.rx_ring();
        if ring.head < ring.count() {
            self.regs.set_rx_head(ring.advance());
        }
    }

    /// The descriptor was written back; with the last part the frame is received.
    fn finish_part(&mut self, alloc: Global, part: u32, out: &mut Effects) -> Result<(), NoMemory>
        requires part { IsPart (first self.old.queue) self.old.filled part }
        ensures state { OnOk result (self.new ≡ (part_received self.old part).state) }
        ensures sends { OnOk result (out.new.sends
            ≡ out.old.sends ++ (part_received self.old part).sends) }
        ensures lines { OnOk result (out.new.lines
            ≡ out.old.lines ++ (part_received self.old part).lines) }
    {
        self.receiving = RxStep::Idle;
        self.advance_rx();
        if !self.is_last(part) {
            let _few = self.queue.first().len();
            self.filled += part;
            return Ok(());
        }
        let mut line = LineText::new(alloc);
        line.append(b"rx ")?;
        line.decimal(self.queue.first().len() as u64)?;
        out.line_text(line)?;
        self.regs.raise(RXT0);
        self.filled = 0;
        self.queue.drop_first();
        Ok(())
    }

    /// A piece was written: the next one is, or the descriptor is written back.
    fn finish_piece(
        &mut self,
        alloc: Global,
        place: u64,
        addr: u64,
        part: u32,
        done: u32,
        out: &mut Effects,
    ) -> Result<(), NoMemory>
        requires id { IsTrue (has_id self.old) }
        requires part { IsPart (first self.old.queue) self.old.filled part }
        requires more { done < part }
        ensures state { OnOk result (self.new ≡
            (piece_written self.old place addr part done).state) }
        ensures sends { OnOk result (out.new.sends
            ≡ out.old.sends ++ (piece_written self.old place addr part done).sends) }
        ensures lines { OnOk result (out.new.lines
            ≡ out.old.lines ++ (piece_written self.old place addr part done).lines) }
    {
        let written = done + (part - done).min(PIECE);
        if written < part {
            self.write_piece(alloc, place, addr, part, written, out)
        } else {
            self.write_back(alloc, place, addr, part, out)
        }
    }

    /// A completed read: of the descriptor, where that is asked for.
    #[tactic(auto, unfolding(crate::specs::Receiving::rx_read_done))]
    pub(crate) fn finish_rx_read(
        &mut self,
        alloc: Global,
        id: u64,
        bytes: &[u8],
        out: &mut Effects,
    ) -> Result<(), NoMemory>
        ensures state { OnOk result (self.new ≡
            (rx_read_done self.old self.old.receiving id bytes.now).state) }
        ensures sends { OnOk result (out.new.sends
            ≡ out.old.sends ++ (rx_read_done self.old self.old.receiving id bytes.now).sends) }
        ensures lines { OnOk result (out.new.lines
            ≡ out.old.lines ++ (rx_read_done self.old self.old.receiving id bytes.now).lines) }
    {
        match self.receiving {
            RxStep::Read { id: asked, place }
                if asked == id && bytes.len() == 16 && self.has_id() => {
                let mut descriptor = [0; 16];
                descriptor.copy_from_slice(bytes);
                self.use_descriptor(alloc, place, &descriptor, out)
            }
            _ => Ok(()),
        }
    }

    /// A completed write: of a piece, or of the descriptor.
    #[tactic(auto, unfolding(crate::specs::Receiving::rx_write_done))]
    pub(crate) fn finish_rx_write(
        &mut self,
        alloc: Global,
        id: u64,
        out: &mut Effects,
    ) -> Result<(), NoMemory>
        ensures state { OnOk result (self.new ≡
            (rx_write_done self.old self.old.receiving id).state) }
        ensures sends { OnOk result (out.new.sends
            ≡ out.old.sends ++ (rx_write_done self.old self.old.receiving id).sends) }
        ensures lines { OnOk result (out.new.lines
            ≡ out.old.lines ++ (rx_write_done self.old self.old.receiving id).lines) }
    {
        match self.receiving {
            RxStep::Data {
                id: asked,
                place,
                addr,
                part,
                done,
            } if asked == id && self.has_id() => self.finish_piece(
                alloc, place, addr, part, done, out,
            ),
            RxStep::Back { id: asked, part } if asked == id => self.finish_part(alloc, part, out),
            _ => Ok(()),
        }
    }
}
