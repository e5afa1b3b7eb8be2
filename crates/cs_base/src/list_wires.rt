ghost use Rattle.std.specs.Prelude.{◌≡◌, ◌≤◌, ◌<◌, ◌+◌, ◌↔◌, [], true, false, length, IsTrue, IfOk, OnOk, OnErr, option_map};
ghost use Rattle.cs_base.specs.Outside.{Rose};
ghost use Rattle.cs_base.specs.Wires.{OutSeen, InSeen, TookSome, GaveSome, taken_after, given_after};
ghost use Rattle.cs_base.specs.WireForms.{Pieces, OutList, InList, out_seen, in_seen, count_sent, sent_now, after_send, after_failed_send, count_given, got_now, after_receipt, filled};

use crate::items::{Items, Octets};
use crate::mem_files::one_more;
use crate::no_memory::Failed;
use crate::pieces::PieceSizes;
use crate::wires::{Got, Sent, WireIn, WireOut};
use std::alloc::Global;
use std::marker::Model;

/// The sending end of a wire in memory, for tests: it keeps and tells the bytes that it takes.
#[derive(Debug, Drop)]
pub struct ListOut {
    pieces: PieceSizes,
    taken: Octets,
    faults: u64,
    idles: u64,
}

impl Model for ListOut {
    ghost use Rattle.cs_base.specs.WireForms.{OutList};

    ghost Value = { OutList };

    ghost view = { λ o. record {
      pieces = o.pieces;
      taken = o.taken;
      faults = o.faults;
      idles = o.idles;
    } };
}

impl ListOut {
    /// An end that has taken nothing. Each send takes at most the next of these numbers; at 0, and after the last
    /// one, it can take nothing yet.
    pub fn new(alloc: Global, sizes: Items<usize>) -> ListOut
        ensures pieces { result.pieces ≡ record { sizes = sizes; used = 0 } }
        ensures taken { result.taken ≡ [] }
        ensures faults { result.faults ≡ 0 }
        ensures idles { result.idles ≡ 0 }
    {
        ListOut {
            pieces: PieceSizes::new(sizes),
            taken: Octets::new(alloc),
            faults: 0,
            idles: 0,
        }
    }

    /// What was taken so far.
    pub fn taken(&self) -> &[u8]
        ensures { result.now ≡ self.now.taken }
    {
        self.taken.as_slice()
    }
}

impl WireOut for ListOut {
    ghost use Rattle.cs_base.specs.WireForms.{out_seen};

    ghost seen = { out_seen };

    fn faults(&self) -> u64 {
        self.faults
    }

    fn idles(&self) -> u64 {
        self.idles
    }

    /// What a send answers and what the end is after it is exact. A send that finds no memory fails.
    fn send(&mut self, bytes: &[u8]) -> Result<Sent, Failed>
        requires { 0 < length bytes.now }
        ensures some { IfOk result (λ sent. TookSome sent (length bytes.now)) }
        ensures taken { (out_seen self.new).taken
            ≡ option_map (taken_after result bytes.now) (out_seen self.old).taken }
        ensures faults_stay { OnOk result ((out_seen self.new).faults
            ≡ (out_seen self.old).faults) }
        ensures faults_never_fall { (out_seen self.old).faults ≤ (out_seen self.new).faults }
        ensures idles_never_fall { (out_seen self.old).idles ≤ (out_seen self.new).idles }
        ensures not_yet { result ≡ Ok Sent.NotYet
            → Rose (out_seen self.old).idles (out_seen self.new).idles }
        ensures failed { OnErr result (Rose (out_seen self.old).faults (out_seen self.new).faults) }
        ensures answer { IfOk result (λ sent. sent ≡ sent_now self.old (length bytes.now)) }
        ensures after { OnOk result (self.new ≡ after_send self.old bytes.now) }
        ensures after_failed { OnErr result (self.new ≡ after_failed_send self.old) }
    {
        let count = self.pieces.next_size().min(bytes.len());
        self.pieces.count_call();
        if count == 0 {
            self.idles = one_more(self.idles);
            return Ok(Sent::NotYet);
        }
        if self.taken.append(&bytes[..count]).is_err() {
            self.faults = one_more(self.faults);
            return Err(Failed);
        }
        Ok(Sent::Took(count))
    }
}

/// The receiving end of a wire in memory, for tests: it gives a stated stream and tells what it gave. It never fails.
#[derive(Debug, Drop)]
pub struct ListIn {
    pieces: PieceSizes,
    bytes: Octets,
    at: usize,
    ends: bool,
    idles: u64,
    ended: bool,
}

impl Model for ListIn {
    ghost use Rattle.std.specs.Prelude.{◌≤◌, ◌≡◌, length, IsTrue, true};
    ghost use Rattle.cs_base.specs.WireForms.{InList, end_is_next};

    ghost Value = { InList };

    ghost view = { λ w. record {
      pieces = w.pieces;
      bytes = w.bytes;
      at = w.at;
      ends = w.ends;
      idles = w.idles;
      ended = w.ended;
    } };

    ghost invariant = { λ w. (w.at ≤ length w.bytes)
        × (IsTrue w.ended → IsTrue (end_is_next w.pieces w.ends)) };
}

impl ListIn {
    /// An end that gives the bytes from the front. Each receipt gives at most the next of these numbers; at 0, and
    /// after the last one, it has nothing to give yet, or, after the last one where so said, the stream's end.
    pub fn new(bytes: Octets, sizes: Items<usize>, ends: bool) -> ListIn
        ensures pieces { result.pieces ≡ record { sizes = sizes; used = 0 } }
        ensures bytes { result.bytes ≡ bytes }
        ensures at { result.at ≡ 0 }
        ensures ends { result.ends ≡ ends }
        ensures idles { result.idles ≡ 0 }
        ensures ended { result.ended ≡ false }
    {
        ListIn {
            pieces: PieceSizes::new(sizes),
            bytes,
            at: 0,
            ends,
            idles: 0,
            ended: false,
        }
    }

    /// How many bytes the next receipt gives, where there is room for so many.
    fn count_given(&self, room: usize) -> usize
        ensures count { result ≡ count_given self.now room }
        ensures within { result + self.now.at ≤ length self.now.bytes }
    {
        let most = self.pieces.next_size().min(room);
        most.min(self.bytes.len() - self.at)
    }
}

impl WireIn for ListIn {
    ghost use Rattle.cs_base.specs.WireForms.{in_seen};

    ghost seen = { in_seen };

    fn faults(&self) -> u64 {
        0
    }

    fn idles(&self) -> u64 {
        self.idles
    }

    fn ended(&self) -> bool {
        self.ended
    }

    /// What a receipt answers, what it writes and what the end is after it is exact.
    fn recv(&mut self, buffer: &mut [u8]) -> Result<Got, Failed>
        requires { 0 < length buffer.old }
        ensures some { IfOk result (λ got. GaveSome got (length buffer.new)) }
        ensures given { (in_seen self.new).given
            ≡ option_map (given_after result buffer.new) (in_seen self.old).given }
        ensures end { (result ≡ Ok Got.End) ↔ IsTrue (in_seen self.new).ended }
        ensures for_good { IsTrue (in_seen self.old).ended → IsTrue (in_seen self.new).ended }
        ensures faults_stay { OnOk result ((in_seen self.new).faults ≡ (in_seen self.old).faults) }
        ensures faults_never_fall { (in_seen self.old).faults ≤ (in_seen self.new).faults }
        ensures idles_never_fall { (in_seen self.old).idles ≤ (in_seen self.new).idles }
        ensures not_yet { result ≡ Ok Got.NotYet
            → Rose (in_seen self.old).idles (in_seen self.new).idles }
        ensures failed { OnErr result (Rose (in_seen self.old).faults (in_seen self.new).faults) }
        ensures answer { result ≡ Ok (got_now self.old (length buffer.old)) }
        ensures filled { buffer.new ≡ filled self.old buffer.old }
        ensures after { self.new ≡ after_receipt self.old (length buffer.old) }
    {
        let count = self.count_given(buffer.len());
        if count > 0 {
            buffer[..count].copy_from_slice(&self.bytes.as_slice()[self.at..self.at + count]);
            self.at += count;
            self.pieces.count_call();
            return Ok(Got::Took(count));
        }
        if self.ends && !self.pieces.is_left() {
            self.ended = true;
            return Ok(Got::End);
        }
        self.pieces.count_call();
        self.idles = one_more(self.idles);
        Ok(Got::NotYet)
    }
}
