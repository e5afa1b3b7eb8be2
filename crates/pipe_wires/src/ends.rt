ghost use Rattle.std.specs.Prelude.{◌≡◌, ◌≤◌, ◌<◌, ◌↔◌, false, length, IsTrue, IsErr, IfOk, OnOk, OnErr};
ghost use Rattle.std.specs.Prelude.{option_map};
ghost use Rattle.std.specs.List.{Contains};
ghost use Rattle.cs_base.specs.Outside.{Rose, one_more};
ghost use Rattle.cs_base.specs.Wires.{TookSome, GaveSome, taken_after, given_after};
ghost use Rattle.pipe_wires.specs.Pipes.{new_out, new_in, out_seen, in_seen};

use crate::ring::Ring;
use cs_base::items::Items;
use cs_base::no_memory::Failed;
use cs_base::wires::{Got, Sent, WireIn, WireOut};
use std::alloc::Global;
use std::marker::Model;
use std::sync::{Arc, Mutex};

/// One more, but never past the last value of a counter.
pub(crate) fn one_more(count: u64) -> u64
    ensures { result ≡ one_more count }
{
    count.saturating_add(1)
}

/// The bytes of a pipe, which both of its ends share.
pub(crate) type Shared = Arc<Mutex<Ring>, Global>;

/// The sending end of a pipe.
#[derive(Drop)]
pub struct PipeOut {
    ring: Shared,
    failing: Items<u64>,
    calls: u64,
    faults: u64,
    idles: u64,
}

impl Model for PipeOut {
    ghost use Rattle.pipe_wires.specs.Pipes.{SendingPipe};

    ghost Value = { SendingPipe };

    ghost view = { λ p. record {
      failing = p.failing;
      calls = p.calls;
      faults = p.faults;
      idles = p.idles;
    } };
}

impl PipeOut {
    pub(crate) fn new(ring: Shared, failing: Items<u64>) -> PipeOut
        ensures { result ≡ new_out failing }
    {
        PipeOut {
            ring,
            failing,
            calls: 0,
            faults: 0,
            idles: 0,
        }
    }
}

impl WireOut for PipeOut {
    ghost use Rattle.pipe_wires.specs.Pipes.{out_seen};

    ghost seen = { out_seen };

    fn faults(&self) -> u64 {
        self.faults
    }

    fn idles(&self) -> u64 {
        self.idles
    }

    /// Which sends fail is exact. A send while the other end is at work can take nothing yet.
    fn send(&mut self, bytes: &[u8]) -> Result<Sent, Failed>
        requires { 0 < length bytes.now }
        ensures some { IfOk result (λ sent. TookSome sent (length bytes.now)) }
        ensures taken { (out_seen self.new).taken
            ≡ option_map (taken_after result bytes.now) (out_seen self.old).taken }
        ensures faults_stay { OnOk result ((out_seen self.new).faults
            ≡ (out_seen self.old).faults) }
        ensures faults_never_fall { (out_seen self.old).faults ≤ (out_seen self.new).faults }
        ensures idles_never_fall { (out_seen self.old).idles ≤ (out_seen self.new).idles }
        ensures not_yet { result ≡ Ok Sent.NotYet
            → Rose (out_seen self.old).idles (out_seen self.new).idles }
        ensures failed { OnErr result (Rose (out_seen self.old).faults (out_seen self.new).faults) }
        ensures planned { IsErr result ↔ Contains self.old.failing self.old.calls }
        ensures calls { self.new.calls ≡ one_more self.old.calls }
        ensures failing { self.new.failing ≡ self.old.failing }
    {
        let call = self.calls;
        self.calls = one_more(call);
        if self.failing.as_slice().contains(&call) {
            self.faults = one_more(self.faults);
            return Err(Failed);
        }
        match put(&self.ring, bytes) {
            0 => {
                self.idles = one_more(self.idles);
                Ok(Sent::NotYet)
            }
            count => Ok(Sent::Took(count)),
        }
    }
}

// Puts bytes into the pipe, unless the other end is at work, and says how many.
fn put(ring: &Mutex<Ring>, bytes: &[u8]) -> usize
    ensures { result ≤ length bytes.now }
{
    match ring.try_lock() {
        Some(mut held) => held.put(bytes),
        None => 0,
    }
}

// Takes bytes out of the pipe, unless the other end is at work, and says how many.
fn take(ring: &Mutex<Ring>, buffer: &mut [u8]) -> usize
    ensures { result ≤ length buffer.new }
{
    match ring.try_lock() {
        Some(mut held) => held.take(buffer),
        None => 0,
    }
}

/// The receiving end of a pipe.
#[derive(Drop)]
pub struct PipeIn {
    ring: Shared,
    piece: usize,
    pauses: bool,
    // The next receipt has nothing to give.
    resting: bool,
    failing: Items<u64>,
    changed: Option<u64>,
    end: Option<u64>,
    // How many bytes were given.
    at: u64,
    calls: u64,
    faults: u64,
    idles: u64,
    ended: bool,
}

impl Model for PipeIn {
    ghost use Rattle.pipe_wires.specs.Pipes.{ReceivingPipe};

    ghost Value = { ReceivingPipe };

    ghost view = { λ p. record {
      failing = p.failing;
      calls = p.calls;
      faults = p.faults;
      idles = p.idles;
      ended = p.ended;
    } };
}

// How many bytes a receipt may give at most.
fn most(room: usize, piece: usize, end: Option<u64>, at: u64) -> usize
    ensures { result ≤ room }
{
    let left = match end {
        Some(place) => usize::try_from(place.saturating_sub(at)).unwrap_or(room),
        None => room,
    };
    room.min(piece).min(left)
}

// Changes the byte at a place of the stream where it stands in the buffer, which begins at another.
fn change(buffer: &mut [u8], at: u64, changed: Option<u64>) {
    let Some(place) = changed else {
        return;
    };
    let Some(offset) = place.checked_sub(at) else {
        return;
    };
    let Ok(offset) = usize::try_from(offset) else {
        return;
    };
    if let Some(byte) = buffer.get_mut(offset) {
        *byte ^= 1;
    }
}

impl PipeIn {
    pub(crate) fn new(ring: Shared, plan: Gives) -> PipeIn
        ensures { result ≡ new_in plan.failing }
    {
        let Gives {
            piece,
            pauses,
            failing,
            changed,
            end,
        } = plan;
        PipeIn {
            ring,
            piece,
            pauses,
            resting: false,
            failing,
            changed,
            end,
            at: 0,
            calls: 0,
            faults: 0,
            idles: 0,
            ended: false,
        }
    }

    // Fills the buffer from its front, and says with how much.
    fn give(&mut self, buffer: &mut [u8]) -> usize
        ensures fits { result ≤ length buffer.new }
        ensures same { self.new ≡ self.old }
    {
        if self.resting {
            self.resting = false;
            return 0;
        }
        let room = most(buffer.len(), self.piece, self.end, self.at);
        let count = take(&self.ring, &mut buffer[..room]);
        change(&mut buffer[..count], self.at, self.changed);
        self.at = self.at.saturating_add(count as u64);
        self.resting = self.pauses && count > 0;
        count
    }
}

/// What a receiving end is planned to do.
#[derive(Drop)]
pub(crate) struct Gives {
    pub(crate) piece: usize,
    pub(crate) pauses: bool,
    pub(crate) failing: Items<u64>,
    pub(crate) changed: Option<u64>,
    pub(crate) end: Option<u64>,
}

impl WireIn for PipeIn {
    ghost use Rattle.pipe_wires.specs.Pipes.{in_seen};

    ghost seen = { in_seen };

    fn faults(&self) -> u64 {
        self.faults
    }

    fn idles(&self) -> u64 {
        self.idles
    }

    fn ended(&self) -> bool {
        self.ended
    }

    /// Which receipts fail is exact: those after the end don't count. A receipt while the other end is at work has
    /// nothing to give yet.
    fn recv(&mut self, buffer: &mut [u8]) -> Result<Got, Failed>
        requires { 0 < length buffer.old }
        ensures some { IfOk result (λ got. GaveSome got (length buffer.new)) }
        ensures given { (in_seen self.new).given
            ≡ option_map (given_after result buffer.new) (in_seen self.old).given }
        ensures end { (result ≡ Ok Got.End) ↔ IsTrue (in_seen self.new).ended }
        ensures for_good { IsTrue (in_seen self.old).ended → IsTrue (in_seen self.new).ended }
        ensures faults_stay { OnOk result ((in_seen self.new).faults
            ≡ (in_seen self.old).faults) }
        ensures faults_never_fall { (in_seen self.old).faults ≤ (in_seen self.new).faults }
        ensures idles_never_fall { (in_seen self.old).idles ≤ (in_seen self.new).idles }
        ensures not_yet { result ≡ Ok Got.NotYet
            → Rose (in_seen self.old).idles (in_seen self.new).idles }
        ensures failed { OnErr result (Rose (in_seen self.old).faults (in_seen self.new).faults) }
        ensures planned { self.old.ended ≡ false
            → (IsErr result ↔ Contains self.old.failing self.old.calls) }
        ensures calls { self.old.ended ≡ false → self.new.calls ≡ one_more self.old.calls }
        ensures failing { self.new.failing ≡ self.old.failing }
    {
        if self.ended {
            return Ok(Got::End);
        }
        let call = self.calls;
        self.calls = one_more(call);
        if self.failing.as_slice().contains(&call) {
            self.faults = one_more(self.faults);
            return Err(Failed);
        }
        if self.end == Some(self.at) {
            self.ended = true;
            return Ok(Got::End);
        }
        match self.give(buffer) {
            0 => {
                self.idles = one_more(self.idles);
                Ok(Got::NotYet)
            }
            count => Ok(Got::Took(count)),
        }
    }
}
