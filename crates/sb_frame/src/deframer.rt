ghost use Rattle.std.specs.Prelude.{◌≡◌, ◌≢◌, ◌≤◌, ◌<◌, ◌+◌, ◌^◌, ◌++◌, ◌∷◌, ℕ, List, [], Some, None, Err, length, take, OnOk, IfOk, IfErr, IfSome, MatchOption};
ghost use Rattle.sb_message.specs.declared.message.Msg.{Msg};
ghost use Rattle.sb_frame.specs.declared.frame_bad.FrameBad.TheVariants as bad;
ghost use Rattle.sb_frame.specs.Frames.{IsOpen};
ghost use Rattle.sb_frame.specs.Faults.{FirstFault};
ghost use Rattle.sb_frame.specs.Deframing.{Place, Stands, MayFeed, NextIs, Finishes, StopsAt};

use crate::frame_bad::FrameBad;
use crate::start::{HEADER, Start, start_of, top_up};
use crate::walk::Walk;
use cs_base::items::Octets;
use cs_base::port_kind::PortKind;
use sb_message::Msg;
use std::alloc::Global;
use std::marker::Model;

/// Takes messages out of a byte stream that comes in pieces. It stands for the stream so far and for the messages that
/// it has given, which need not be stored: it keeps the bytes of the frame that is begun, and the whole messages that
/// aren't taken yet.
#[derive(Debug, Drop)]
pub struct Deframer {
    walk: Walk,
    begun: Octets,
    // Empty between calls: room for the next frame that is begun.
    spare: Octets,
    fault: Option<FrameBad>,
}

impl Model for Deframer {
    ghost use Rattle.std.specs.Prelude.{◌≡◌, []};
    ghost use Rattle.sb_frame.specs.Deframing.{Deframing};

    ghost Value = { Deframing };

    ghost view = { λ d. record { place = d.walk; begun = d.begun; fault = d.fault } };

    ghost invariant = { λ d. d.spare ≡ [] };
}

impl Deframer {
    /// A deframer of a stream to a port of this kind, of which nothing has come yet.
    pub fn new(alloc: Global, kind: PortKind) -> Deframer
        ensures kind { result.place.kind ≡ kind }
        ensures stands { Stands result [] [] }
        ensures no_fault { result.fault ≡ None }
    {
        Deframer {
            walk: Walk::new(alloc, kind),
            begun: Octets::new(alloc),
            spare: Octets::new(alloc),
            fault: None,
        }
    }

    /// Takes the next piece of the stream, or answers the stream's first fault, which it then does for good. Where
    /// memory is wanting, nothing has changed. Messages before a fault still come from `next`.
    pub fn feed(&mut self, piece: &[u8]) -> Result<(), FrameBad>
        requires { MayFeed self.old piece.now }
        ensures stands { (stream : List ℕ) (given : List Msg) → Stands self.old stream given
            → result ≢ Err bad.NoMemory → Stands self.new (stream ++ piece.now) given }
        ensures ok { OnOk result (self.new.fault ≡ None) }
        ensures err { IfErr result (λ b. b ≢ bad.NoMemory → self.new.fault ≡ Some b) }
        ensures first_fault { (stream : List ℕ) (given : List Msg) → Stands self.old stream given
            → IfErr result (λ b. b ≢ bad.NoMemory → FirstFault self.new.place.kind
            (stream ++ piece.now) b) }
        ensures no_memory { result ≡ Err bad.NoMemory → self.new ≡ self.old }
        ensures for_good { IfSome self.old.fault (λ b. result ≡ Err b) }
        ensures kind { self.new.place.kind ≡ self.old.place.kind }
    {
        if let Some(bad) = self.fault {
            return Err(bad);
        }
        let mark = self.walk.mark();
        let begun = self.begun.len();
        match self.take_in(piece) {
            Ok(()) => Ok(()),
            Err(FrameBad::NoMemory) => {
                self.walk.back_to(mark);
                self.begun.truncate(begun);
                Err(FrameBad::NoMemory)
            }
            Err(bad) => {
                self.fault = Some(bad);
                Err(bad)
            }
        }
    }

    /// The next message; None exactly where no whole accepted frame is left.
    pub fn next(&mut self) -> Option<Msg>
        ensures taken { MatchOption result
            ((self.old.place.waiting ≡ []) × (self.new ≡ self.old))
            (λ m. NextIs self.old m self.new) }
        ensures stands { (stream : List ℕ) (given : List Msg) → Stands self.old stream given
            → IfSome result (λ m. Stands self.new stream (given ++ m ∷ [])) }
    {
        self.walk.take()
    }

    /// The stream's first fault, if it has been met.
    pub fn fault(&self) -> Option<FrameBad>
        ensures { result ≡ self.now.fault }
    {
        self.fault
    }

    // Reads on into the piece.
    fn take_in(&mut self, piece: &[u8]) -> Result<(), FrameBad>
        requires no_fault { self.old.fault ≡ None }
        requires opened { IsOpen self.old.begun }
        requires room { self.old.place.offset +
            (length self.old.begun + length piece.now) < 2 ^ 64 }
        ensures kind { self.new.place.kind ≡ self.old.place.kind }
        ensures fault { self.new.fault ≡ None }
        ensures keeps { take (length self.old.place.waiting) self.new.place.waiting
            ≡ self.old.place.waiting }
        ensures begun { result ≡ Err bad.NoMemory → take (length self.old.begun) self.new.begun
            ≡ self.old.begun }
        ensures ok { (stream : List ℕ) (given : List Msg) → Stands self.old stream given
            → OnOk result (Stands self.new (stream ++ piece.now) given) }
        ensures err { (stream : List ℕ) (given : List Msg) → Stands self.old stream given
            → IfErr result (λ b. b ≢ bad.NoMemory → Stands (record self.new { fault = Some b })
            (stream ++ piece.now) given) }
    {
        let Some(taken) = self.finish_begun(piece)? else {
            return Ok(());
        };
        let rest = &piece[taken..];
        let read = self.walk.read(self.begun.alloc(), rest)?;
        self.spare.append(&rest[read..])?;
        self.begun.clear();
        std::mem::swap(&mut self.begun, &mut self.spare);
        Ok(())
    }

    // Finishes the frame that is begun, and says how much of the piece went into it; None where all did, and bytes of
    // the frame are still to come.
    fn finish_begun(&mut self, piece: &[u8]) -> Result<Option<usize>, FrameBad>
        requires opened { IsOpen self.old.begun }
        requires room { self.old.place.offset +
            (length self.old.begun + length piece.now) < 2 ^ 64 }
        ensures fault { self.new.fault ≡ self.old.fault }
        ensures begun { take (length self.old.begun) self.new.begun ≡ self.old.begun }
        ensures ok { IfOk result (λ taken. Finishes self.old piece.now self.new taken) }
        ensures same { IfErr result (λ _. self.new.place ≡ self.old.place) }
        ensures err { IfErr result (λ b. b ≢ bad.NoMemory
            → StopsAt self.old.place (self.old.begun ++ piece.now) b) }
    {
        if self.begun.is_empty() {
            return Ok(Some(0));
        }
        let taken = top_up(&mut self.begun, piece)?;
        match start_of(self.begun.as_slice()) {
            Start::Open => Ok(None),
            Start::Wrong => Err(FrameBad::Length {
                offset: self.walk.offset(),
            }),
            Start::Whole(_) => {
                self.walk
                    .accept(self.begun.alloc(), &self.begun.as_slice()[HEADER..])?;
                Ok(Some(taken))
            }
        }
    }
}
