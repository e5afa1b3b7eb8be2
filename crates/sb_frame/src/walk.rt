ghost use Rattle.std.specs.Prelude.{MatchOption, ◌∷◌, ◌≡◌, ◌≢◌, ◌≤◌, ◌<◌, ◌+◌, ◌^◌, ℕ, List, [], None, length, take, OnOk, IfOk, IfErr};
ghost use Rattle.sb_message.specs.declared.message.Msg.{Msg};
ghost use Rattle.sb_message.specs.Stream.{is_intro};
ghost use Rattle.sb_message.specs.Spelling.{Spells};
ghost use Rattle.sb_frame.specs.declared.frame_bad.FrameBad.TheVariants as bad;
ghost use Rattle.sb_frame.specs.Faults.{rule_fault, frame_refusal, IsBadMessage};
ghost use Rattle.sb_frame.specs.Deframing.{Place, Reached, Accepts, ReadsTo, StopsIn};

use crate::frame_bad::FrameBad;
use crate::start::{HEADER, Start, start_of};
use cs_base::no_memory::NoMemory;
use cs_base::port_kind::PortKind;
use cs_base::time::Time;
use sb_message::{Body, Msg, MsgBad, decode};
use std::alloc::Global;
use std::collections::VecDeque;
use std::marker::Model;

/// Where a stream is read, with the messages read that aren't taken yet.
#[derive(Debug, Drop)]
pub(crate) struct Walk {
    kind: PortKind,
    last: Option<Time>,
    offset: u64,
    waiting: VecDeque<Msg>,
}

/// A place to which a walk may go back.
#[derive(Clone, Copy, Debug)]
pub(crate) struct Mark {
    last: Option<Time>,
    offset: u64,
    waiting: usize,
}

impl Model for Walk {
    ghost use Rattle.sb_frame.specs.Deframing.{Place};

    ghost Value = { Place };

    ghost view = { λ walk. record { kind = walk.kind; last = walk.last; offset = walk.offset; waiting = walk.waiting.items } };
}

fn is_intro(body: &Body) -> bool
    ensures { result ≡ is_intro body.now }
{
    matches!(body, Body::Intro(_))
}

// The refusal of a message as one of its frame.
fn frame_refusal(offset: u64, bad: MsgBad) -> FrameBad
    ensures { result ≡ frame_refusal offset bad }
{
    match bad {
        MsgBad::NoMemory => FrameBad::NoMemory,
        bad => FrameBad::Message { offset, bad },
    }
}

impl Walk {
    pub(crate) fn new(alloc: Global, kind: PortKind) -> Walk
        ensures { result ≡ record { kind = kind; last = None; offset = 0; waiting = [] } }
    {
        Walk {
            kind,
            last: None,
            offset: 0,
            waiting: VecDeque::new(alloc),
        }
    }

    /// Where the next frame starts.
    pub(crate) fn offset(&self) -> u64
        ensures { result ≡ self.now.offset }
    {
        self.offset
    }

    /// This place, to come back to.
    pub(crate) fn mark(&self) -> Mark
        ensures last { result.last ≡ self.now.last }
        ensures offset { result.offset ≡ self.now.offset }
        ensures waiting { result.waiting ≡ length self.now.waiting }
    {
        Mark {
            last: self.last,
            offset: self.offset,
            waiting: self.waiting.len(),
        }
    }

    /// Goes back to a place before.
    pub(crate) fn back_to(&mut self, mark: Mark)
        ensures { self.new ≡ record self.old
            { last = mark.last; offset = mark.offset; waiting = take mark.waiting self.old.waiting } }
    {
        self.last = mark.last;
        self.offset = mark.offset;
        self.waiting.truncate(mark.waiting);
    }

    /// Hands out the message that waits first.
    pub(crate) fn take(&mut self) -> Option<Msg>
        ensures { MatchOption result ((self.old.waiting ≡ []) × (self.new ≡ self.old))
            (λ m. self.old ≡ record self.new { waiting = m ∷ self.new.waiting }) }
    {
        self.waiting.pop_front()
    }

    // What the stream rule says against the message.
    fn rule_fault(&self, message: &Msg) -> Option<FrameBad>
        ensures { result ≡ rule_fault self.now.last self.now.offset message.now }
    {
        let offset = self.offset;
        match self.last {
            None if is_intro(&message.body) => None,
            None => Some(FrameBad::Order { offset }),
            Some(last) if message.at < last => Some(FrameBad::Falls { offset }),
            Some(_) if is_intro(&message.body) => Some(FrameBad::Order { offset }),
            Some(_) => None,
        }
    }

    // The message that the bytes spell.
    fn message(&self, alloc: Global, body: &[u8]) -> Result<Msg, FrameBad>
        ensures ok { IfOk result (λ m. Spells self.now.kind m body.now) }
        ensures err { IfErr result (λ b. b ≢ bad.NoMemory
            → IsBadMessage self.now.kind self.now.last self.now.offset body.now b) }
    {
        match decode(alloc, self.kind, body) {
            Ok(message) => Ok(message),
            Err(bad) => Err(frame_refusal(self.offset, bad)),
        }
    }

    /// Reads a frame's message, which then waits.
    pub(crate) fn accept(&mut self, alloc: Global, body: &[u8]) -> Result<(), FrameBad>
        requires { self.old.offset + (4 + length body.now) < 2 ^ 64 }
        ensures ok { OnOk result (Accepts self.old body.now self.new) }
        ensures unchanged { IfErr result (λ _. self.new ≡ self.old) }
        ensures err { IfErr result (λ b. b ≢ bad.NoMemory
            → IsBadMessage self.old.kind self.old.last self.old.offset body.now b) }
    {
        let message = self.message(alloc, body)?;
        if let Some(bad) = self.rule_fault(&message) {
            return Err(bad);
        }
        let at = message.at;
        if self.waiting.push_back(message).is_err() {
            return Err(FrameBad::NoMemory);
        }
        self.last = Some(at);
        self.offset += (HEADER + body.len()) as u64;
        Ok(())
    }

    /// Reads the whole frames at the front of the bytes, and says where they end.
    pub(crate) fn read(&mut self, alloc: Global, bytes: &[u8]) -> Result<usize, FrameBad>
        requires { self.old.offset + length bytes.now < 2 ^ 64 }
        ensures kind { self.new.kind ≡ self.old.kind }
        ensures keeps { take (length self.old.waiting) self.new.waiting ≡ self.old.waiting }
        ensures bound { IfOk result (λ n. n ≤ length bytes.now) }
        ensures ok { (given : List Msg) (before : List ℕ) → Reached self.old given before
            → IfOk result (λ n. ReadsTo self.new given before bytes.now n) }
        ensures err { (given : List Msg) (before : List ℕ) → Reached self.old given before
            → IfErr result (λ b. b ≢ bad.NoMemory → StopsIn self.new given before bytes.now b) }
    {
        let mut at = 0;
        loop {
            match start_of(&bytes[at..]) {
                Start::Open => return Ok(at),
                Start::Wrong => {
                    return Err(FrameBad::Length {
                        offset: self.offset,
                    });
                }
                Start::Whole(size) => {
                    self.accept(alloc, &bytes[at + HEADER..at + HEADER + size])?;
                    at += HEADER + size;
                }
            }
        }
    }
}
