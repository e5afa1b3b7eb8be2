use std::alloc::Global;
use worker_rounds::{Member, MeshBad};

/// A member of a worker: a component, or an end of a channel that goes over a byte stream.
#[derive(Drop)]
pub enum Hand<C, O, I> {
    Component(C),
    Sending(O),
    Receiving(I),
}

impl<C: Member, O: Member, I: Member> Member for Hand<C, O, I> {
    ghost use Rattle.crew_members.specs.Hands.{HandIs, HandDid, HandFailed, hand_number};
    ghost use Rattle.crew_members.specs.HandLaws.{hand_keeps, hand_counts};

    ghost fits = { HandIs C.fits O.fits I.fits };

    ghost does = { HandDid C.does O.does I.does };

    ghost fails = { HandFailed C.fails O.fails I.fails };

    ghost ended = { HandIs C.ended O.ended I.ended };

    ghost turns = { hand_number C.turns O.turns I.turns };

    ghost still = { hand_number C.still O.still I.still };

    fn turn(&mut self, alloc: Global) -> Result<(), MeshBad> {
        match self {
            Hand::Component(component) => component.turn(alloc),
            Hand::Sending(end) => end.turn(alloc),
            Hand::Receiving(end) => end.turn(alloc),
        }
    }

    fn still(&self) -> u32 {
        match self {
            Hand::Component(component) => component.still(),
            Hand::Sending(end) => end.still(),
            Hand::Receiving(end) => end.still(),
        }
    }

    fn ended(&self) -> bool {
        match self {
            Hand::Component(component) => component.ended(),
            Hand::Sending(end) => end.ended(),
            Hand::Receiving(end) => end.ended(),
        }
    }

    ghost keeps = { λ old new did fit. hand_keeps C.fits O.fits I.fits C.does O.does I.does C.keeps O.keeps I.keeps old new did fit };

    ghost counts = { λ old new did. hand_counts C.turns O.turns I.turns C.does O.does I.does C.counts O.counts I.counts old new did };
}
