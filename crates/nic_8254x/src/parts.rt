ghost use Rattle.std.specs.Prelude.{ℕ, ◌≡◌, ◌≤◌, ◌^◌, ◌↔◌, IfOk, IsOk, Err};
ghost use Rattle.cs_base.specs.declared.configs.NicConfig.{NicConfig};
ghost use Rattle.device_api.specs.declared.parts_bad.PartsBad.TheVariants.{Invalid};
ghost use Rattle.nic_8254x.specs.Sound.{IsSettledAdapter};
ghost use Rattle.nic_8254x.specs.Parts.{resumed, nic_parts, IsValidFor, IsOf, MakeAgain};

use crate::frames::Frames;
use crate::nic::Nic;
use crate::state::{RxStep, TxStep};
use cs_base::configs::NicConfig;
use cs_base::{Items, NoMemory, Octets, Time};
use device_api::PartsBad;
use nic_regs::{Regs, RegsParts};
use std::alloc::Global;

/// What is kept of an adapter beside its configuration, so that it can be made again.
///
/// The parts are valid where the registers' are; where at most 64 frames wait, each of 14 to 1,514 bytes; where `told` is
/// the interrupt line; and where the engines fit: a frame waits where `from` isn't 0 or `rx` isn't Idle, `from` is below
/// the first frame's length, each `part` is 1 to 16,384 bytes and within it after `from`, `done` is below its part or its
/// descriptor's length, and the ids are below `next_id` and differ.
#[derive(Debug, Drop)]
pub struct NicParts {
    pub regs: RegsParts,
    /// The frames that wait to be received, the first one first.
    pub queue: Items<Octets>,
    /// The id of the next access to the host.
    pub next_id: u64,
    /// The level of the interrupt line that was last told; true is high.
    pub told: bool,
    /// The bytes of the first frame that earlier descriptors hold.
    pub from: u32,
    pub rx: RxStep,
    /// What was read so far of the frame that is sent.
    pub work: Octets,
    pub tx: TxStep,
}

impl Nic {
    /// Keeps the adapter as parts, as it stands before any event at `at` or later. It takes memory for the frames.
    pub fn into_parts(self, alloc: Global, _at: Time) -> Result<NicParts, NoMemory>
        requires settled_then { IsSettledAdapter self _at }
        requires in_run { _at ≤ 10 ^ 15 }
        ensures value { IfOk result (λ parts. parts ≡ nic_parts self) }
        // With the configuration that the adapter was started with, its parts are valid, and make the same adapter again.
        ensures valid { IfOk result (λ parts. (config : NicConfig) → IsValidFor config parts) }
        ensures again { IfOk result (λ parts. MakeAgain parts self) }
    {
        let Nic {
            regs,
            queue,
            filled,
            receiving,
            work,
            sending,
            next_id,
            told,
        } = self;
        Ok(NicParts {
            regs: regs.into_parts(),
            queue: queue.into_items(alloc)?,
            next_id,
            told,
            from: filled,
            rx: receiving,
            work,
            tx: sending,
        })
    }

    /// The adapter that the parts make, before any event at `at` or later. The parts are Invalid exactly where they
    /// aren't valid.
    pub fn from_parts(
        alloc: Global,
        config: &NicConfig,
        at: Time,
        parts: NicParts,
    ) -> Result<Nic, PartsBad>
        requires { at ≤ 10 ^ 15 }
        ensures state { IfOk result (λ nic. nic ≡ resumed config.now parts) }
        ensures of_config { IfOk result (λ nic. IsOf config.now nic) }
        ensures settled { IfOk result (λ nic. (x : ℕ) → at ≤ x → IsSettledAdapter nic x) }
        ensures valid { IsOk result → IsValidFor config.now parts }
        ensures invalid { (result ≡ Err Invalid) ↔ (¬ IsValidFor config.now parts) }
    {
        let Some(regs) = Regs::from_parts(config.mac, parts.regs) else {
            return Err(PartsBad::Invalid);
        };
        if !parts.stands(&regs) {
            return Err(PartsBad::Invalid);
        }
        Ok(Nic {
            regs,
            queue: Frames::from_slice(alloc, parts.queue.as_slice())?,
            filled: parts.from,
            receiving: parts.rx,
            work: parts.work,
            sending: parts.tx,
            next_id: parts.next_id,
            told: parts.told,
        })
    }
}
