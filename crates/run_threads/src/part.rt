ghost use Rattle.std.specs.Prelude.{◌≡◌, slice_get};
ghost use Rattle.sync_rule.specs.Next.{HasEnded};
ghost use Rattle.run_threads.specs.Parts.{PartFits, PartDid, PartFailed, number_or};

use cs_base::PeerReason;
use cs_base::items::Items;
use device_api::Device;
use slot_queue::{RxEnd, TxEnd};
use std::alloc::Global;
use sync_drive::Driver;
use sync_rule::RunBad;
use worker_rounds::{Member, MeshBad};

/// A component on a worker.
#[derive(Drop)]
pub struct Part<'q, V> {
    /// Its number.
    pub(crate) component: u32,
    pub(crate) driver: Driver<V, TxEnd<'q>, RxEnd<'q>>,
    /// The numbers of the channels out of its ports, and of those into them.
    pub(crate) departures: Items<u32>,
    pub(crate) arrivals: Items<u32>,
}

/// The number at a place, or 0 where there is none.
fn number_at(numbers: &[u32], place: u32) -> u32
    ensures { result ≡ number_or (slice_get numbers.now place) }
{
    match numbers.get(place as usize) {
        Some(number) => *number,
        None => 0,
    }
}

impl<'q, V: Device> Member for Part<'q, V> {
    ghost use Rattle.sync_rule.specs.Next.{HasEnded};
    ghost use Rattle.run_threads.specs.Parts.{PartFits, PartDid, PartFailed};

    ghost fits = { PartFits V.behaviour V.settled };

    ghost does = { PartDid V.behaviour V.settled };

    ghost fails = { PartFailed };

    ghost ended = { λ part. HasEnded V.behaviour part.driver.runner };

    ghost turns = { λ part. part.driver.turns };

    ghost still = { λ part. part.driver.still };

    fn turn(&mut self, alloc: Global) -> Result<(), MeshBad> {
        match self.driver.turn(alloc) {
            Ok(_) => Ok(()),
            Err(RunBad::WrongIntro { port, .. }) => Err(MeshBad::Peer {
                channel: number_at(self.arrivals.as_slice(), port),
                offset: 0,
                reason: PeerReason::Intro,
            }),
            Err(RunBad::NoMemory) => Err(MeshBad::NoMemory),
        }
    }

    fn still(&self) -> u32 {
        self.driver.still()
    }

    fn ended(&self) -> bool {
        self.driver.runner().ended()
    }

    ghost keeps = { λ old new did fit. did.fit };

    ghost counts = { λ old new did. did.turns };
}
