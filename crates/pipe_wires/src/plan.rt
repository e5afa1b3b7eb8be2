ghost use Rattle.std.specs.Prelude.{◌≡◌, [], None};

use cs_base::items::Items;
use std::alloc::Global;

/// What is planned for a pipe.
#[derive(Debug, Drop)]
pub struct PipePlan {
    /// The most bytes that a receipt gives.
    pub piece: usize,
    /// Whether the receiving end has nothing to give yet after each receipt that gave bytes.
    pub pauses: bool,
    /// The numbers of the sends that fail, counted from 0.
    pub failed_sends: Items<u64>,
    /// The numbers of the receipts that fail, counted from 0.
    pub failed_receipts: Items<u64>,
    /// The place of the byte that is changed, in bytes from the start of the stream.
    pub changed: Option<u64>,
    /// The place at which the stream ends.
    pub end: Option<u64>,
}

impl PipePlan {
    /// A pipe that gives what it took, in pieces as large as there is room for.
    pub fn plain(alloc: Global) -> PipePlan
        ensures sends { result.failed_sends ≡ [] }
        ensures receipts { result.failed_receipts ≡ [] }
        ensures changed { result.changed ≡ None }
        ensures end { result.end ≡ None }
    {
        PipePlan {
            piece: usize::MAX,
            pauses: false,
            failed_sends: Items::new(alloc),
            failed_receipts: Items::new(alloc),
            changed: None,
            end: None,
        }
    }
}
