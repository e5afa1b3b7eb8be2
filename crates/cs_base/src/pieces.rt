ghost use Rattle.std.specs.Prelude.{◌≡◌};
ghost use Rattle.cs_base.specs.WireForms.{Pieces, next_size, pieces_left, after_call};

use crate::items::Items;
use std::marker::Model;

/// The most bytes that each call on a wire in memory moves, one number a call.
#[derive(Debug, Drop)]
pub(crate) struct PieceSizes {
    sizes: Items<usize>,
    used: usize,
}

impl Model for PieceSizes {
    ghost use Rattle.cs_base.specs.WireForms.{Pieces};

    ghost Value = { Pieces };

    ghost view = { λ p. record { sizes = p.sizes; used = p.used } };
}

impl PieceSizes {
    /// None of these numbers is used yet.
    pub(crate) fn new(sizes: Items<usize>) -> PieceSizes
        ensures { result ≡ record { sizes = sizes; used = 0 } }
    {
        PieceSizes { sizes, used: 0 }
    }

    /// The most that the next call may move; nothing where no number is left.
    pub(crate) fn next_size(&self) -> usize
        ensures { result ≡ next_size self.now }
    {
        match self.sizes.as_slice().get(self.used) {
            Some(size) => *size,
            None => 0,
        }
    }

    /// Whether a number is left.
    pub(crate) fn is_left(&self) -> bool
        ensures { result ≡ pieces_left self.now }
    {
        self.used < self.sizes.len()
    }

    /// Counts a call.
    pub(crate) fn count_call(&mut self)
        ensures { self.new ≡ after_call self.old }
    {
        if self.used < self.sizes.len() {
            self.used += 1;
        }
    }
}
