ghost use Rattle.std.specs.Prelude.{◌≡◌};
ghost use Rattle.pcie_proto.specs.Regions.{IsBar};

use std::marker::Model;

/// The number of a region of a device's registers. There is one region, number 0.
#[derive(Clone, Copy, Debug, PartialEq, Eq)]
pub struct Bar {
    number: u8,
}

impl Model for Bar {
    ghost use Rattle.std.specs.Prelude.{ℕ};
    ghost use Rattle.pcie_proto.specs.Regions.{IsBar};

    ghost Value = { ℕ };

    ghost view = { λ bar. bar.number };

    ghost invariant = { λ bar. IsBar bar.number };

    ghost inverse = { λ number. record { number = number } };
}

impl Bar {
    /// The one region.
    pub fn first() -> Bar
        ensures { result ≡ 0 }
    {
        Bar { number: 0 }
    }

    /// The region's number.
    pub fn number(self) -> u8
        ensures number { result ≡ self }
        ensures valid { IsBar self }
    {
        self.number
    }
}
