ghost use Rattle.std.specs.Prelude.{◌≡◌, List, ℕ, IsTrue, ◌↔◌, length};
ghost use Rattle.cs_base.specs.Names.{is_individual, IsAddress};

use std::marker::Model;

/// An Ethernet address (IEEE 802), its six bytes in the order of transmission.
#[derive(Clone, Copy, Debug, PartialEq, Eq, PartialOrd, Ord, Hash)]
pub struct Mac(pub [u8; 6]);

impl Model for Mac {
    ghost use Rattle.std.specs.Prelude.{List, ℕ};
    ghost use Rattle.cs_base.specs.Names.{IsAddress};

    ghost Value = { List ℕ };

    ghost view = { λ m. m.0 };

    ghost invariant = { λ m. IsAddress m.0 };

    ghost inverse = { λ bytes. record { 0 = bytes } };
}

impl Mac {
    /// The six bytes.
    pub fn bytes(self) -> [u8; 6]
        ensures bytes { result ≡ self }
        ensures address { IsAddress self }
    {
        self.0
    }

    /// Whether the address is of one station: bit 0 of the first byte, the group bit, is 0.
    pub fn is_individual(self) -> bool
        ensures { result ≡ is_individual self }
    {
        self.0[0] % 2 == 0
    }
}
