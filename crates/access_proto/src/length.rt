ghost use Rattle.std.specs.Prelude.{◌≡◌, ◌↔◌, IsSome, IfSome};
ghost use Rattle.access_proto.specs.Lengths.{IsLength};

use std::marker::Model;

const LONGEST: u32 = 2048;

/// How many bytes an access is of: 1 to 2,048.
#[derive(Clone, Copy, Debug, PartialEq, Eq)]
pub struct Length {
    bytes: u32,
}

impl Model for Length {
    ghost use Rattle.std.specs.Prelude.{ℕ};
    ghost use Rattle.access_proto.specs.Lengths.{IsLength};

    ghost Value = { ℕ };

    ghost view = { λ length. length.bytes };

    ghost invariant = { λ length. IsLength length.bytes };

    ghost inverse = { λ bytes. record { bytes = bytes } };
}

impl Length {
    /// The length of so many bytes; None where there are none, or more than 2,048.
    pub fn new(bytes: u32) -> Option<Length>
        ensures valid { IsSome result ↔ IsLength bytes }
        ensures bytes { IfSome result (λ length. length ≡ bytes) }
    {
        if 1 <= bytes && bytes <= LONGEST {
            Some(Length { bytes })
        } else {
            None
        }
    }

    /// The number of bytes.
    pub fn bytes(self) -> u32
        ensures bytes { result ≡ self }
        ensures valid { IsLength self }
    {
        self.bytes
    }
}
