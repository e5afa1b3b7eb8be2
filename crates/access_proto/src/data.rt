ghost use Rattle.std.specs.Prelude.{◌≡◌, ◌↔◌, length, IsSome, IfSome, IfOk};
ghost use Rattle.access_proto.specs.Lengths.{IsLength};

use crate::length::Length;
use cs_base::items::Octets;
use cs_base::no_memory::NoMemory;
use std::alloc::Global;
use std::marker::Model;

const LONGEST: usize = 2048;

/// The bytes that an access carries: 1 to 2,048.
#[derive(Debug, Drop)]
pub struct Data {
    bytes: Octets,
}

impl Model for Data {
    ghost use Rattle.std.specs.Prelude.{List, ℕ, length};
    ghost use Rattle.access_proto.specs.Lengths.{IsLength};

    ghost Value = { List ℕ };

    ghost view = { λ d. d.bytes };

    ghost invariant = { λ d. IsLength (length d.bytes) };

    ghost inverse = { λ bytes. record { bytes = bytes } };
}

impl Data {
    /// The bytes as those of an access; None where there are none, or more than 2,048.
    pub fn new(bytes: Octets) -> Option<Data>
        ensures valid { IsSome result ↔ IsLength (length bytes) }
        ensures bytes { IfSome result (λ d. d ≡ bytes) }
    {
        if 1 <= bytes.len() && bytes.len() <= LONGEST {
            Some(Data { bytes })
        } else {
            None
        }
    }

    /// A copy of bytes, which are as many as an access may carry.
    pub fn from_slice(alloc: Global, bytes: &[u8]) -> Result<Data, NoMemory>
        requires { IsLength (length bytes.now) }
        ensures { IfOk result (λ d. d ≡ bytes.now) }
    {
        let mut copied = Octets::new(alloc);
        copied.append(bytes)?;
        Ok(Data { bytes: copied })
    }

    /// The bytes.
    pub fn as_slice(&self) -> &[u8]
        ensures bytes { result.now ≡ self.now }
        ensures valid { IsLength (length self.now) }
    {
        self.bytes.as_slice()
    }

    /// How many bytes there are.
    pub fn len(&self) -> Length
        ensures { result ≡ length self.now }
    {
        Length::new(self.bytes.len() as u32).unwrap()
    }

    /// Gives the bytes back.
    pub fn into_bytes(self) -> Octets
        ensures bytes { result ≡ self }
        ensures valid { IsLength (length self) }
    {
        self.bytes
    }

    /// The same bytes once more.
    pub fn copy(&self) -> Result<Data, NoMemory>
        ensures { IfOk result (λ copied. copied ≡ self.now) }
    {
        Ok(Data {
            bytes: self.bytes.copy()?,
        })
    }
}
