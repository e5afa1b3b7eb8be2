ghost use Rattle.std.specs.Prelude.{◌≡◌, ◌↔◌, IsSome, IfSome, true};
ghost use Rattle.std.specs.List.{list_all};
ghost use Rattle.cs_base.specs.Names.{is_name, is_name_byte};

use crate::limits::LONGEST_NAME;
use std::marker::Model;

/// The name of a component: 1 to 16 bytes of `a` to `z`, `0` to `9` and `_`.
#[derive(Clone, Copy, Debug, PartialEq, Eq, PartialOrd, Ord, Hash)]
pub struct Name {
    bytes: [u8; 16],
    count: u8,
}

impl Model for Name {
    ghost use Rattle.std.specs.Prelude.{List, ℕ, take, length};
    ghost use Rattle.cs_base.specs.NameBytes.{IsStored, filled_up, bytes_back, length_back};

    ghost Value = { List ℕ };

    ghost view = { λ n. take n.count n.bytes };

    ghost invariant = { λ n. IsStored n.bytes n.count };

    ghost inverse = { λ name. record { bytes = filled_up name; count = length name } };

    ghost inverse_ok = { λ n h i. record {
      bytes = bytes_back n.bytes n.count h i;
      count = length_back n.bytes n.count h i;
    } };
}

fn is_name_byte(byte: u8) -> bool
    ensures { result ≡ is_name_byte byte }
{
    matches!(byte, b'a'..=b'z' | b'0'..=b'9' | b'_')
}

fn are_name_bytes(bytes: &[u8]) -> bool
    ensures { result ≡ list_all is_name_byte bytes.now }
{
    bytes.iter().all(|b| is_name_byte(*b))
}

fn is_name(bytes: &[u8]) -> bool
    ensures { result ≡ is_name bytes.now }
{
    1 <= bytes.len() && bytes.len() <= LONGEST_NAME && are_name_bytes(bytes)
}

impl Name {
    /// The name of these bytes; None exactly where they are no name. It takes no memory.
    pub fn new(bytes: &[u8]) -> Option<Name>
        ensures valid { IsSome result ↔ (is_name bytes.now ≡ true) }
        ensures bytes { IfSome result (λ name. name ≡ bytes.now) }
    {
        if !is_name(bytes) {
            return None;
        }
        let mut stored = [0; LONGEST_NAME];
        stored[..bytes.len()].copy_from_slice(bytes);
        Some(Name {
            bytes: stored,
            count: bytes.len() as u8,
        })
    }

    /// The bytes of the name.
    pub fn as_slice(&self) -> &[u8]
        ensures bytes { result.now ≡ self.now }
        ensures named { is_name self.now ≡ true }
    {
        &self.bytes[..self.count as usize]
    }
}
