ghost use Rattle.std.specs.Prelude.{◌≡◌, ◌≤◌, ◌<◌, ◌+◌, ◌^◌, ◌++◌, length, IfOk, OnOk, OnErr, IsTrue, IsFalse};
ghost use Rattle.ram_map.specs.Sizes.{IsSize};
ghost use Rattle.ram_map.specs.Contents.{filled, is_within, bytes_at, number_at, loaded, overwritten, copied_in, stored};

use cs_base::{NoMemory, Octets};
use std::alloc::Global;
use std::marker::Model;

/// RAM, seen as the list of its bytes.
#[derive(Debug, Drop)]
pub struct Ram {
    bytes: Vec<u8>,
}

impl Model for Ram {
    ghost use Rattle.std.specs.Prelude.{List, ℕ};

    ghost Value = { List ℕ };

    ghost view = { λ ram. ram.bytes.items };
}

impl Ram {
    /// RAM of `len` bytes: an image of no more bytes, and then zeros.
    pub fn new(alloc: Global, len: u32, image: &[u8]) -> Result<Ram, NoMemory>
        requires { length image.now ≤ len }
        ensures { IfOk result (λ ram. ram ≡ filled len image.now) }
    {
        let mut bytes = Vec::with_capacity(alloc, len as usize)?;
        bytes.extend_from_slice(image)?;
        bytes.resize(len as usize, 0)?;
        Ok(Ram { bytes })
    }

    /// RAM of these bytes.
    pub fn from_octets(bytes: Octets) -> Ram
        ensures { result ≡ bytes }
    {
        Ram {
            bytes: bytes.into_vec(),
        }
    }

    pub fn into_octets(self) -> Octets
        ensures { result ≡ self }
    {
        let Ram { bytes } = self;
        Octets::from_vec(bytes)
    }

    pub fn len(&self) -> usize
        ensures { result ≡ length self.now }
    {
        self.bytes.len()
    }

    /// Whether all `size` bytes from `at` on are there.
    #[inline(always)]
    pub fn holds(&self, at: u64, size: u32) -> bool
        ensures { result ≡ is_within self.now at size }
    {
        match at.checked_add(u64::from(size)) {
            Some(end) => end <= self.bytes.len() as u64,
            None => false,
        }
    }

    /// The number in 1, 2 or 4 bytes; `None` exactly where one of them is not there.
    #[inline(always)]
    pub fn load(&self, at: u64, size: u32) -> Option<u32>
        requires { IsSize size }
        ensures { result ≡ loaded self.now at size }
    {
        if !self.holds(at, size) {
            return None;
        }
        Some(number_at(self.bytes.as_slice(), at as usize, size))
    }

    /// Stores the low 1, 2 or 4 bytes of a number; false exactly where one of their places is not there, and then nothing
    /// is stored.
    #[inline(always)]
    pub fn store(&mut self, at: u64, size: u32, value: u32) -> bool
        requires { IsSize size }
        ensures answer { result ≡ is_within self.old at size }
        ensures after { self.new ≡ stored self.old at size value }
    {
        if !self.holds(at, size) {
            return false;
        }
        let at = at as usize;
        match size {
            1 => self.put(at, &[(value & 0xFF) as u8]),
            2 => self.put(at, &((value & 0xFFFF) as u16).to_le_bytes()),
            _ => self.put(at, &value.to_le_bytes()),
        }
        true
    }

    /// Appends `len` bytes from `at` on; false exactly where one of them is not there, and then nothing is appended.
    pub fn copy_out(&self, at: u64, len: u32, out: &mut Octets) -> Result<bool, NoMemory>
        ensures answer { IfOk result (λ done. done ≡ is_within self.now at len) }
        ensures done { IfOk result (λ done. IsTrue done → out.new ≡ out.old ++ bytes_at self.now at len) }
        ensures out_of_range { IfOk result (λ done. IsFalse done → out.new ≡ out.old) }
        ensures err { OnErr result (out.new ≡ out.old) }
    {
        if !self.holds(at, len) {
            return Ok(false);
        }
        let at = at as usize;
        out.append(&self.bytes[at..at + len as usize])?;
        Ok(true)
    }

    /// Stores bytes from `at` on; false exactly where one of their places is not there, and then nothing is stored. There
    /// are fewer than 2^32 bytes.
    pub fn copy_in(&mut self, at: u64, bytes: &[u8]) -> bool
        requires { length bytes.now < 2 ^ 32 }
        ensures answer { result ≡ is_within self.old at (length bytes.now) }
        ensures after { self.new ≡ copied_in self.old at bytes.now }
    {
        if !self.holds(at, bytes.len() as u32) {
            return false;
        }
        self.put(at as usize, bytes);
        true
    }

    #[inline(always)]
    fn put(&mut self, at: usize, new: &[u8])
        requires { at + length new.now ≤ length self.old }
        ensures { self.new ≡ overwritten self.old at new.now }
    {
        self.bytes.as_mut_slice()[at..at + new.len()].copy_from_slice(new);
    }
}

/// The number in 1, 2 or 4 bytes, the lowest byte first.
#[inline(always)]
pub fn number_at(bytes: &[u8], at: usize, size: u32) -> u32
    requires size { IsSize size }
    requires within { at + size ≤ length bytes.now }
    ensures { result ≡ number_at bytes.now at size }
{
    match size {
        1 => byte_at(bytes, at),
        2 => half_at(bytes, at),
        _ => word_at(bytes, at),
    }
}

#[tactic(auto, unfolding(crate::specs::Contents::number_at))]
#[inline(always)]
fn byte_at(bytes: &[u8], at: usize) -> u32
    requires { at + 1 ≤ length bytes.now }
    ensures { result ≡ number_at bytes.now at 1 }
{
    u32::from(bytes[at])
}

#[tactic(auto, unfolding(crate::specs::Contents::number_at))]
#[inline(always)]
fn half_at(bytes: &[u8], at: usize) -> u32
    requires { at + 2 ≤ length bytes.now }
    ensures { result ≡ number_at bytes.now at 2 }
{
    let mut half = [0; 2];
    half.copy_from_slice(&bytes[at..at + 2]);
    u32::from(u16::from_le_bytes(half))
}

#[tactic(auto, unfolding(crate::specs::Contents::number_at))]
#[inline(always)]
fn word_at(bytes: &[u8], at: usize) -> u32
    requires { at + 4 ≤ length bytes.now }
    ensures { result ≡ number_at bytes.now at 4 }
{
    let mut word = [0; 4];
    word.copy_from_slice(&bytes[at..at + 4]);
    u32::from_le_bytes(word)
}
