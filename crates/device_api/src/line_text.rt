ghost use Rattle.std.specs.Prelude.{◌≡◌, ◌+◌, ◌++◌, ◌≤◌, ◌^◌, List, ℕ, [], length, take, decimal, IfOk, OnOk, OnErr};
ghost use Rattle.cs_base.specs.Texts.{hexadecimal};

use cs_base::items::Octets;
use cs_base::no_memory::NoMemory;
use cs_base::numbers;
use itoa::Buffer;
use std::alloc::Global;
use std::marker::Model;

/// How many bytes of a line stand in place, without a block of memory of their own.
const SHORT: usize = 22;

/// The first bytes are the text.
#[derive(Debug, Drop)]
pub struct Short {
    len: u8,
    bytes: [u8; SHORT],
}

/// Where the bytes of a line stand.
#[derive(Debug, Drop)]
pub enum Stored {
    InPlace(Short),
    Apart(Box<Octets>),
}

/// The text of a line, without a line feed. Up to 22 bytes take no block of memory.
#[derive(Debug, Drop)]
pub struct LineText {
    alloc: Global,
    stored: Stored,
}

impl Model for LineText {
    ghost use Rattle.std.specs.Prelude.{List, ℕ};
    ghost use Rattle.device_api.specs.LineBytes.{bytes_of, IsSound};

    ghost Value = { List ℕ };

    ghost view = { λ text. bytes_of text.stored };

    ghost invariant = { λ text. IsSound text.stored };
}

/// Puts bytes behind the first `len`, where there is room for them.
fn put(bytes: &mut [u8], len: usize, more: &[u8])
    requires room { len + length more.now ≤ length bytes.old }
    ensures text { take (len + length more.now) bytes.new ≡ take len bytes.old ++ more.now }
    ensures same_room { length bytes.new ≡ length bytes.old }
{
    bytes[len..len + more.len()].copy_from_slice(more);
}

impl LineText {
    /// No bytes yet.
    pub fn new(alloc: Global) -> LineText
        ensures { result ≡ [] }
    {
        LineText {
            alloc,
            stored: Stored::InPlace(Short {
                len: 0,
                bytes: [0; SHORT],
            }),
        }
    }

    pub fn as_slice(&self) -> &[u8]
        ensures { result.now ≡ self.now }
    {
        match &self.stored {
            Stored::InPlace(short) => &short.bytes[0..usize::from(short.len)],
            Stored::Apart(octets) => octets.as_slice(),
        }
    }

    pub fn len(&self) -> usize
        ensures { result ≡ length self.now }
    {
        self.as_slice().len()
    }

    /// Adds bytes at the end. Where memory is wanting, the text stays as it was.
    pub fn append(&mut self, more: &[u8]) -> Result<(), NoMemory>
        ensures ok { OnOk result (self.new ≡ self.old ++ more.now) }
        ensures err { OnErr result (self.new ≡ self.old) }
    {
        match &mut self.stored {
            Stored::InPlace(short) => {
                let len = usize::from(short.len);
                if more.len() <= SHORT - len {
                    put(&mut short.bytes, len, more);
                    short.len += more.len() as u8;
                    Ok(())
                } else {
                    self.append_apart(more)
                }
            }
            Stored::Apart(octets) => octets.append(more),
        }
    }

    /// Adds bytes at the end, and puts the text into a block of its own.
    fn append_apart(&mut self, more: &[u8]) -> Result<(), NoMemory>
        ensures ok { OnOk result (self.new ≡ self.old ++ more.now) }
        ensures err { OnErr result (self.new ≡ self.old) }
    {
        let octets = joined(self.alloc, self.as_slice(), more)?;
        self.stored = Stored::Apart(octets);
        Ok(())
    }

    /// Adds a number's decimal digits, without leading zeros. Where memory is wanting, the text stays as it was.
    pub fn decimal(&mut self, n: u64) -> Result<(), NoMemory>
        ensures ok { OnOk result (self.new ≡ self.old ++ decimal n) }
        ensures err { OnErr result (self.new ≡ self.old) }
    {
        self.append(Buffer::new().format(n).as_bytes())
    }

    /// Adds `0x` and a number's lower-case hexadecimal digits, without leading zeros. Where memory is wanting, the
    /// text stays as it was.
    pub fn hexadecimal(&mut self, n: u64) -> Result<(), NoMemory>
        ensures ok { OnOk result (self.new ≡ self.old ++ hexadecimal n) }
        ensures err { OnErr result (self.new ≡ self.old) }
    {
        let mut digits = Octets::new(self.alloc);
        numbers::hexadecimal(n, &mut digits)?;
        self.append(digits.as_slice())
    }
}

/// Bytes and then more bytes, in a block of their own.
fn joined(alloc: Global, bytes: &[u8], more: &[u8]) -> Result<Box<Octets>, NoMemory>
    ensures { IfOk result (λ octets. octets.value ≡ bytes.now ++ more.now) }
{
    let mut octets = Octets::new(alloc);
    octets.append(bytes)?;
    octets.append(more)?;
    Ok(Box::new(alloc, octets)?)
}
