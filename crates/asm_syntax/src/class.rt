//! Classes of bytes, and the words that they make.
ghost use Rattle.std.specs.Prelude.{◌≡◌, ◌≤◌, length, take, drop};
ghost use Rattle.std.specs.List.{prefix_len};
ghost use Rattle.asm_syntax.specs.Bytes.{is_in, front, behind, are_all, begins_with, is_name};

/// A class of bytes.
#[derive(Clone, Copy, Debug)]
pub(crate) enum Class {
    /// Spaces and tabs.
    Blank,
    /// What a name may begin with: letters and `_`.
    NameStart,
    /// What labels, registers and CSRs are written with: letters, digits and `_`.
    Name,
    /// What the names of statements are written with: also `.`.
    Mnemonic,
    /// What words are written with: also `-`.
    Word,
    /// What a line may have outside its comment, but for a label's colon.
    Plain,
    /// All but `#`, which begins a comment.
    Code,
}

impl Class {
    pub fn has(self, byte: u8) -> bool
        ensures { result ≡ is_in self byte }
    {
        match self {
            Class::Blank => matches!(byte, b' ' | b'\t'),
            Class::NameStart => matches!(byte, b'A'..=b'Z' | b'a'..=b'z' | b'_'),
            Class::Name => matches!(byte, b'A'..=b'Z' | b'a'..=b'z' | b'0'..=b'9' | b'_'),
            Class::Mnemonic =>
                matches!(byte, b'A'..=b'Z' | b'a'..=b'z' | b'0'..=b'9' | b'_' | b'.'),
            Class::Word =>
                matches!(byte, b'A'..=b'Z' | b'a'..=b'z' | b'0'..=b'9' | b'_' | b'.' | b'-'),
            Class::Plain => {
                matches!(byte, b'A'..=b'Z' | b'a'..=b'z' | b'0'..=b'9' | b'_' | b'.' | b'-')
                    || matches!(byte, b',' | b'(' | b')' | b' ' | b'\t')
            }
            Class::Code => byte != b'#',
        }
    }

    fn run(self, bytes: &[u8]) -> usize
        ensures value { result ≡ prefix_len (is_in self) bytes.now }
        ensures within { result ≤ length bytes.now }
    {
        bytes.iter().take_while(|byte| self.has(**byte)).count()
    }

    /// The bytes of the class at the beginning, and what follows them.
    pub fn split(self, bytes: &[u8]) -> (&[u8], &[u8])
        ensures front { result.0.now ≡ front self bytes.now }
        ensures behind { result.1.now ≡ behind self bytes.now }
    {
        bytes.split_at(self.run(bytes))
    }

    /// Whether all bytes are of the class.
    pub fn has_all(self, bytes: &[u8]) -> bool
        ensures { result ≡ are_all self bytes.now }
    {
        bytes.iter().all(|byte| self.has(*byte))
    }
}

/// Whether a word is letters, digits and `_`, not beginning with a digit.
pub(crate) fn is_name(word: &[u8]) -> bool
    ensures { result ≡ is_name word.now }
{
    let begins = match word.first() {
        Some(byte) => Class::NameStart.has(*byte),
        None => false,
    };
    begins && Class::Name.has_all(word)
}
