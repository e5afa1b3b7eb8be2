ghost use Rattle.std.specs.Prelude.{◌≡◌, ◌<◌, ◌++◌, OnOk, OnErr, IfSome, false, decimal};
ghost use Rattle.std.specs.Fmt.{digit_glyph};
ghost use Rattle.cs_base.specs.Texts.{hexadecimal, mac_text, decimal_value, hexadecimal_value};

use crate::items::Octets;
use crate::mac::Mac;
use crate::no_memory::NoMemory;
use itoa::Buffer;

/// Appends a number's decimal digits, without leading zeros. Where memory is wanting, nothing is appended.
pub fn decimal(n: u64, out: &mut Octets) -> Result<(), NoMemory>
    ensures ok { OnOk result (out.new ≡ out.old ++ decimal n) }
    ensures err { OnErr result (out.new ≡ out.old) }
{
    out.append(Buffer::new().format(n).as_bytes())
}

/// Appends `0x` and a number's lower-case hexadecimal digits, without leading zeros. Where memory is wanting,
/// nothing is appended.
pub fn hexadecimal(n: u64, out: &mut Octets) -> Result<(), NoMemory>
    ensures ok { OnOk result (out.new ≡ out.old ++ hexadecimal n) }
    ensures err { OnErr result (out.new ≡ out.old) }
{
    let text = format!(in out.alloc(); "0x{n:x}")?;
    out.append(text.as_bytes())
}

fn hex_digit(value: u8) -> u8
    requires { value < 16 }
    ensures { result ≡ digit_glyph false value }
{
    if value < 10 {
        b'0' + value
    } else {
        b'a' + (value - 10)
    }
}

fn mac_bytes(mac: Mac) -> [u8; 17]
    ensures { result ≡ mac_text mac }
{
    let [a, b, c, d, e, f] = mac.bytes();
    [
        hex_digit(a / 16),
        hex_digit(a % 16),
        b':',
        hex_digit(b / 16),
        hex_digit(b % 16),
        b':',
        hex_digit(c / 16),
        hex_digit(c % 16),
        b':',
        hex_digit(d / 16),
        hex_digit(d % 16),
        b':',
        hex_digit(e / 16),
        hex_digit(e % 16),
        b':',
        hex_digit(f / 16),
        hex_digit(f % 16),
    ]
}

/// Appends an address as six lower-case pairs of hexadecimal digits with colons between them. Where memory is
/// wanting, nothing is appended.
pub fn mac_text(mac: Mac, out: &mut Octets) -> Result<(), NoMemory>
    ensures ok { OnOk result (out.new ≡ out.old ++ mac_text mac) }
    ensures err { OnErr result (out.new ≡ out.old) }
{
    out.append(&mac_bytes(mac))
}

/// What a decimal digit is worth: `0` to `9`.
pub fn decimal_value(byte: u8) -> Option<u8>
    ensures value { result ≡ decimal_value byte }
    ensures small { IfSome result (λ value. value < 10) }
{
    match byte {
        b'0'..=b'9' => Some(byte - b'0'),
        _ => None,
    }
}

/// What a digit of base sixteen is worth: `0` to `9`, `a` to `f`, `A` to `F`.
pub fn hexadecimal_value(byte: u8) -> Option<u8>
    ensures value { result ≡ hexadecimal_value byte }
    ensures small { IfSome result (λ value. value < 16) }
{
    match byte {
        b'0'..=b'9' => Some(byte - b'0'),
        b'a'..=b'f' => Some(byte - b'a' + 10),
        b'A'..=b'F' => Some(byte - b'A' + 10),
        _ => None,
    }
}
