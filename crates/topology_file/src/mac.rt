//! Ethernet addresses as texts.
ghost use Rattle.std.specs.Prelude.{◌≡◌, ◌<◌, ◌+◌, length};
ghost use Rattle.topology_file.specs.Macs.{pair_at, has_colons, six_pairs, mac_of, is_station};

use cs_base::{Mac, hexadecimal_value};

const LENGTH: usize = 17;

#[tactic(auto, unfolding(crate::specs::Macs::pair_at))]
fn pair_at(text: &[u8], place: usize) -> Option<u8>
    requires { place + 1 < length text.now }
    ensures { result ≡ pair_at text.now place }
{
    let high = hexadecimal_value(text[place])?;
    let low = hexadecimal_value(text[place + 1])?;
    Some(high * 16 + low)
}

#[tactic(auto, unfolding(crate::specs::Macs::has_colons))]
fn has_colons(text: &[u8]) -> bool
    requires { length text.now ≡ LENGTH }
    ensures { result ≡ has_colons text.now }
{
    text[2] == b':' && text[5] == b':' && text[8] == b':' && text[11] == b':' && text[14] == b':'
}

#[tactic(auto, unfolding(crate::specs::Macs::six_pairs))]
fn six_pairs(text: &[u8]) -> Option<Mac>
    requires { length text.now ≡ LENGTH }
    ensures { result ≡ six_pairs text.now }
{
    let a = pair_at(text, 0)?;
    let b = pair_at(text, 3)?;
    let c = pair_at(text, 6)?;
    let d = pair_at(text, 9)?;
    let e = pair_at(text, 12)?;
    let f = pair_at(text, 15)?;
    Some(Mac([a, b, c, d, e, f]))
}

/// The address that a text is: six pairs of hexadecimal digits, of either case, with colons between them.
#[tactic(auto, unfolding(crate::specs::Macs::mac_of))]
pub(crate) fn mac_of(text: &str) -> Option<Mac>
    ensures { result ≡ mac_of text.now }
{
    let bytes = text.as_bytes();
    if bytes.len() == LENGTH && has_colons(bytes) {
        six_pairs(bytes)
    } else {
        None
    }
}

/// Whether a text is the address of one station.
pub(crate) fn is_station(text: &str) -> bool
    ensures { result ≡ is_station text.now }
{
    match mac_of(text) {
        Some(mac) => mac.is_individual(),
        None => false,
    }
}
