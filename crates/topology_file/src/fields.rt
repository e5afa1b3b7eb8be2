//! What an entry of the file says under its keys.
ghost use Rattle.std.specs.Prelude.{◌≡◌, map, option_map, option_and_then};
ghost use Rattle.toml.specs.View.{view};
ghost use Rattle.topology_file.specs.Fields.{at, whole, usual_number, number_at, text_at, mac_at, elements_at, kind_named, kind_at, via_named, via_at, interval_at};

use crate::form::{Absent, Kind};
use crate::key::Key;
use crate::mac::mac_of;
use crate::table;
use cs_base::{Mac, Via};
use toml::Value;

/// The value of a key.
pub(crate) fn find(entry: &Value, key: Key) -> Option<&Value>
    ensures { option_map (λ v. view v.now) result ≡ at (view entry.now) key }
{
    entry.get(table::text(key))
}

/// The value as a number that isn't negative.
fn whole(value: &Value) -> Option<u64>
    ensures { result ≡ whole (view value.now) }
{
    match value.as_integer() {
        Some(number) if number >= 0 => Some(number as u64),
        _ => None,
    }
}

fn usual_number(absent: Absent) -> u64
    ensures { result ≡ usual_number absent }
{
    match absent {
        Absent::Number(number) => number,
        Absent::Fault | Absent::Usual => 0,
    }
}

fn whole_at(entry: &Value, key: Key) -> Option<u64>
    ensures { result ≡ option_and_then whole (at (view entry.now) key) }
{
    match find(entry, key) {
        Some(value) => whole(value),
        None => None,
    }
}

/// The number under a key, or what stands for it.
pub(crate) fn number_at(entry: &Value, key: Key) -> u64
    ensures { result ≡ number_at (view entry.now) key }
{
    whole_at(entry, key).unwrap_or(usual_number(table::absent(key)))
}

/// The text under a key; the empty text where there is none.
pub(crate) fn text_at(entry: &Value, key: Key) -> &str
    ensures { result.now ≡ text_at (view entry.now) key }
{
    match find(entry, key) {
        Some(value) => match value.as_str() {
            Some(text) => text,
            None => "",
        },
        None => "",
    }
}

/// The address under a key; the broadcast address where there is none.
pub(crate) fn mac_at(entry: &Value, key: Key) -> Mac
    ensures { result ≡ mac_at (view entry.now) key }
{
    match mac_of(text_at(entry, key)) {
        Some(mac) => mac,
        None => Mac([255; 6]),
    }
}

/// The elements of the array under a key; none where there is no array.
pub(crate) fn elements_at(entry: &Value, key: Key) -> &[Value]
    ensures { map view result.now ≡ elements_at (view entry.now) key }
{
    match find(entry, key) {
        Some(value) => match value.as_array() {
            Some(array) => array.as_slice(),
            None => &[],
        },
        None => &[],
    }
}

/// The kind of component that a text names.
pub(crate) fn kind_named(text: &str) -> Option<Kind>
    ensures { result ≡ kind_named text.now }
{
    match text {
        "beacon" => Some(Kind::Beacon),
        "switch" => Some(Kind::Switch),
        "memory" => Some(Kind::Memory),
        "host" => Some(Kind::Host),
        "nic" => Some(Kind::Nic),
        _ => None,
    }
}

/// The way of a link that a text names.
pub(crate) fn via_named(text: &str) -> Option<Via>
    ensures { result ≡ via_named text.now }
{
    match text {
        "queue" => Some(Via::Queue),
        "proxy" => Some(Via::Proxy),
        _ => None,
    }
}

/// The kind of a component.
pub(crate) fn kind_at(entry: &Value) -> Kind
    ensures { result ≡ kind_at (view entry.now) }
{
    match kind_named(text_at(entry, Key::Kind)) {
        Some(kind) => kind,
        None => Kind::Beacon,
    }
}

/// The way of a link.
pub(crate) fn via_at(entry: &Value) -> Via
    ensures { result ≡ via_at (view entry.now) }
{
    match via_named(text_at(entry, Key::Via)) {
        Some(via) => via,
        None => Via::Queue,
    }
}

/// The interval of a link.
pub(crate) fn interval_at(entry: &Value) -> u64
    ensures { result ≡ interval_at (view entry.now) }
{
    whole_at(entry, Key::Interval).unwrap_or(number_at(entry, Key::Latency))
}
