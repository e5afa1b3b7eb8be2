//! What can be wrong with an entry by itself.
ghost use Rattle.std.specs.Prelude.{◌≡◌, ◌↔◌, IsTrue, true, List, ℕ, map};
ghost use Rattle.toml.specs.View.{view, array_view, table_view};
ghost use Rattle.toml.specs.Text.{has_items};
ghost use Rattle.std.specs.List.{list_any};
ghost use Rattle.std.specs.Str.{bytes_eq};
ghost use Rattle.topology_file.specs.Ports.{names_of};
ghost use Rattle.topology_file.specs.Fields.{at, whole_of, number_at, text_at, elements_at, kind_at};
ghost use Rattle.topology_file.specs.Faults.{unless, is_within, is_four_within, is_file_name, value_fault, absent_fault, key_fault, keys_fault, is_key, are_known, unknown_fault, own_fault, size_fault, top_fault, ports_fault, name_fault, kind_faults, is_table, component_fault};
ghost use Rattle.cs_base.specs.Names.{is_name};

use crate::component::Component;
use crate::fields::{elements_at, find, kind_at, kind_named, number_at, text_at, via_named};
use crate::form::{Absent, Form, Kind};
use crate::key::Key;
use crate::mac::{is_station, mac_of};
use crate::reason::TopoReason;
use crate::reason_text::lesser;
use crate::table;
use cs_base::Name;
use cs_base::limits::{LONGEST_FILE_NAME, MOST_COMPONENTS, MOST_LINKS, MOST_PORTS};
use toml::value::Array;
use toml::{Table, Value};

pub(crate) fn unless(holds: bool, reason: TopoReason) -> Option<TopoReason>
    ensures { result ≡ unless holds reason }
{
    if holds { None } else { Some(reason) }
}

fn is_within(number: i64, least: u64, most: u64) -> bool
    ensures { result ≡ is_within least most number }
{
    number >= 0 && least <= number as u64 && number as u64 <= most
}

fn is_four_within(number: i64, least: u64, most: u64) -> bool
    ensures { result ≡ is_four_within least most number }
{
    number >= 0 && least <= number as u64 && number as u64 <= most && number as u64 % 4 == 0
}

fn is_file_name(text: &str) -> bool
    ensures { result ≡ is_file_name text.now }
{
    1 <= text.len() && text.len() <= LONGEST_FILE_NAME
}

fn is_name(text: &str) -> bool
    ensures { result ≡ is_name text.now }
{
    Name::new(text.as_bytes()).is_some()
}

fn has_items(array: &Array) -> bool
    ensures { result ≡ has_items (array_view array.now) }
{
    !array.is_empty()
}

/// What is wrong with a value of a form.
fn value_fault(value: &Value, form: Form) -> Option<TopoReason>
    ensures { result ≡ value_fault form (view value.now) }
{
    match form {
        Form::Whole { least, most } => match value.as_integer() {
            Some(number) => unless(is_within(number, least, most), TopoReason::Range),
            None => Some(TopoReason::WrongType),
        },
        Form::Fours { least, most } => match value.as_integer() {
            Some(number) => unless(is_four_within(number, least, most), TopoReason::Range),
            None => Some(TopoReason::WrongType),
        },
        Form::Text => unless(value.is_str(), TopoReason::WrongType),
        Form::Name => match value.as_str() {
            Some(text) => unless(is_name(text), TopoReason::BadName),
            None => Some(TopoReason::WrongType),
        },
        Form::FileName => match value.as_str() {
            Some(text) => unless(is_file_name(text), TopoReason::Range),
            None => Some(TopoReason::WrongType),
        },
        Form::Kind => match value.as_str() {
            Some(text) => unless(kind_named(text).is_some(), TopoReason::Range),
            None => Some(TopoReason::WrongType),
        },
        Form::Via => match value.as_str() {
            Some(text) => unless(via_named(text).is_some(), TopoReason::Range),
            None => Some(TopoReason::WrongType),
        },
        Form::Mac => match value.as_str() {
            Some(text) => unless(mac_of(text).is_some(), TopoReason::BadMac),
            None => Some(TopoReason::WrongType),
        },
        Form::Individual => match value.as_str() {
            Some(text) => unless(is_station(text), TopoReason::BadMac),
            None => Some(TopoReason::WrongType),
        },
        Form::Entries => unless(value.is_array(), TopoReason::WrongType),
        Form::SomeEntries => match value.as_array() {
            Some(array) => unless(has_items(array), TopoReason::Missing),
            None => Some(TopoReason::WrongType),
        },
    }
}

fn absent_fault(absent: Absent) -> Option<TopoReason>
    ensures { result ≡ absent_fault absent }
{
    match absent {
        Absent::Fault => Some(TopoReason::Missing),
        Absent::Number(_) | Absent::Usual => None,
    }
}

/// What is wrong with a key: a required one is absent, or its value is at fault.
fn key_fault(entry: &Value, key: Key) -> Option<TopoReason>
    ensures { result ≡ key_fault (view entry.now) key }
{
    match find(entry, key) {
        Some(value) => value_fault(value, table::form(key)),
        None => absent_fault(table::absent(key)),
    }
}

fn keys_fault(entry: &Value, keys: &[Key]) -> Option<TopoReason>
    ensures { result ≡ keys_fault keys.now (view entry.now) }
{
    let mut found = None;
    for key in keys {
        found = lesser(found, key_fault(entry, *key));
    }
    found
}

fn is_key(keys: &[Key], name: &str) -> bool
    ensures { result ≡ is_key keys.now name.now }
{
    keys.iter().any(|key| table::text(*key) == name)
}

fn are_known(entries: &Table, keys: &[Key]) -> bool
    ensures { result ≡ are_known keys.now (table_view entries.now) }
{
    for (name, _value) in entries {
        if !is_key(keys, name.as_str()) {
            return false;
        }
    }
    true
}

fn unknown_fault(entry: &Value, keys: &[Key]) -> Option<TopoReason>
    ensures { result ≡ unknown_fault keys.now (view entry.now) }
{
    match entry.as_table() {
        Some(entries) => unless(are_known(entries, keys), TopoReason::UnknownKey),
        None => None,
    }
}

/// What is wrong with a table that may have these keys, beside what they say of other entries.
pub(crate) fn own_fault(entry: &Value, keys: &[Key]) -> Option<TopoReason>
    ensures { result ≡ own_fault keys.now (view entry.now) }
{
    lesser(unknown_fault(entry, keys), keys_fault(entry, keys))
}

fn size_fault(document: &Value) -> Option<TopoReason>
    ensures { result ≡ size_fault (view document.now) }
{
    let fits = elements_at(document, Key::Components).len() <= MOST_COMPONENTS
        && elements_at(document, Key::Links).len() <= MOST_LINKS;
    unless(fits, TopoReason::TooMany)
}

/// What is wrong with the document itself.
pub(crate) fn top_fault(document: &Value) -> Option<TopoReason>
    ensures { result ≡ top_fault (view document.now) }
{
    lesser(own_fault(document, table::top_keys()), size_fault(document))
}

fn ports_fault(kind: Kind, entry: &Value) -> Option<TopoReason>
    ensures { result ≡ ports_fault kind (view entry.now) }
{
    match kind {
        Kind::Host => {
            let pcie = number_at(entry, Key::Pcie);
            let mem = number_at(entry, Key::Mem);
            unless(
                pcie <= MOST_PORTS as u64 && mem <= MOST_PORTS as u64 - pcie,
                TopoReason::Range,
            )
        }
        Kind::Beacon | Kind::Switch | Kind::Memory | Kind::Nic => None,
    }
}

pub(crate) fn has_name(component: &Component, name: &[u8]) -> bool
    ensures { result ≡ bytes_eq name.now component.now.name }
{
    name == component.name.as_slice()
}

/// Whether one of the components has a name.
fn is_among(components: &[Component], name: &[u8]) -> bool
    ensures { result ≡ list_any (λ c. bytes_eq name.now c.name) components.now }
{
    components.iter().any(|component| has_name(component, name))
}

fn name_fault(components: &[Component], entry: &Value) -> Option<TopoReason>
    ensures { result ≡ name_fault (names_of components.now) (view entry.now) }
{
    let name = text_at(entry, Key::Name).as_bytes();
    unless(!is_among(components, name), TopoReason::NameTwice)
}

fn kind_faults(kind: Kind, components: &[Component], entry: &Value) -> Option<TopoReason>
    ensures { result ≡ kind_faults kind (names_of components.now) (view entry.now) }
{
    let own = own_fault(entry, table::component_keys(kind));
    let ports = ports_fault(kind, entry);
    lesser(lesser(own, ports), name_fault(components, entry))
}

/// What is wrong with the entry of a component that stands after others.
pub(crate) fn component_fault(components: &[Component], entry: &Value) -> Option<TopoReason>
    ensures { result ≡ component_fault (names_of components.now) (view entry.now) }
{
    if !entry.is_table() {
        return Some(TopoReason::WrongType);
    }
    match key_fault(entry, Key::Kind) {
        Some(reason) => Some(reason),
        None => kind_faults(kind_at(entry), components, entry),
    }
}
