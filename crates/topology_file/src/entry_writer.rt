//! A table of the file, as it is written.
ghost use Rattle.std.specs.Prelude.{◌≡◌, ◌<◌, ◌^◌, OnOk};
ghost use Rattle.std.specs.Str.{IsAscii};
ghost use Rattle.toml.specs.Data.{no_members, string, array};
ghost use Rattle.toml.specs.View.{view, items_view, table_view};
ghost use Rattle.topology_file.specs.Full.{number, address, with_pair};

use crate::key::Key;
use crate::table;
use cs_base::{Items, Mac, NoMemory, mac_text};
use std::alloc::Global;
use toml::{Table, Value};

/// The bytes as a text.
pub(crate) fn ascii(bytes: &[u8]) -> &str
    requires { IsAscii bytes.now }
    ensures { result.now ≡ bytes.now }
{
    std::str::from_utf8(bytes).unwrap()
}

/// The keys of an entry with their values.
#[derive(Debug, Drop)]
pub(crate) struct EntryWriter {
    alloc: Global,
    pub(crate) table: Table,
}

impl EntryWriter {
    /// An entry without keys.
    pub(crate) fn new(alloc: Global) -> EntryWriter
        ensures { table_view result.table ≡ no_members }
    {
        EntryWriter {
            alloc,
            table: Table::new(alloc),
        }
    }

    fn put(&mut self, key: Key, value: Value) -> Result<(), NoMemory>
        ensures { OnOk result (table_view self.new.table
            ≡ with_pair (table_view self.old.table) (key, view value)) }
    {
        let name = String::from_str(self.alloc, table::text(key))?;
        self.table.insert(name, value)?;
        Ok(())
    }

    pub(crate) fn number(&mut self, key: Key, value: u64) -> Result<(), NoMemory>
        requires { value < 2 ^ 63 }
        ensures { OnOk result (table_view self.new.table
            ≡ with_pair (table_view self.old.table) (key, number value)) }
    {
        self.put(key, Value::Integer(value as i64))
    }

    pub(crate) fn text(&mut self, key: Key, text: &str) -> Result<(), NoMemory>
        ensures { OnOk result (table_view self.new.table
            ≡ with_pair (table_view self.old.table) (key, string text.now)) }
    {
        let value = Value::string(self.alloc, text)?;
        self.put(key, value)
    }

    pub(crate) fn mac(&mut self, key: Key, mac: Mac) -> Result<(), NoMemory>
        ensures { OnOk result (table_view self.new.table
            ≡ with_pair (table_view self.old.table) (key, address mac)) }
    {
        let mut text = Items::new(self.alloc);
        mac_text(mac, &mut text)?;
        self.text(key, ascii(text.as_slice()))
    }

    pub(crate) fn entries(&mut self, key: Key, entries: Vec<Value>) -> Result<(), NoMemory>
        ensures { OnOk result (table_view self.new.table
            ≡ with_pair (table_view self.old.table) (key, array (items_view entries.items))) }
    {
        self.put(key, Value::Array(entries))
    }
}
