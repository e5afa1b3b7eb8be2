//! The entries of the file, as they are written.
ghost use Rattle.std.specs.Prelude.{◌≡◌, ◌<◌, length, OnOk, IfOk};
ghost use Rattle.toml.specs.View.{view, table_view};
ghost use Rattle.cs_base.specs.Plan.{IsWithinLimits};
ghost use Rattle.topology_file.specs.Ports.{names_of};
ghost use Rattle.topology_file.specs.Full.{with_pairs, beacon_pairs, switch_pairs, memory_pairs, host_pairs, nic_pairs, config_pairs, kind_text, full_component, via_text, full_link};

use crate::component::Component;
use crate::config::Config;
use crate::entry_writer::{EntryWriter, ascii};
use crate::key::Key;
use cs_base::{
    BeaconConfig, HostConfig, Link, MemoryConfig, Name, NicConfig, NoMemory, SwitchConfig, Via,
};
use std::alloc::Global;
use toml::Value;

fn beacon(entry: &mut EntryWriter, config: &BeaconConfig) -> Result<(), NoMemory>
    ensures { OnOk result (table_view entry.new.table
        ≡ with_pairs (table_view entry.old.table) (beacon_pairs config.now)) }
{
    entry.number(Key::First, config.first.picoseconds())?;
    entry.number(Key::Period, config.period.picoseconds())?;
    entry.number(Key::Count, u64::from(config.count))?;
    entry.number(Key::Length, u64::from(config.length))?;
    entry.mac(Key::To, config.to)?;
    entry.mac(Key::From, config.from)
}

fn switch(entry: &mut EntryWriter, config: &SwitchConfig) -> Result<(), NoMemory>
    ensures { OnOk result (table_view entry.new.table
        ≡ with_pairs (table_view entry.old.table) (switch_pairs config.now)) }
{
    entry.number(Key::Ports, u64::from(config.ports))?;
    entry.number(Key::Age, config.age.picoseconds())
}

fn memory(entry: &mut EntryWriter, config: &MemoryConfig) -> Result<(), NoMemory>
    ensures { OnOk result (table_view entry.new.table
        ≡ with_pairs (table_view entry.old.table) (memory_pairs config.now)) }
{
    entry.number(Key::Size, u64::from(config.size))
}

fn host(entry: &mut EntryWriter, config: &HostConfig) -> Result<(), NoMemory>
    ensures { OnOk result (table_view entry.new.table
        ≡ with_pairs (table_view entry.old.table) (host_pairs config.now)) }
{
    entry.number(Key::Ram, u64::from(config.ram))?;
    entry.number(Key::Cycle, config.cycle.picoseconds())?;
    entry.number(Key::Pcie, u64::from(config.pcie))?;
    entry.number(Key::Mem, u64::from(config.mem))?;
    entry.number(Key::Hart, u64::from(config.hart))?;
    entry.text(Key::Image, config.image.as_str())
}

fn nic(entry: &mut EntryWriter, config: &NicConfig) -> Result<(), NoMemory>
    ensures { OnOk result (table_view entry.new.table
        ≡ with_pairs (table_view entry.old.table) (nic_pairs config.now)) }
{
    entry.mac(Key::Mac, config.mac)
}

fn kind_text(config: &Config) -> &'static str
    ensures { result.now ≡ kind_text config.now }
{
    match config {
        Config::Beacon(_) => "beacon",
        Config::Switch(_) => "switch",
        Config::Memory(_) => "memory",
        Config::Host(_) => "host",
        Config::Nic(_) => "nic",
    }
}

fn config(entry: &mut EntryWriter, config: &Config) -> Result<(), NoMemory>
    ensures { OnOk result (table_view entry.new.table
        ≡ with_pairs (table_view entry.old.table) (config_pairs config.now)) }
{
    match config {
        Config::Beacon(config) => beacon(entry, config),
        Config::Switch(config) => switch(entry, config),
        Config::Memory(config) => memory(entry, config),
        Config::Host(config) => host(entry, config),
        Config::Nic(config) => nic(entry, config),
    }
}

fn name_text(name: &Name) -> &str
    ensures { result.now ≡ name.now }
{
    ascii(name.as_slice())
}

/// The entry of a component.
pub(crate) fn component(alloc: Global, component: &Component) -> Result<Value, NoMemory>
    ensures { IfOk result (λ entry. view entry ≡ full_component component.now) }
{
    let mut entry = EntryWriter::new(alloc);
    entry.text(Key::Name, name_text(&component.name))?;
    entry.text(Key::Kind, kind_text(&component.config))?;
    config(&mut entry, &component.config)?;
    Ok(Value::Table(entry.table))
}

fn via_text(via: Via) -> &'static str
    ensures { result.now ≡ via_text via }
{
    match via {
        Via::Queue => "queue",
        Via::Proxy => "proxy",
    }
}

/// The entry of a link between components.
pub(crate) fn link(alloc: Global, components: &[Component], link: &Link) -> Result<Value, NoMemory>
    requires a { link.now.a < length components.now }
    requires b { link.now.b < length components.now }
    requires limits { IsWithinLimits link.now }
    ensures { IfOk result (λ entry. view entry ≡ full_link (names_of components.now) link.now) }
{
    let mut entry = EntryWriter::new(alloc);
    let a = &components[link.a as usize].name;
    let b = &components[link.b as usize].name;
    entry.text(Key::A, name_text(a))?;
    entry.number(Key::APort, u64::from(link.a_port))?;
    entry.text(Key::B, name_text(b))?;
    entry.number(Key::BPort, u64::from(link.b_port))?;
    entry.number(Key::Latency, link.latency.picoseconds())?;
    entry.number(Key::Interval, link.interval.picoseconds())?;
    entry.number(Key::Slots, u64::from(link.slots))?;
    entry.text(Key::Via, via_text(link.via))?;
    Ok(Value::Table(entry.table))
}
