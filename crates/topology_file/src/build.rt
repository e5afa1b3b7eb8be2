//! Components and links of entries without a fault.
ghost use Rattle.std.specs.Prelude.{◌≡◌, ◌<◌, ◌^◌, true, IfOk};
ghost use Rattle.toml.specs.View.{view};
ghost use Rattle.cs_base.specs.Names.{is_name};
ghost use Rattle.topology_file.specs.Fields.{text_at, number_at, kind_at};
ghost use Rattle.topology_file.specs.Links.{link_between};
ghost use Rattle.topology_file.specs.Valid.{IsValidAs, IsValidComponent, IsValidLink};
ghost use Rattle.topology_file.specs.Spelled.{SpellsBeacon, SpellsSwitch, SpellsMemory, SpellsHost, SpellsNic, SpellsConfig, SpellsComponent};
ghost use Rattle.topology_file.specs.declared.key.Key.TheVariants.{Name as NameKey};

use crate::component::Component;
use crate::config::Config;
use crate::fields::{interval_at, kind_at, mac_at, number_at, text_at, via_at};
use crate::form::Kind;
use crate::key::Key;
use cs_base::{
    BeaconConfig, HostConfig, Link, MemoryConfig, Name, NicConfig, NoMemory, SwitchConfig, Text,
    Time,
};
use std::alloc::Global;
use toml::Value;

fn time_at(entry: &Value, key: Key) -> Time
    ensures { result ≡ number_at (view entry.now) key }
{
    Time(number_at(entry, key))
}

fn small_at(entry: &Value, key: Key) -> u32
    requires { number_at (view entry.now) key < 2 ^ 32 }
    ensures { result ≡ number_at (view entry.now) key }
{
    number_at(entry, key) as u32
}

fn beacon(entry: &Value) -> BeaconConfig
    requires { IsValidAs Kind.Beacon (view entry.now) }
    ensures { SpellsBeacon (view entry.now) result }
{
    BeaconConfig {
        first: time_at(entry, Key::First),
        period: time_at(entry, Key::Period),
        count: small_at(entry, Key::Count),
        length: small_at(entry, Key::Length),
        to: mac_at(entry, Key::To),
        from: mac_at(entry, Key::From),
    }
}

fn switch(entry: &Value) -> SwitchConfig
    requires { IsValidAs Kind.Switch (view entry.now) }
    ensures { SpellsSwitch (view entry.now) result }
{
    SwitchConfig {
        ports: small_at(entry, Key::Ports),
        age: time_at(entry, Key::Age),
    }
}

fn memory(entry: &Value) -> MemoryConfig
    requires { IsValidAs Kind.Memory (view entry.now) }
    ensures { SpellsMemory (view entry.now) result }
{
    MemoryConfig {
        size: small_at(entry, Key::Size),
    }
}

fn host(alloc: Global, entry: &Value) -> Result<HostConfig, NoMemory>
    requires { IsValidAs Kind.Host (view entry.now) }
    ensures { IfOk result (SpellsHost (view entry.now)) }
{
    let image = Text::new(alloc, text_at(entry, Key::Image))?;
    Ok(HostConfig {
        ram: small_at(entry, Key::Ram),
        cycle: time_at(entry, Key::Cycle),
        pcie: small_at(entry, Key::Pcie),
        mem: small_at(entry, Key::Mem),
        hart: small_at(entry, Key::Hart),
        image,
    })
}

fn nic(entry: &Value) -> NicConfig
    requires { IsValidAs Kind.Nic (view entry.now) }
    ensures { SpellsNic (view entry.now) result }
{
    NicConfig {
        mac: mac_at(entry, Key::Mac),
    }
}

fn config(alloc: Global, kind: Kind, entry: &Value) -> Result<Config, NoMemory>
    requires { IsValidAs kind (view entry.now) }
    ensures { IfOk result (SpellsConfig kind (view entry.now)) }
{
    match kind {
        Kind::Beacon => Ok(Config::Beacon(beacon(entry))),
        Kind::Switch => Ok(Config::Switch(switch(entry))),
        Kind::Memory => Ok(Config::Memory(memory(entry))),
        Kind::Host => Ok(Config::Host(host(alloc, entry)?)),
        Kind::Nic => Ok(Config::Nic(nic(entry))),
    }
}

fn name(entry: &Value) -> Name
    requires { is_name (text_at (view entry.now) NameKey) ≡ true }
    ensures { result ≡ text_at (view entry.now) NameKey }
{
    Name::new(text_at(entry, Key::Name).as_bytes()).unwrap()
}

/// The component that an entry without a fault spells.
pub(crate) fn component(alloc: Global, entry: &Value) -> Result<Component, NoMemory>
    requires { IsValidComponent (view entry.now) }
    ensures { IfOk result (SpellsComponent (view entry.now)) }
{
    let config = config(alloc, kind_at(entry), entry)?;
    Ok(Component {
        name: name(entry),
        config,
    })
}

/// The link that an entry without a fault spells between two components.
pub(crate) fn link_between(a: u32, b: u32, entry: &Value) -> Link
    requires { IsValidLink (view entry.now) }
    ensures { result ≡ link_between a b (view entry.now) }
{
    Link {
        a,
        a_port: small_at(entry, Key::APort),
        b,
        b_port: small_at(entry, Key::BPort),
        latency: time_at(entry, Key::Latency),
        interval: Time(interval_at(entry)),
        slots: small_at(entry, Key::Slots),
        via: via_at(entry),
    }
}
