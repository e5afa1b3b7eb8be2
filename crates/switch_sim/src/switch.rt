ghost use Rattle.std.specs.Prelude.{◌≡◌, ◌+◌, ◌-◌, ◌^◌, ◌<◌, ◌≤◌, ℕ, [], ◌↔◌, ◌&&◌, not, count_by, nat_lt, true, Some, Err, IfOk, IsOk, OnOk, MatchOption};
ghost use Rattle.std.specs.List.Sorted.{IsPermutation};
ghost use Rattle.cs_base.specs.declared.configs.SwitchConfig.{SwitchConfig};
ghost use Rattle.device_api.specs.declared.parts_bad.PartsBad.TheVariants.{Invalid};
ghost use Rattle.device_api.specs.Gives.{Gives};
ghost use Rattle.switch_sim.specs.declared.entry.Entry.{Entry};
ghost use Rattle.switch_sim.specs.Table.{started, is_live, is_of, lookup, place_for, may_learn, others_live, learn, is_news};
ghost use Rattle.switch_sim.specs.Parts.{live_entries, Ascend, resumed, IsOf, StandsAt};
ghost use Rattle.switch_sim.specs.Alike.{IsAlike};
ghost use Rattle.cs_base.specs.Names.{is_individual};
ghost use Rattle.switch_sim.specs.Switch.{is_reserved, relay, reaction_to, switch, IsSettledSwitch};

use crate::entry::Entry;
use crate::parts::SwitchParts;
use crate::relay::{Relay, address_at, log_news};
use crate::table::{PLACES, Table};
use cs_base::configs::SwitchConfig;
use cs_base::items::Items;
use cs_base::mac::Mac;
use cs_base::no_memory::NoMemory;
use cs_base::port_kind::PortKind;
use cs_base::time::Time;
use device_api::{Device, Effects, PartsBad};
use eth_proto::EthMsg;
use sb_message::Body;
use std::alloc::Global;
use std::marker::Model;

/// A learning switch.
#[derive(Debug, Drop)]
pub struct Switch {
    config: SwitchConfig,
    table: Table,
}

impl Model for Switch {
    ghost use Rattle.switch_sim.specs.Table.{SwitchState, started};

    ghost Value = { SwitchState };

    ghost view = { λ s. record (started s.config) { entries = s.table } };
}

impl Switch {
    /// A switch that knows no station yet. It takes all memory for its table here.
    pub fn start(alloc: Global, config: &SwitchConfig) -> Result<Switch, NoMemory>
        ensures state { IfOk result (λ switch. switch ≡ started config.now) }
        ensures at_start { IfOk result (λ switch. IsSettledSwitch switch 0) }
    {
        Ok(Switch {
            config: *config,
            table: Table::new(alloc)?,
        })
    }

    /// Keeps the switch as parts, as it stands before any event at `at` or later: the entries that are live then, in
    /// ascending order of their addresses.
    pub fn into_parts(self, alloc: Global, at: Time) -> Result<SwitchParts, NoMemory>
        requires settled_then { IsSettledSwitch self at }
        requires in_run { at ≤ 10 ^ 15 }
        ensures live { IfOk result (λ parts. IsPermutation (live_entries self at) parts.entries) }
        ensures ascending { IfOk result (λ parts. Ascend parts.entries) }
        // With the configuration that the switch was started with, its parts are valid, and make a switch that answers
        // alike from then on.
        ensures valid { IfOk result (λ parts. (config : SwitchConfig) → IsOf config self
            → StandsAt at (resumed config parts)) }
        ensures again { IfOk result (λ parts. (config : SwitchConfig) → IsOf config self
            → IsAlike at self (resumed config parts)) }
    {
        let mut entries = self.live_entries(alloc, at)?;
        entries.sort_by_key(|entry| entry.mac)?;
        Ok(SwitchParts {
            entries: Items::from_vec(entries),
        })
    }

    /// The entries that are live at a time.
    fn live_entries(&self, alloc: Global, at: Time) -> Result<Vec<Entry>, NoMemory>
        ensures { IfOk result (λ entries. entries.items ≡ live_entries self.now at) }
    {
        let mut entries = Vec::new(alloc);
        for entry in self.table.entries() {
            if entry.is_live(at, self.config.age) {
                entries.push(*entry)?;
            }
        }
        Ok(entries)
    }

    /// The switch that the parts make, before any event at `at` or later. It takes all memory for its table here.
    pub fn from_parts(
        alloc: Global,
        config: &SwitchConfig,
        at: Time,
        parts: SwitchParts,
    ) -> Result<Switch, PartsBad>
        requires { at ≤ 10 ^ 15 }
        ensures state { IfOk result (λ switch. switch ≡ resumed config.now parts) }
        ensures settled { IfOk result (λ switch. (x : ℕ) → at ≤ x → IsSettledSwitch switch x) }
        ensures valid { IsOk result → StandsAt at (resumed config.now parts) }
        ensures invalid { (result ≡ Err Invalid) ↔ (¬ StandsAt at (resumed config.now parts)) }
    {
        if !parts.is_valid(config, at) {
            return Err(PartsBad::Invalid);
        }
        Ok(Switch {
            config: *config,
            table: Table::with_entries(alloc, parts.entries.as_slice())?,
        })
    }

    /// The port of the station's live entry; None exactly where there is none.
    pub fn lookup(&self, t: Time, to: Mac) -> Option<u32>
        requires { IsSettledSwitch self.now (t + 1) }
        ensures { result ≡ lookup self.now t to }
    {
        let place = self.table.place_of(to)?;
        let entry = &self.table.entries()[place];
        if entry.is_live(t, self.config.age) {
            Some(entry.port)
        } else {
            None
        }
    }

    /// The last time at which a station may have been seen whose entry is dead at `t`.
    fn aged_out(&self, t: Time) -> Option<Time>
        ensures time { MatchOption result (t < self.now.age)
            (λ time. (time ≡ t - self.now.age) × (self.now.age ≤ t)) }
        ensures some_age { 1 ≤ self.now.age }
    {
        match t.0.checked_sub(self.config.age.0) {
            Some(time) => Some(Time(time)),
            None => None,
        }
    }

    /// The place for an address's entry; None where all places are taken by live entries of others.
    fn place_for(&self, t: Time, mac: Mac) -> Option<usize>
        ensures { MatchOption result (4096 ≤ place_for self.now t mac)
            (λ place. (place ≡ place_for self.now t mac) × (place < 4096)) }
    {
        let len = self.table.len();
        if let Some(place) = self.table.place_of(mac) {
            return Some(place);
        }
        if len < PLACES {
            return Some(len);
        }
        let time = self.aged_out(t)?;
        self.table.first_seen_by(time)
    }

    /// Learns that a station was seen at a port at `t`, if the address is individual and there is room. It answers
    /// whether that is news: the entry is new, was dead, or changes its port.
    pub fn learn(&mut self, t: Time, from: Mac, port: u32) -> bool
        requires settled { IsSettledSwitch self.old (t + 1) }
        requires port_exists { port < self.old.ports }
        ensures state { self.new ≡ learn self.old t from port }
        ensures news { result ≡ is_news self.old t from port }
        ensures settled_then { IsSettledSwitch self.new (t + 1) }
        // There is room exactly where fewer than 4,096 entries of other addresses are live.
        ensures room { (may_learn self.old t from ≡ true)
            ↔ ((is_individual from ≡ true) × (others_live self.old t from < 4096)) }
    {
        if !from.is_individual() {
            return false;
        }
        let Some(place) = self.place_for(t, from) else {
            return false;
        };
        let known = self.lookup(t, from) == Some(port);
        self.table.put(
            place,
            Entry {
                mac: from,
                port,
                seen: t,
            },
        );
        !known
    }

    /// What becomes of a frame to an address.
    fn relay(&self, t: Time, arrival: u32, to: Mac) -> Relay
        requires { IsSettledSwitch self.now (t + 1) }
        ensures { result ≡ relay self.now t arrival to }
    {
        if is_reserved(to) {
            return Relay::Filter;
        }
        if !to.is_individual() {
            return Relay::Flood;
        }
        match self.lookup(t, to) {
            None => Relay::Flood,
            Some(port) if port == arrival => Relay::Filter,
            Some(port) => Relay::Forward(port),
        }
    }

    /// Learns from a frame, and then sends it on.
    fn receive(
        &mut self,
        alloc: Global,
        t: Time,
        port: u32,
        message: EthMsg,
        out: &mut Effects,
    ) -> Result<(), NoMemory>
        requires settled { IsSettledSwitch self.old (t + 1) }
        requires port_exists { port < self.old.ports }
        ensures { OnOk result
            (Gives (reaction_to self.old t port message) self.new out.old out.new) }
    {
        let ports = self.config.ports;
        let to = address_at(message.frame(), 0);
        let from = address_at(message.frame(), 6);
        let news = self.learn(t, from, port);
        log_news(alloc, news, from, port, out)?;
        let relay = self.relay(t, port, to);
        relay.log(alloc, out)?;
        relay.send(message, port, ports, out)
    }
}

/// Whether an address is for bridges themselves.
fn is_reserved(mac: Mac) -> bool
    ensures { result ≡ is_reserved mac }
{
    let [a, b, c, d, e, last] = mac.bytes();
    [a, b, c, d, e] == [0x01, 0x80, 0xc2, 0, 0] && last < 16
}

impl Device for Switch {
    ghost use Rattle.std.specs.Prelude.{◌≡◌, [], OnOk};
    ghost use Rattle.device_api.specs.Gives.{Gives};
    ghost use Rattle.switch_sim.specs.Switch.{switch, IsSettledSwitch};
    ghost use Rattle.switch_sim.specs.SwitchLaws.{switch_lawful};

    ghost behaviour = { switch };

    ghost settled = { IsSettledSwitch };

    fn ports(&self) -> u32 {
        self.config.ports
    }

    fn kind(&self, _port: u32) -> PortKind {
        PortKind::Eth
    }

    fn due(&self) -> Option<Time> {
        None
    }

    fn take(
        &mut self,
        alloc: Global,
        t: Time,
        port: u32,
        body: Body,
        out: &mut Effects,
    ) -> Result<(), NoMemory> {
        match body {
            Body::Eth(message) => self.receive(alloc, t, port, message, out),
            _ => Ok(()),
        }
    }

    /// A switch is never due, so that this asks less than other devices do, and does nothing.
    fn tick(&mut self, _alloc: Global, _t: Time, _out: &mut Effects) -> Result<(), NoMemory>
        ensures { OnOk result (Gives (switch.tick self.old _t) self.new _out.old _out.new) }
    {
        Ok(())
    }

    ghost lawful = { switch_lawful };
}
