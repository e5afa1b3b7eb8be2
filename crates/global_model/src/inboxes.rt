ghost use Rattle.std.specs.Prelude.{◌≡◌, ◌≤◌, ◌<◌, slice_get, [], Some, IsSome, IfSome, IfNone, IfOk, OnOk, ℕ};
ghost use Rattle.cs_base.specs.Plan.{End};
ghost use Rattle.global_model.specs.Inboxes.{port_of, end_at, first_time, AreEmpty, HasPut, HasGiven, PortStartsOff};
ghost use Rattle.global_model.specs.PortMarks.{AreIdle};
ghost use Rattle.global_model.specs.Turn.{queue_at};

use crate::inbox::Inbox;
use crate::marks::{marked, next_marked};
use cs_base::items::Items;
use cs_base::no_memory::NoMemory;
use cs_base::port_kind::PortKind;
use cs_base::time::Time;
use sb_message::{Body, Msg};
use std::alloc::Global;
use std::marker::Model;

/// What waits at each port of each component.
#[derive(Drop)]
pub struct Inboxes {
    components: Vec<Vec<Inbox>>,
    /// A mask a component, with a 0 where nothing waits.
    filled: Vec<u32>,
}

impl Model for Inboxes {
    ghost use Rattle.std.specs.Prelude.{map, List};
    ghost use Rattle.sb_message.specs.declared.message.Msg.{Msg as Message};
    ghost use Rattle.global_model.specs.PortMarks.{AreMarked};

    ghost Value = { List (List (List Message)) };

    ghost view = { λ i. map (λ ports. ports.items) i.components.items };

    ghost invariant = { λ i. AreMarked i.filled.items
        (map (λ ports. ports.items) i.components.items) };
}

impl Inboxes {
    /// Empty inboxes of components whose ports are of these kinds.
    pub fn new(alloc: Global, kinds: &[Items<PortKind>]) -> Result<Inboxes, NoMemory>
        ensures { IfOk result (AreEmpty kinds.now) }
    {
        let mut components = Vec::new(alloc);
        for (_component, ports) in kinds.iter().enumerate() {
            components.push(empty_inboxes(alloc, ports.len())?)?;
        }
        let filled = Vec::from_elem(alloc, u32::MAX, components.len())?;
        Ok(Inboxes { components, filled })
    }

    /// Puts a message at the end of a port's queue.
    pub fn push(&mut self, component: u32, port: u32, message: Msg) -> Result<(), NoMemory>
        requires { IsSome (port_of self.old (end_at component port)) }
        ensures { OnOk result (HasPut (end_at component port) message self.old self.new) }
    {
        let place = component as usize;
        self.filled[place] = marked(self.filled[place], port, true);
        self.components[place][port as usize].push(message)
    }

    /// The time of the first message of a port's queue.
    pub fn first_at(&self, component: u32, port: u32) -> Option<Time>
        requires { IsSome (port_of self.now (end_at component port)) }
        ensures { result ≡ first_time (queue_at self.now (end_at component port)) }
    {
        self.components[component as usize][port as usize].first_at()
    }

    /// Takes the first message of a port's queue where it has this time.
    pub fn take_at(&mut self, component: u32, port: u32, t: Time) -> Option<Body>
        requires { IsSome (port_of self.old (end_at component port)) }
        ensures first { IfSome result (HasGiven (end_at component port) t self.old self.new) }
        ensures none { IfNone result ((e : End) → port_of self.new e ≡ port_of self.old e) }
        ensures starts_off { IfNone result (PortStartsOff t (end_at component port) self.old) }
    {
        let place = component as usize;
        let inbox = &mut self.components[place][port as usize];
        let Some(body) = inbox.take_at(t) else {
            return None;
        };
        let waits = !inbox.is_empty();
        self.filled[place] = marked(self.filled[place], port, waits);
        Some(body)
    }

    /// The first port of a component from one on, and below their number, at which something may wait; their number
    /// where there is none. Ports at which nothing waits aren't looked at.
    pub fn filled_from(&self, component: u32, from: u32, ports: u32) -> u32
        requires { from ≤ ports }
        ensures later { from ≤ result }
        ensures within { result ≤ ports }
        ensures idle { AreIdle self.now component from result }
    {
        let place = component as usize;
        if place >= self.filled.len() {
            return ports;
        }
        next_marked(self.filled[place], from).min(ports)
    }
}

fn empty_inboxes(alloc: Global, ports: usize) -> Result<Vec<Inbox>, NoMemory>
    ensures { IfOk result (λ inboxes. (p : ℕ) → p < ports → slice_get inboxes.items p ≡ Some []) }
{
    let mut inboxes = Vec::new(alloc);
    for _port in 0..ports {
        inboxes.push(Inbox::new(alloc))?;
    }
    Ok(inboxes)
}
