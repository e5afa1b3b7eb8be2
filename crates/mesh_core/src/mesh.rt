ghost use Rattle.std.specs.Prelude.{◌≡◌, ◌↔◌, ◌||◌, Bool, IsTrue, IfOk, All, length, map, ℕ};
ghost use Rattle.sync_laws.specs.Whole.{HaveEnded};
ghost use Rattle.run_steps.specs.declared.step.Step.TheVariants.{Event, Send as Sent, Poll, Take, Move, Put};
ghost use Rattle.mesh_core.specs.declared.serial.Awake.TheVariants.{Everyone};

use crate::build::{carriers_of, runners_of, ways_of};
use crate::outcome::{Room, count_all, finish_all};
use crate::seen::Seen;
use crate::serial::{Awake, Woken, either};
use crate::way::Way;
use cs_base::items::Items;
use cs_base::no_memory::NoMemory;
use cs_base::wiring::Wiring;
use device_api::{Device, Logs, Outcome};
use mesh_channel::Carrier;
use run_steps::Step;
use std::alloc::Global;
use std::marker::Model;
use sync_rule::{RunBad, Runner};

/// All components of a system on local clocks, each with its log, and for each channel a queue, or two queues and a byte
/// stream between them where its link goes by proxies. Nothing happens in it but what a step does. After `NoMemory` it is spent: nothing is told of it.
#[derive(Drop)]
pub struct Mesh<V> {
    runners: Vec<Runner<V>>,
    ways: Vec<Way>,
    carriers: Vec<Carrier>,
    room: Room,
}

impl<V> Model for Mesh<V> {
    ghost use Rattle.std.specs.Prelude.{vec_len};
    ghost use Rattle.mesh_core.specs.State.{State};
    ghost use Rattle.mesh_core.specs.Left.{IsRoomFor};

    ghost Value = { State V };

    ghost view = { λ mesh. record { runners = mesh.runners.items; ways = mesh.ways.items; carriers = mesh.carriers.items } };

    ghost invariant = { λ mesh. IsRoomFor (vec_len mesh.runners) (vec_len mesh.ways) mesh.room };
}

impl<V: Device> Mesh<V> {
    ghost use Rattle.mesh_core.specs.Start.{first_mesh};
    ghost use Rattle.mesh_core.specs.Steps.{Steps};
    ghost use Rattle.mesh_core.specs.MeshOf.{IsMesh};
    ghost use Rattle.mesh_core.specs.Left.{logs_left, counts_left};
    ghost use Rattle.mesh_core.specs.Walk.{WentToTheEnd, Rounds, RunsEach, RunsOn, CarriesEach, Carries, PassesOn, MovesAll};

    /// A mesh of devices at their start, joined by a wiring.
    pub fn new(alloc: Global, devices: Vec<V>, wiring: &Wiring) -> Result<Mesh<V>, NoMemory>
        requires matches { map V.behaviour.ports devices.items ≡ wiring.now.kinds }
        requires at_start { All (λ device. V.settled device 0) devices.items }
        ensures { IfOk result (λ mesh. mesh ≡ first_mesh V.behaviour devices.items wiring.now.links wiring.now.end) }
    {
        let kinds = wiring.kinds.as_slice();
        let links = wiring.links.as_slice();
        let ways = ways_of(alloc, links)?;
        let carriers = carriers_of(alloc, kinds, links)?;
        let runners = runners_of(alloc, devices, kinds, links, wiring.end)?;
        let room = Room::new(alloc, runners.len(), ways.len())?;
        Ok(Mesh {
            runners,
            ways,
            carriers,
            room,
        })
    }

    /// Makes a step. False exactly where it isn't enabled, numbers out of range included, and then nothing changed.
    pub fn step(&mut self, alloc: Global, step: Step) -> Result<bool, NoMemory>
        requires { IsMesh V.behaviour V.settled self.old }
        ensures { IfOk result (Steps V.behaviour step self.old self.new) }
    {
        match step {
            Step::Event(component) => self.event(alloc, component),
            Step::Send(channel) => Ok(self.send(channel as usize)),
            Step::Poll(channel) => self.poll(channel as usize),
            Step::Take(channel) => self.take(channel as usize),
            Step::Move(channel, n) => self.move_bytes(channel as usize, n),
            Step::Put(channel) => Ok(self.put(channel as usize)),
        }
    }

    fn event(&mut self, alloc: Global, component: u32) -> Result<bool, NoMemory>
        requires { IsMesh V.behaviour V.settled self.old }
        ensures { IfOk result (Steps V.behaviour (Event component) self.old self.new) }
    {
        let component = component as usize;
        if component >= self.runners.len() {
            return Ok(false);
        }
        self.runners[component].event(alloc)
    }

    fn send(&mut self, channel: usize) -> bool
        requires { IsMesh V.behaviour V.settled self.old }
        ensures { Steps V.behaviour (Sent channel) self.old self.new result }
    {
        if channel >= self.ways.len() {
            return false;
        }
        let from = self.ways[channel].from;
        self.runners[from.component as usize].send(from.port, &mut self.carriers[channel])
    }

    fn poll(&mut self, channel: usize) -> Result<bool, NoMemory>
        requires { IsMesh V.behaviour V.settled self.old }
        ensures { IfOk result (Steps V.behaviour (Poll channel) self.old self.new) }
    {
        if channel >= self.ways.len() {
            return Ok(false);
        }
        let to = self.ways[channel].to;
        match self.runners[to.component as usize].poll(to.port, &mut self.carriers[channel]) {
            Ok(moved) => Ok(moved),
            Err(RunBad::NoMemory) => Err(NoMemory),
            // A channel of a mesh begins with its introduction.
            Err(RunBad::WrongIntro { .. }) => Ok(false),
        }
    }

    fn take(&mut self, channel: usize) -> Result<bool, NoMemory>
        requires { IsMesh V.behaviour V.settled self.old }
        ensures { IfOk result (Steps V.behaviour (Take channel) self.old self.new) }
    {
        if channel >= self.ways.len() {
            return Ok(false);
        }
        self.carriers[channel].take()
    }

    fn move_bytes(&mut self, channel: usize, n: u64) -> Result<bool, NoMemory>
        requires { IsMesh V.behaviour V.settled self.old }
        ensures { IfOk result (Steps V.behaviour (Move channel n) self.old self.new) }
    {
        if channel >= self.ways.len() {
            return Ok(false);
        }
        self.carriers[channel].move_bytes(n)
    }

    fn put(&mut self, channel: usize) -> bool
        requires { IsMesh V.behaviour V.settled self.old }
        ensures { Steps V.behaviour (Put channel) self.old self.new result }
    {
        if channel >= self.ways.len() {
            return false;
        }
        self.carriers[channel].put()
    }

    /// Takes steps that are enabled until all components have ended and all that was sent is received. It takes no memory
    /// but what the steps take. After `NoMemory` the mesh is spent.
    pub fn serial(&mut self, alloc: Global) -> Result<(), NoMemory>
        requires { IsMesh V.behaviour V.settled self.old }
        ensures { IfOk result (λ done. WentToTheEnd V.behaviour self.old self.new) }
    {
        let mut awake = Awake::Everyone;
        let mut seen = Seen::of(self);
        'rounds: loop {
            let woken = self.round(alloc, awake)?;
            if woken.moved {
                awake = Awake::Those(woken.bits);
                seen = Seen::of(self);
            } else if awake.is_everyone() {
                return Ok(());
            } else {
                awake = Awake::Everyone;
            }
        }
    }

    /// A turn of each component that is awake, and of each channel that leads from one or to one.
    fn round(&mut self, alloc: Global, awake: Awake) -> Result<Woken, NoMemory>
        requires { IsMesh V.behaviour V.settled self.old }
        ensures { IfOk result (λ woken. Rounds V.behaviour awake self.old self.new woken.moved) }
    {
        let ran = self.run_each(alloc, awake)?;
        let carried = self.carry_each(awake)?;
        Ok(ran.and(carried))
    }

    fn run_each(&mut self, alloc: Global, awake: Awake) -> Result<Woken, NoMemory>
        requires { IsMesh V.behaviour V.settled self.old }
        ensures { IfOk result (λ woken.
            RunsEach V.behaviour awake (length self.old.runners) self.old self.new woken.moved) }
    {
        let components = self.runners.len();
        let mut woken = Woken::none();
        'components: for component in 0..components {
            let moved = self.run_on(alloc, awake, component)?;
            woken = woken.after(moved, component);
        }
        Ok(woken)
    }

    /// Processes the events of a component for as long as they may be processed. Tells whether there were any.
    fn run_on(&mut self, alloc: Global, awake: Awake, component: usize) -> Result<bool, NoMemory>
        requires { IsMesh V.behaviour V.settled self.old }
        ensures { IfOk result (RunsOn V.behaviour awake component self.old self.new) }
    {
        if component >= self.runners.len() {
            return Ok(false);
        }
        if !awake.includes(component) {
            return Ok(false);
        }
        let ran = self.runners[component].events(alloc, u64::MAX)?;
        Ok(ran > 0)
    }

    fn carry_each(&mut self, awake: Awake) -> Result<Woken, NoMemory>
        requires { IsMesh V.behaviour V.settled self.old }
        ensures { IfOk result (λ woken.
            CarriesEach V.behaviour awake (length self.old.ways) self.old self.new woken.moved) }
    {
        let channels = self.ways.len();
        let mut woken = Woken::none();
        'channels: for channel in 0..channels {
            woken = self.carry(awake, channel, woken)?;
        }
        Ok(woken)
    }

    /// A channel's turn, if one of its ends is awake.
    fn carry(&mut self, awake: Awake, channel: usize, woken: Woken) -> Result<Woken, NoMemory>
        requires { IsMesh V.behaviour V.settled self.old }
        ensures { IfOk result (λ then.
            (moved : Bool) × Carries V.behaviour awake channel self.old self.new moved ×
            (then.moved ≡ woken.moved || moved)) }
    {
        if channel >= self.ways.len() {
            return Ok(woken);
        }
        let way = self.ways[channel];
        if !awake.touches(way) {
            return Ok(woken);
        }
        let moved = self.carry_all(channel)?;
        Ok(woken.along(moved, way))
    }

    /// Makes the steps on a channel, for as long as one may be.
    fn carry_all(&mut self, channel: usize) -> Result<bool, NoMemory>
        requires { IsMesh V.behaviour V.settled self.old }
        ensures { IfOk result (Carries V.behaviour Everyone channel self.old self.new) }
    {
        let mut moved = false;
        let mut seen = Seen::of(self);
        'messages: loop {
            let more = self.carry_one(channel)?;
            if !more {
                return Ok(moved);
            }
            moved = true;
            seen = Seen::of(self);
        }
    }

    /// Sends the first message that waits on a channel, lets what is between its ends go on, and receives the first message
    /// that is there.
    fn carry_one(&mut self, channel: usize) -> Result<bool, NoMemory>
        requires { IsMesh V.behaviour V.settled self.old }
        ensures { IfOk result (Carries V.behaviour Everyone channel self.old self.new) }
    {
        let sent = self.send(channel);
        let passed = self.pass_on(channel)?;
        let got = self.poll(channel)?;
        let begun = either(sent, passed);
        Ok(either(begun, got))
    }

    /// On a channel that goes by proxies, takes the next message, moves all bytes that are in the pipe, and puts the first
    /// message that was read.
    fn pass_on(&mut self, channel: usize) -> Result<bool, NoMemory>
        requires { IsMesh V.behaviour V.settled self.old }
        ensures { IfOk result (PassesOn V.behaviour channel self.old self.new) }
    {
        let taken = self.take(channel)?;
        let moved = self.move_all(channel)?;
        let placed = self.put(channel);
        let begun = either(taken, moved);
        Ok(either(begun, placed))
    }

    fn move_all(&mut self, channel: usize) -> Result<bool, NoMemory>
        requires { IsMesh V.behaviour V.settled self.old }
        ensures { IfOk result (MovesAll V.behaviour channel self.old self.new) }
    {
        if channel >= self.ways.len() {
            return Ok(false);
        }
        let bytes = self.carriers[channel].in_pipe();
        self.move_bytes(channel, bytes as u64)
    }

    /// Whether all components have ended.
    pub fn ended(&self) -> bool
        ensures { IsTrue result ↔ HaveEnded V.behaviour self.now.runners }
    {
        all_ended(self.runners.as_slice())
    }

    /// What the components have logged so far, and how many messages were made for each channel. It takes no memory.
    pub fn outcome(self) -> Outcome
        ensures logs { result.logs.lists ≡ logs_left self }
        ensures counts { result.counts ≡ counts_left self }
    {
        let Mesh {
            runners,
            ways,
            carriers,
            room,
        } = self;
        drop(carriers);
        let Room {
            mut logs,
            mut by_port,
            mut counts,
        } = room;
        finish_all(runners, &mut logs, &mut by_port);
        count_all(ways.as_slice(), by_port.as_slice(), &mut counts);
        Outcome {
            logs: Logs {
                lists: Items::from_vec(logs),
            },
            counts: Items::from_vec(counts),
        }
    }
}

fn all_ended<V: Device>(runners: &[Runner<V>]) -> bool
    ensures { IsTrue result ↔ HaveEnded V.behaviour runners.now }
{
    for (_component, runner) in runners.iter().enumerate() {
        if !runner.ended() {
            return false;
        }
    }
    true
}
