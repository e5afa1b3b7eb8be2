//! Two beacons as a mesh, stepped by hand, at random and to the end.
ghost use Rattle.std.specs.Prelude.{◌≡◌, ◌∷◌, [], All, map};
ghost use Rattle.cs_base.specs.declared.port_kind.PortKind.TheVariants.{Eth as Ethernet};

use crate::pair::{beacon, link_of, pair};
use cs_base::{Link, NoMemory, Octets, Via, Wiring, decimal};
use device_api::{Device, Logs, Outcome};
use global_model::simulate;
use mesh_core::laws::{a_new_mesh_stands, each_step_keeps_a_mesh_standing};
use mesh_core::{Mesh, Step};
use std::alloc::Global;
use std::test::Fail;

/// A link with this latency and interval, queues of so many slots, and this way.
fn link_by(latency: u64, slots: u32, via: Via) -> Link {
    let mut link = link_of(latency, latency);
    link.slots = slots;
    link.via = via;
    link
}

/// How many of some steps were made, and where they led.
#[derive(Drop)]
struct Walked {
    made: u32,
    ended: bool,
    outcome: Outcome,
}

fn walk<V: Device>(
    alloc: Global,
    devices: Vec<V>,
    wiring: &Wiring,
    steps: &[Step],
) -> Result<Walked, NoMemory>
    requires matches { map V.behaviour.ports devices.items ≡ wiring.now.kinds }
    requires at_start { All (λ device. V.settled device 0) devices.items }
{
    a_new_mesh_stands::<V>();
    each_step_keeps_a_mesh_standing::<V>();
    let mut mesh = Mesh::new(alloc, devices, wiring)?;
    let mut made = 0u32;
    for step in steps {
        let done = mesh.step(alloc, *step)?;
        made = made.saturating_add(u32::from(done));
    }
    let ended = mesh.ended();
    Ok(Walked {
        made,
        ended,
        outcome: mesh.outcome(),
    })
}

fn walk_pair(alloc: Global, wiring: &Wiring, steps: &[Step]) -> Result<Walked, Fail>
    requires kinds { wiring.now.kinds ≡ (Ethernet ∷ []) ∷ ((Ethernet ∷ []) ∷ []) }
{
    let a = beacon(alloc, 2)?;
    let b = beacon(alloc, 1)?;
    let mut devices = Vec::new(alloc);
    devices.push(a)?;
    devices.push(b)?;
    Ok(walk(alloc, devices, wiring, steps)?)
}

fn simulate_pair(alloc: Global, wiring: &Wiring) -> Result<Outcome, Fail>
    requires { wiring.now.kinds ≡ (Ethernet ∷ []) ∷ ((Ethernet ∷ []) ∷ []) }
{
    let a = beacon(alloc, 2)?;
    let b = beacon(alloc, 1)?;
    let mut devices = Vec::new(alloc);
    devices.push(a)?;
    devices.push(b)?;
    Ok(simulate(alloc, devices, wiring)?)
}

const BY_HAND: [Step; 10] = [
    Step::Send(0),
    Step::Poll(0),
    Step::Send(1),
    Step::Poll(1),
    Step::Event(0),
    Step::Event(1),
    Step::Send(0),
    Step::Poll(0),
    Step::Send(1),
    Step::Poll(1),
];

#[test]
fn a_mesh_ends_with_its_last_message(rt: HostRuntime) -> Result<(), Fail> {
    let wiring = pair(rt.alloc(), 1, link_by(500, 2, Via::Queue))?;
    let all = walk_pair(rt.alloc(), &wiring, &BY_HAND)?;
    assert_eq!(rt; (all.made, all.ended), (10, true));
    let most = walk_pair(rt.alloc(), &wiring, &BY_HAND[..9])?;
    assert_eq!(rt; (most.made, most.ended), (9, false));
    Ok(())
}

#[test]
fn no_step_past_the_numbers_and_none_of_a_proxy_is_made(rt: HostRuntime) -> Result<(), Fail> {
    let wiring = pair(rt.alloc(), 1, link_by(500, 2, Via::Queue))?;
    let steps = [
        Step::Event(2),
        Step::Send(2),
        Step::Poll(2),
        Step::Take(0),
        Step::Move(0, 1),
        Step::Put(0),
    ];
    let none = walk_pair(rt.alloc(), &wiring, &steps)?;
    assert_eq!(rt; (none.made, none.ended), (0, false));
    Ok(())
}

/// Two hundred steps by numbers from a seed, each of which is 6364136223846793005 times the one before, plus 1.
fn steps_from(alloc: Global, seed: u64) -> Result<Vec<Step>, NoMemory> {
    let mut steps = Vec::new(alloc);
    let mut number = seed;
    for _step in 0..200 {
        number = number.wrapping_mul(6364136223846793005).wrapping_add(1);
        let which = (number >> 33) as u32 & 1;
        steps.push(match (number >> 40) % 3 {
            0 => Step::Event(which),
            1 => Step::Send(which),
            _ => Step::Poll(which),
        })?;
    }
    Ok(steps)
}

/// The lines of a component as a text.
fn text_of(alloc: Global, logs: &Logs, component: usize) -> Result<Octets, Fail> {
    let mut text = Octets::new(alloc);
    let lines = logs.lists.as_slice().get(component).ok_or("no component")?;
    for line in lines.as_slice() {
        decimal(line.at.picoseconds(), &mut text)?;
        text.append(b" ")?;
        text.append(line.text.as_slice())?;
        text.append(b"\n")?;
    }
    Ok(text)
}

#[test]
fn walks_begin_the_global_run(rt: HostRuntime) -> Result<(), Fail> {
    let wiring = pair(rt.alloc(), 2600, link_by(500, 2, Via::Queue))?;
    let whole = simulate_pair(rt.alloc(), &wiring)?;
    let mut ends = 0u32;
    for seed in 0..10u64 {
        let steps = steps_from(rt.alloc(), seed)?;
        let walked = walk_pair(rt.alloc(), &wiring, steps.as_slice())?;
        for component in [0, 1] {
            let part = text_of(rt.alloc(), &walked.outcome.logs, component)?;
            let all = text_of(rt.alloc(), &whole.logs, component)?;
            assert!(rt; all.as_slice().starts_with(part.as_slice()), "seed {seed}");
            if walked.ended {
                assert_eq!(rt; part.as_slice(), all.as_slice());
            }
        }
        if walked.ended {
            ends = ends.saturating_add(1);
            assert_eq!(rt; walked.outcome.counts.as_slice(), whole.counts.as_slice());
        }
    }
    assert!(rt; ends > 0, "no walk has ended");
    Ok(())
}

/// Whether a mesh that ran to its end has ended, and what it then leaves.
fn run<V: Device>(
    alloc: Global,
    devices: Vec<V>,
    wiring: &Wiring,
) -> Result<(bool, Outcome), NoMemory>
    requires matches { map V.behaviour.ports devices.items ≡ wiring.now.kinds }
    requires at_start { All (λ device. V.settled device 0) devices.items }
{
    a_new_mesh_stands::<V>();
    let mut mesh = Mesh::new(alloc, devices, wiring)?;
    mesh.serial(alloc)?;
    let ended = mesh.ended();
    Ok((ended, mesh.outcome()))
}

fn run_pair(alloc: Global, wiring: &Wiring) -> Result<(bool, Outcome), Fail>
    requires kinds { wiring.now.kinds ≡ (Ethernet ∷ []) ∷ ((Ethernet ∷ []) ∷ []) }
{
    let a = beacon(alloc, 2)?;
    let b = beacon(alloc, 1)?;
    let mut devices = Vec::new(alloc);
    devices.push(a)?;
    devices.push(b)?;
    Ok(run(alloc, devices, wiring)?)
}

/// Whether a run to the end logs and counts what the global simulator does.
fn ends_as_simulated(alloc: Global, latency: u64, slots: u32, via: Via) -> Result<bool, Fail> {
    let wiring = pair(alloc, 2600, link_by(latency, slots, via))?;
    let whole = simulate_pair(alloc, &wiring)?;
    let (mut same, ran) = run_pair(alloc, &wiring)?;
    for component in [0, 1] {
        let part = text_of(alloc, &ran.logs, component)?;
        let all = text_of(alloc, &whole.logs, component)?;
        same = same && part.as_slice() == all.as_slice();
    }
    Ok(same && ran.counts.as_slice() == whole.counts.as_slice())
}

#[test]
fn a_run_to_the_end_is_the_global_run(rt: HostRuntime) -> Result<(), Fail> {
    for via in [Via::Queue, Via::Proxy] {
        assert!(rt; ends_as_simulated(rt.alloc(), 500, 2, via)?);
        assert!(rt; ends_as_simulated(rt.alloc(), 500, 1, via)?, "one place");
        assert!(rt;
            ends_as_simulated(rt.alloc(), 1, 64, via)?,
            "shortest latency and interval"
        );
    }
    Ok(())
}
