//! Hosts, their adapters, and the switches.
ghost use Rattle.std.specs.Prelude.{◌≡◌, ◌≤◌, ◌<◌, ◌+◌, ◌∷◌, true, map, IfOk, decimal};
ghost use Rattle.cs_base.specs.Names.{is_name};
ghost use Rattle.load_gen.specs.Load.{member_of, members, host, adapter, first_switch, second_switch};

use cs_base::{
    HostConfig, Items, Mac, Name, NicConfig, NoMemory, Octets, SwitchConfig, Text, Time, decimal,
};
use std::alloc::Global;
use topology_file::{Component, Config};

/// How long the switches remember an address: 300 s.
const AGE: Time = Time(300_000_000_000_000);

/// A letter and a number.
fn name(alloc: Global, letter: u8, number: u32) -> Result<Name, NoMemory>
    requires { is_name (letter ∷ decimal number) ≡ true }
    ensures { IfOk result (λ name. name ≡ letter ∷ decimal number) }
{
    let mut text = Octets::new(alloc);
    text.append(&[letter])?;
    decimal(u64::from(number), &mut text)?;
    Ok(Name::new(text.as_slice()).unwrap())
}

fn host(alloc: Global, number: u32) -> Result<Component, NoMemory>
    requires { number < 30 }
    ensures { IfOk result (λ made. member_of made ≡ host number) }
{
    let name = name(alloc, b'h', number)?;
    let image = Text::new(alloc, "ping.bin")?;
    Ok(Component {
        name,
        config: Config::Host(HostConfig {
            ram: 65_536,
            cycle: Time(10_000),
            pcie: 1,
            mem: 0,
            hart: number,
            image,
        }),
    })
}

fn adapter(alloc: Global, number: u32) -> Result<Component, NoMemory>
    requires { number < 30 }
    ensures { IfOk result (λ made. member_of made ≡ adapter number) }
{
    let name = name(alloc, b'n', number)?;
    Ok(Component {
        name,
        config: Config::Nic(NicConfig {
            mac: Mac([2, 0, 0, 0, 0, number as u8]),
        }),
    })
}

fn first_switch(alloc: Global, n: u32) -> Result<Component, NoMemory>
    requires { n ≤ 30 }
    ensures { IfOk result (λ made. member_of made ≡ first_switch n) }
{
    let name = name(alloc, b's', 0)?;
    Ok(Component {
        name,
        config: Config::Switch(SwitchConfig {
            ports: n.div_ceil(2) + 1,
            age: AGE,
        }),
    })
}

fn second_switch(alloc: Global, n: u32) -> Result<Component, NoMemory>
    requires { n ≤ 30 }
    ensures { IfOk result (λ made. member_of made ≡ second_switch n) }
{
    let name = name(alloc, b's', 1)?;
    Ok(Component {
        name,
        config: Config::Switch(SwitchConfig {
            ports: n / 2 + 1,
            age: AGE,
        }),
    })
}

/// The components of the system of n stations.
pub fn components(alloc: Global, n: u32) -> Result<Items<Component>, NoMemory>
    requires { n ≤ 30 }
    ensures { IfOk result (λ components. map member_of components ≡ members n) }
{
    let mut components = Items::new(alloc);
    'hosts: for number in 0..n {
        components.push(host(alloc, number)?)?;
    }
    'adapters: for number in 0..n {
        components.push(adapter(alloc, number)?)?;
    }
    components.push(first_switch(alloc, n)?)?;
    components.push(second_switch(alloc, n)?)?;
    Ok(components)
}
