//! The programs of hosts.
ghost use Rattle.std.specs.Prelude.{◌≡◌, ◌≤◌, ◌++◌, IfOk, OnOk, length};
ghost use Rattle.std.specs.Option.{option_to_list};
ghost use Rattle.device_set.specs.Images.{image_name, image_names, next_image, images_after, fits, too_long_from};

use cs_base::{NoMemory, Octets, Text};
use std::alloc::Global;
use topology_file::{Component, Config, Topology};

/// Puts the name of a component's program, if it has one, behind others.
fn add_name(alloc: Global, names: &mut Vec<Text>, config: &Config) -> Result<(), NoMemory>
    ensures { OnOk result (names.new.items ≡ names.old.items ++ option_to_list (image_name config.now)) }
{
    if let Config::Host(host) = config {
        names.push(Text::new(alloc, host.image.as_str())?)?;
    }
    Ok(())
}

/// The names of the files with the programs of a topology's hosts, in the order of its components.
pub fn image_names(alloc: Global, topology: &Topology) -> Result<Vec<Text>, NoMemory>
    ensures { IfOk result (λ names. names.items ≡ image_names topology.now.components) }
{
    let mut names = Vec::new(alloc);
    for component in topology.components.as_slice() {
        add_name(alloc, &mut names, &component.config)?;
    }
    Ok(names)
}

/// Of the programs that are left, the next host's; empty where none is left.
pub(crate) fn next_image(left: &[Octets]) -> &[u8]
    ensures { result.now ≡ next_image left.now }
{
    match left {
        [image, ..] => image.as_slice(),
        [] => &[],
    }
}

/// The programs that are left after a component.
pub(crate) fn images_after<'a>(config: &Config, left: &'a [Octets]) -> &'a [Octets]
    ensures { result.now ≡ images_after config.now left.now }
{
    match (config, left) {
        (Config::Host(_), [_, rest @ ..]) => rest,
        _ => left,
    }
}

/// Whether a program is not longer than the RAM of its host.
fn fits(config: &Config, image: &[u8]) -> bool
    ensures { result ≡ fits config.now image.now }
{
    match config {
        Config::Host(host) => image.len() <= host.ram as usize,
        _ => true,
    }
}

/// The first component whose program is longer than its RAM.
pub(crate) fn first_too_long(components: &[Component], images: &[Octets]) -> Option<u32>
    requires { length components.now ≤ 64 }
    ensures { result ≡ too_long_from 0 components.now images.now }
{
    let mut left = images;
    for (number, component) in components.iter().enumerate() {
        if !fits(&component.config, next_image(left)) {
            return Some(number as u32);
        }
        left = images_after(&component.config, left);
    }
    None
}
