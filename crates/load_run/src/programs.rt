//! The programs of the hosts.
ghost use Rattle.std.specs.Prelude.{◌≡◌, IfOk, replicate};

use cs_base::{NoMemory, Octets};
use std::alloc::Global;

/// The program for each of n hosts, which is the same.
pub fn programs(alloc: Global, n: u32, program: &Octets) -> Result<Vec<Octets>, NoMemory>
    ensures { IfOk result (λ images. images.items ≡ replicate n program.now) }
{
    let mut images = Vec::new(alloc);
    for number in 0..n {
        images.push(program.copy()?)?;
    }
    Ok(images)
}
