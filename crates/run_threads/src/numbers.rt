//! The numbers of the channels at a component's ports.
ghost use Rattle.std.specs.Prelude.{◌≡◌, ◌≤◌, length, slice_get, Some, IfOk};
ghost use Rattle.run_threads.specs.Numbers.{seat, HasNumber, HaveNumbers, AreNumbers};

use cs_base::no_memory::NoMemory;
use mesh_core::way::Seat;
use std::alloc::Global;

/// The number of a port among the ports that are given, of which it is one.
fn number_of(seats: &[Seat], component: u32, port: u32) -> u32
    requires some { HasNumber seats.now (seat component port) }
    requires few { length seats.now ≤ 2048 }
    ensures { slice_get seats.now result ≡ Some (seat component port) }
{
    for number in 0..seats.len() {
        let found = seats[number];
        if found.component == component && found.port == port {
            return number as u32;
        }
    }
    unreachable!()
}

/// The numbers of the first so many ports of a component among the ports that are given.
pub(crate) fn numbers_of(
    alloc: Global,
    seats: &[Seat],
    component: u32,
    ports: u32,
) -> Result<Vec<u32>, NoMemory>
    requires some { HaveNumbers seats.now component ports }
    requires few { length seats.now ≤ 2048 }
    ensures { IfOk result (λ numbers. AreNumbers seats.now component ports numbers.items) }
{
    let mut numbers = Vec::new(alloc);
    for port in 0..ports {
        numbers.push(number_of(seats, component, port))?;
    }
    Ok(numbers)
}
