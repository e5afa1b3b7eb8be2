ghost use Rattle.std.specs.Prelude.{◌≡◌, ◌+◌, ◌≤◌, [], length, IfOk};

use cs_base::no_memory::NoMemory;
use cs_base::queue::Queue;
use std::alloc::Global;
use std::marker::Model;

/// The bytes that a pipe holds at most.
const PLACES: usize = 65536;

/// The bytes that one end took and the other has not given.
#[derive(Debug, Drop)]
pub(crate) struct Ring {
    held: Queue<u8>,
}

impl Model for Ring {
    ghost use Rattle.std.specs.Prelude.{◌+◌, ◌≤◌, ℕ, List, length};

    ghost Value = { List ℕ };

    ghost view = { λ ring. ring.held.items };

    ghost invariant = { λ ring. 65536 ≤ length ring.held.items + ring.held.spare };
}

impl Ring {
    /// An empty one, which takes its memory here.
    pub(crate) fn new(alloc: Global) -> Result<Ring, NoMemory>
        ensures { IfOk result (λ ring. ring ≡ []) }
    {
        let mut held = Queue::new(alloc);
        held.reserve(PLACES)?;
        Ok(Ring { held })
    }

    /// Takes bytes from the front, as many as there is room for, and says how many.
    pub(crate) fn put(&mut self, bytes: &[u8]) -> usize
        ensures { result ≤ length bytes.now }
    {
        let room = PLACES.saturating_sub(self.held.len());
        let count = bytes.len().min(room);
        fill(&mut self.held, &bytes[..count]);
        count
    }

    /// Fills the buffer from its front, as far as there are bytes, and says how many.
    pub(crate) fn take(&mut self, buffer: &mut [u8]) -> usize
        ensures { result ≤ length buffer.new }
    {
        drain(&mut self.held, buffer)
    }
}

// Puts bytes in for which there is room.
fn fill(held: &mut Queue<u8>, bytes: &[u8])
    requires { length bytes.now ≤ held.old.spare }
    ensures { length held.new.items + held.new.spare ≡ length held.old.items + held.old.spare }
{
    for at in 0..bytes.len() {
        held.push_reserved(bytes[at]);
    }
}

// Takes bytes out while there are some and the buffer has room, and says how many.
fn drain(held: &mut Queue<u8>, buffer: &mut [u8]) -> usize
    ensures count { result ≤ length buffer.new }
    ensures room { length held.new.items + held.new.spare ≡ length held.old.items + held.old.spare }
{
    for at in 0..buffer.len() {
        match held.pop() {
            Some(byte) => buffer[at] = byte,
            None => return at,
        }
    }
    buffer.len()
}
