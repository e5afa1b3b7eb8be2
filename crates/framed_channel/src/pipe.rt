ghost use Rattle.std.specs.Prelude.{◌≡◌, ◌≤◌, [], length, take, drop, IfOk, OnErr};
ghost use Rattle.framed_channel.specs.Steps.{TakesFrom};

use cs_base::no_memory::NoMemory;
use port_queue::{PlainQueue, RxPort};
use sb_frame::{LONGEST_FRAME, frame_reserved};
use std::alloc::Global;
use std::marker::Model;

/// So many bytes that have gone stay where they are, before those behind them move up.
const LEFT_BEHIND: usize = 4096;

/// Bytes on their way from one end to the other.
#[derive(Debug, Drop)]
pub(crate) struct Pipe {
    bytes: Vec<u8>,
    // How many bytes at the front have gone.
    gone: usize,
}

impl Model for Pipe {
    ghost use Rattle.std.specs.Prelude.{ℕ, ◌≤◌, List, length, drop};

    ghost Value = { List ℕ };

    ghost view = { λ pipe. drop pipe.gone pipe.bytes.items };

    ghost invariant = { λ pipe. pipe.gone ≤ length pipe.bytes.items };
}

impl Pipe {
    pub(crate) fn new(alloc: Global) -> Pipe
        ensures { result ≡ [] }
    {
        Pipe {
            bytes: Vec::new(alloc),
            gone: 0,
        }
    }

    /// How many bytes are under way.
    pub(crate) fn len(&self) -> usize
        ensures { result ≡ length self.now }
    {
        self.bytes.len() - self.gone
    }

    /// So many bytes at the front.
    pub(crate) fn front(&self, n: usize) -> &[u8]
        requires { n ≤ length self.now }
        ensures { result.now ≡ take n self.now }
    {
        &self.bytes.as_slice()[self.gone..self.gone + n]
    }

    /// So many bytes at the front have gone.
    pub(crate) fn advance(&mut self, n: usize)
        requires { n ≤ length self.old }
        ensures { self.new ≡ drop n self.old }
    {
        self.gone += n;
        if self.gone >= LEFT_BEHIND && self.gone >= self.bytes.len() - self.gone {
            self.move_up();
        }
    }

    // The bytes under way move to the front of the room.
    fn move_up(&mut self)
        ensures { self.new ≡ self.old }
    {
        let left = self.bytes.len() - self.gone;
        self.bytes.rotate_left(self.gone);
        self.bytes.truncate(left);
        self.gone = 0;
    }

    /// The next message of the queue goes to the end as a frame, for which room is made first; false exactly where the
    /// queue has none.
    pub(crate) fn take_from(&mut self, near: &mut PlainQueue) -> Result<bool, NoMemory>
        ensures ok { IfOk result (TakesFrom near.old self.old near.new self.new) }
        ensures near { OnErr result (near.new ≡ near.old) }
        ensures pipe { OnErr result (self.new ≡ self.old) }
    {
        self.bytes.reserve(LONGEST_FRAME)?;
        let Some(m) = near.pop() else {
            return Ok(false);
        };
        frame_reserved(&m, &mut self.bytes);
        Ok(true)
    }
}
