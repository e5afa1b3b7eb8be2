ghost use Rattle.std.specs.Prelude.{◌≡◌, ◌≤◌, ◌<◌, ◌++◌, ◌∷◌, [], length, drop, All, OnOk, OnErr, IfOk};
ghost use Rattle.eth_proto.specs.Frame.{IsFrame};
ghost use Rattle.nic_8254x.specs.Receiving.{first};

use cs_base::{Items, NoMemory, Octets, Queue};
use eth_proto::EthMsg;
use std::alloc::Global;
use std::marker::Model;

/// The frames that wait to be received, the first one first.
#[derive(Debug, Drop)]
pub(crate) struct Frames {
    queue: Queue<EthMsg>,
}

impl Model for Frames {
    ghost use Rattle.std.specs.Prelude.{List, ℕ};

    ghost Value = { List (List ℕ) };

    ghost view = { λ f. f.queue.items };
}

impl Frames {
    pub(crate) fn new(alloc: Global) -> Frames
        ensures { result ≡ [] }
    {
        Frames {
            queue: Queue::new(alloc),
        }
    }

    pub(crate) fn from_slice(alloc: Global, frames: &[Octets]) -> Result<Frames, NoMemory>
        requires { All IsFrame frames.now }
        ensures { IfOk result (λ made. made ≡ frames.now) }
    {
        let mut queue = Queue::new(alloc);
        'frames: for frame in frames {
            queue.push(EthMsg::new(frame.copy()?).unwrap())?;
        }
        Ok(Frames { queue })
    }

    pub(crate) fn into_items(self, alloc: Global) -> Result<Items<Octets>, NoMemory>
        ensures items { IfOk result (λ items. items ≡ self) }
        ensures frames { IfOk result (All IsFrame) }
    {
        let mut queue = self.queue;
        let mut items = Items::new(alloc);
        'frames: while let Some(frame) = queue.pop() {
            items.push(Octets::from_slice(alloc, frame.frame())?)?;
        }
        Ok(items)
    }

    pub(crate) fn len(&self) -> usize
        ensures { result ≡ length self.now }
    {
        self.queue.len()
    }

    /// The first frame; no bytes where no frame waits.
    pub(crate) fn first(&self) -> &[u8]
        ensures bytes { result.now ≡ first self.now }
        ensures few { length result.now ≤ 1514 }
        ensures some { 0 < length self.now → 14 ≤ length result.now }
    {
        match self.queue.first() {
            Some(frame) => frame.frame(),
            None => &[],
        }
    }

    pub(crate) fn push(&mut self, frame: EthMsg) -> Result<(), NoMemory>
        ensures ok { OnOk result (self.new ≡ self.old ++ frame ∷ []) }
        ensures err { OnErr result (self.new ≡ self.old) }
    {
        self.queue.push(frame)
    }

    pub(crate) fn drop_first(&mut self)
        ensures { self.new ≡ drop 1 self.old }
    {
        let _frame = self.queue.pop();
    }
}
