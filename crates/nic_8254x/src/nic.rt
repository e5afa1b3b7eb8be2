ghost use Rattle.std.specs.Prelude.{◌≡◌, ◌++◌, ◌∷◌, IfOk, OnOk};
ghost use Rattle.nic_8254x.specs.State.{started, has_id, dropped};
ghost use Rattle.nic_8254x.specs.Adapter.{tells, tells_level};
ghost use Rattle.nic_8254x.specs.Sound.{IsSettledAdapter};
ghost use Rattle.nic_8254x.specs.Parts.{IsOf};

use crate::frames::Frames;
use crate::state::{RxStep, TxStep};
use cs_base::configs::NicConfig;
use cs_base::{NoMemory, Octets};
use device_api::Effects;
use nic_regs::Regs;
use pcie_proto::DevMsg;
use sb_message::Body;
use std::alloc::Global;
use std::marker::Model;

/// The port to the host.
pub(crate) const PCIE: u32 = 0;

/// The port to the network.
pub(crate) const ETHERNET: u32 = 1;

/// An adapter of the Intel 8254x family.
#[derive(Debug, Drop)]
pub struct Nic {
    pub(crate) regs: Regs,
    pub(crate) queue: Frames,
    /// The bytes of the first frame that earlier descriptors hold.
    pub(crate) filled: u32,
    pub(crate) receiving: RxStep,
    /// What was read so far of the frame that is sent.
    pub(crate) work: Octets,
    pub(crate) sending: TxStep,
    pub(crate) next_id: u64,
    /// The level of the interrupt line that was last told.
    pub(crate) told: bool,
}

impl Model for Nic {
    ghost use Rattle.nic_8254x.specs.State.{Adapter};
    ghost use Rattle.nic_8254x.specs.Valid.{IsAdapter};

    ghost Value = { Adapter };

    ghost view = { λ n. record {
      regs = n.regs;
      queue = n.queue;
      filled = n.filled;
      receiving = n.receiving;
      work = n.work;
      sending = n.sending;
      next_id = n.next_id;
      told = n.told;
    } };

    ghost invariant = { λ n. IsAdapter n.queue n.filled n.receiving n.sending };
}

impl Nic {
    /// An adapter whose registers are as they start, and whose rings are empty.
    #[tactic(auto, using(crate::specs::AdapterKeeps::started_settled))]
    pub fn start(alloc: Global, config: &NicConfig) -> Result<Nic, NoMemory>
        ensures state { IfOk result (λ nic. nic ≡ started config.now.mac) }
        ensures of_config { IfOk result (IsOf config.now) }
        ensures at_start { IfOk result (λ nic. IsSettledAdapter nic 0) }
    {
        Ok(Nic {
            regs: Regs::new(config.mac),
            queue: Frames::new(alloc),
            filled: 0,
            receiving: RxStep::Idle,
            work: Octets::new(alloc),
            sending: TxStep::Idle,
            next_id: 0,
            told: false,
        })
    }

    /// Whether an id is left: the last number is none.
    pub(crate) fn has_id(&self) -> bool
        ensures { result ≡ has_id self.now }
    {
        self.next_id < u64::MAX
    }

    /// The frames that wait and are in work, and what was asked for, are dropped.
    pub(crate) fn drop_all(&mut self, alloc: Global)
        ensures { self.new ≡ dropped self.old }
    {
        self.receiving = RxStep::Idle;
        self.filled = 0;
        self.queue = Frames::new(alloc);
        self.work = Octets::new(alloc);
        self.sending = TxStep::Idle;
    }

    /// Tells the level of the interrupt line, where it differs from what was last told.
    #[tactic(auto, unfolding(crate::specs::Adapter::tells))]
    pub(crate) fn tell(&mut self, out: &mut Effects) -> Result<(), NoMemory>
        ensures state { OnOk result (self.new ≡ (tells self.old).state) }
        ensures sends { OnOk result (out.new.sends ≡ out.old.sends ++ (tells self.old).sends) }
        ensures lines { OnOk result (out.new.lines ≡ out.old.lines ++ (tells self.old).lines) }
    {
        match (self.told, self.regs.line()) {
            (true, false) => self.tell_level(false, out),
            (false, true) => self.tell_level(true, out),
            _ => Ok(()),
        }
    }

    fn tell_level(&mut self, high: bool, out: &mut Effects) -> Result<(), NoMemory>
        ensures state { OnOk result (self.new ≡ (tells_level self.old high).state) }
        ensures sends { OnOk result (out.new.sends
            ≡ out.old.sends ++ (tells_level self.old high).sends) }
        ensures lines { OnOk result (out.new.lines
            ≡ out.old.lines ++ (tells_level self.old high).lines) }
    {
        out.send(PCIE, Body::Dev(DevMsg::Level { high }))?;
        self.told = high;
        Ok(())
    }
}
