ghost use Rattle.std.specs.Prelude.{◌≡◌, ◌≤◌, IfOk, OnOk};
ghost use Rattle.cs_base.specs.Outside.{FilesSeen, IsTold, AsksFor, FailsOnce};

use crate::items::Octets;
use crate::no_memory::NoMemory;
use std::alloc::Global;
use thiserror::Error;

/// Why a file can't be read.
#[derive(Clone, Copy, Debug, PartialEq, Eq, Hash, Error)]
pub enum FileBad {
    /// The read failed, and the count of faults rose.
    #[error("the file can't be read")]
    Failed,
    /// Memory is wanting.
    #[error("no memory")]
    NoMemory,
}

impl From<NoMemory> for FileBad {
    ghost use Rattle.cs_base.specs.declared.files.FileBad.TheVariants.{NoMemory};

    ghost from_gives = { λ _ bad. bad ≡ NoMemory };

    fn from(_error: NoMemory) -> FileBad {
        FileBad::NoMemory
    }
}

/// Files that are read whole by their names. What they hold and which names were asked for may be told to
/// contracts or not; the real files tell nothing.
pub trait Files {
    /// What the files tell of themselves: what is held, what was asked for, how many reads failed.
    ghost seen: { Self → FilesSeen };

    /// How many reads have failed; at 2^64 - 1 the count stands still. It never falls.
    fn faults(&self) -> u64
        ensures { result ≡ (seen self.now).faults };

    /// Reads the file of a name. `Failed` comes only where the count of faults rose; where the file is read, the
    /// count stays.
    fn read(&mut self, alloc: Global, name: &str) -> Result<Octets, FileBad>
        ensures content { IfOk result (IsTold ((seen self.old).held name.now)) }
        ensures unchanged { (seen self.new).held ≡ (seen self.old).held }
        ensures asked { AsksFor result name.now (seen self.old) (seen self.new) }
        ensures never_falls { (seen self.old).faults ≤ (seen self.new).faults }
        ensures no_fault { OnOk result ((seen self.new).faults ≡ (seen self.old).faults) }
        ensures failed { result ≡ Err FileBad.Failed → FailsOnce (seen self.old) (seen self.new) };
}
