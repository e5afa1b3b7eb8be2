//! Why a command is refused. Where a line says more than which refusal it is, the refusal has the line.
ghost use Rattle.std.specs.Prelude.{◌≡◌};
ghost use Rattle.cosim_cmd.specs.Refusals.{unread_of, too_long_of, unplayed_of};

use crate::breaks::Break;
use cs_base::{NoMemory, Octets};

/// Why a text can't be taken, or a file can't be read.
#[derive(Debug, Drop)]
pub enum Fault {
    /// For what this line says.
    Line(Octets),
    /// Memory is wanting.
    NoMemory,
}

impl From<NoMemory> for Fault {
    ghost use Rattle.std.specs.Prelude.{◌≡◌};
    ghost use Rattle.cosim_cmd.specs.declared.refusal.Fault.TheVariants.{NoMemory};

    ghost from_gives = { λ _ fault. fault ≡ NoMemory };

    fn from(_error: NoMemory) -> Fault {
        Fault::NoMemory
    }
}

/// Why a command has no output.
#[derive(Debug, Drop)]
pub enum OutputBad {
    /// Memory is wanting.
    NoMemory,
    /// A file can't be read.
    File(Octets),
    /// The file is no topology.
    Topology(Octets),
    /// The program of a host is longer than its RAM.
    Image(Octets),
    /// The run is broken off for this, and the line says so.
    Broken { cause: Break, line: Octets },
    /// A line of the schedule spells no step that is enabled in its turn.
    Schedule(Octets),
    /// The source can't be assembled.
    Asm(Octets),
}

impl From<NoMemory> for OutputBad {
    ghost use Rattle.std.specs.Prelude.{◌≡◌};
    ghost use Rattle.cosim_cmd.specs.declared.refusal.OutputBad.TheVariants.{NoMemory};

    ghost from_gives = { λ _ bad. bad ≡ NoMemory };

    fn from(_error: NoMemory) -> OutputBad {
        OutputBad::NoMemory
    }
}

/// Why a command is refused.
#[derive(Debug, Drop)]
pub enum Refusal {
    /// Memory is wanting while the words are read.
    NoMemory,
    /// The words are no sentence.
    Usage,
    /// There is no output.
    NoOutput(OutputBad),
    /// The output can't be written.
    Out,
}

impl From<NoMemory> for Refusal {
    ghost use Rattle.std.specs.Prelude.{◌≡◌};
    ghost use Rattle.cosim_cmd.specs.declared.refusal.Refusal.TheVariants.{NoMemory};

    ghost from_gives = { λ _ refusal. refusal ≡ NoMemory };

    fn from(_error: NoMemory) -> Refusal {
        Refusal::NoMemory
    }
}

impl From<OutputBad> for Refusal {
    ghost use Rattle.std.specs.Prelude.{◌≡◌};
    ghost use Rattle.cosim_cmd.specs.declared.refusal.Refusal.TheVariants.{NoOutput};

    ghost from_gives = { λ bad refusal. refusal ≡ NoOutput bad };

    fn from(bad: OutputBad) -> Refusal {
        Refusal::NoOutput(bad)
    }
}

/// The refusal for a file that can't be read.
pub fn unread(fault: Fault) -> OutputBad
    ensures { result ≡ unread_of fault }
{
    match fault {
        Fault::Line(line) => OutputBad::File(line),
        Fault::NoMemory => OutputBad::NoMemory,
    }
}

/// The refusal for a program that is too long.
pub fn too_long(fault: Fault) -> OutputBad
    ensures { result ≡ too_long_of fault }
{
    match fault {
        Fault::Line(line) => OutputBad::Image(line),
        Fault::NoMemory => OutputBad::NoMemory,
    }
}

/// The refusal for a schedule that can't be replayed.
pub fn unplayed(fault: Fault) -> OutputBad
    ensures { result ≡ unplayed_of fault }
{
    match fault {
        Fault::Line(line) => OutputBad::Schedule(line),
        Fault::NoMemory => OutputBad::NoMemory,
    }
}
