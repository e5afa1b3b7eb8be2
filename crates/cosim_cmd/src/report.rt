//! What a refused command says and answers.
ghost use Rattle.std.specs.Prelude.{◌≡◌};
ghost use Rattle.cosim_cmd.specs.Refusals.{status_of, line_of};
ghost use Rattle.cosim_cmd.specs.Written.{IsAttempted};

use crate::breaks::Break;
use crate::refusal::{OutputBad, Refusal};
use crate::write::write_all;
use cs_base::Sink;

fn write_line<E: Sink>(err: &mut E, line: &[u8])
    ensures { IsAttempted (E.seen err.old) (E.seen err.new) line.now }
{
    let _ = write_all(err, line);
}

impl Break {
    ghost use Rattle.cosim_cmd.specs.Refusals.{break_status};

    /// The exit status.
    fn status(&self) -> u8
        ensures { result ≡ break_status self.now }
    {
        match self {
            Break::Lost { .. } => 6,
            Break::Peer { .. } => 7,
            Break::Differs { .. } => 8,
        }
    }
}

impl OutputBad {
    ghost use Rattle.cosim_cmd.specs.Refusals.{output_status, output_line};

    /// The exit status.
    fn status(&self) -> u8
        ensures { result ≡ output_status self.now }
    {
        match self {
            OutputBad::NoMemory => 1,
            OutputBad::File(_) => 3,
            OutputBad::Topology(_) => 4,
            OutputBad::Image(_) => 5,
            OutputBad::Broken { cause, .. } => cause.status(),
            OutputBad::Schedule(_) => 10,
            OutputBad::Asm(_) => 11,
        }
    }

    /// The line, with its line feed.
    fn line(&self) -> &[u8]
        ensures { result.now ≡ output_line self.now }
    {
        match self {
            OutputBad::NoMemory => b"cosim: no memory\n",
            OutputBad::File(line)
            | OutputBad::Topology(line)
            | OutputBad::Image(line)
            | OutputBad::Broken { line, .. }
            | OutputBad::Schedule(line)
            | OutputBad::Asm(line) => line.as_slice(),
        }
    }
}

impl Refusal {
    ghost use Rattle.cosim_cmd.specs.Refusals.{status_of, line_of};

    /// The exit status.
    fn status(&self) -> u8
        ensures { result ≡ status_of self.now }
    {
        match self {
            Refusal::NoMemory => 1,
            Refusal::Usage => 2,
            Refusal::Out => 9,
            Refusal::NoOutput(bad) => bad.status(),
        }
    }

    /// The line, with its line feed.
    fn line(&self) -> &[u8]
        ensures { result.now ≡ line_of self.now }
    {
        match self {
            Refusal::NoMemory => b"cosim: no memory\n",
            Refusal::Usage => b"cosim: usage\n",
            Refusal::Out => b"cosim: out\n",
            Refusal::NoOutput(bad) => bad.line(),
        }
    }
}

/// Writes the line, and answers the exit status. Where the line can't be written, the status is the same.
pub fn report<E: Sink>(err: &mut E, refusal: &Refusal) -> u8
    ensures status { result ≡ status_of refusal.now }
    ensures line { IsAttempted (E.seen err.old) (E.seen err.new) (line_of refusal.now) }
{
    write_line(err, refusal.line());
    refusal.status()
}
