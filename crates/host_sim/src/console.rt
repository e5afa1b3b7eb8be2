//! The console, the halt and the trap.

ghost use Rattle.std.specs.Prelude.{◌≡◌, ◌++◌, ◌<◌, OnOk, false};
ghost use Rattle.std.specs.List.{flat_map};
ghost use Rattle.std.specs.Fmt.{digit_glyph};
ghost use Rattle.host_sim.specs.Console.{is_plain, escaped, flushes, prints, ends, halts, traps};

use crate::host::Host;
use crate::state::HostState;
use cs_base::no_memory::NoMemory;
use device_api::{Effects, LineText};
use std::alloc::Global;

const MTVEC: u32 = 0x305;

/// How many bytes the console keeps before it logs them.
pub(crate) const LONGEST: usize = 120;

fn is_plain(byte: u8) -> bool
    ensures { result ≡ is_plain byte }
{
    0x20 <= byte && byte <= 0x7E && byte != b'\\'
}

fn digit(value: u8) -> u8
    requires { value < 16 }
    ensures { result ≡ digit_glyph false value }
{
    if value < 10 {
        b'0' + value
    } else {
        b'a' + (value - 10)
    }
}

fn append_escaped(line: &mut LineText, byte: u8) -> Result<(), NoMemory>
    ensures { OnOk result (line.new ≡ line.old ++ escaped byte) }
{
    if is_plain(byte) {
        return line.append(&[byte]);
    }
    line.append(b"\\x")?;
    line.append(&[digit(byte / 16), digit(byte % 16)])
}

fn append_all(line: &mut LineText, text: &[u8]) -> Result<(), NoMemory>
    ensures { OnOk result (line.new ≡ line.old ++ flat_map escaped text.now) }
{
    for byte in text {
        append_escaped(line, *byte)?;
    }
    Ok(())
}

impl Host {
    /// Logs what is kept as a line.
    #[tactic(auto, unfolding(crate::specs::Console::flushes))]
    fn flush(&mut self, alloc: Global, out: &mut Effects) -> Result<(), NoMemory>
        ensures state { OnOk result (self.new ≡ (flushes self.old).state) }
        ensures sends { OnOk result (out.new.sends ≡ out.old.sends ++ (flushes self.old).sends) }
        ensures lines { OnOk result (out.new.lines ≡ out.old.lines ++ (flushes self.old).lines) }
    {
        let mut line = LineText::new(alloc);
        line.append(b"con ")?;
        append_all(&mut line, self.kept.as_slice())?;
        self.kept.clear();
        out.line_text(line)
    }

    /// Keeps a byte that was stored to the console; a line feed ends the line, and so does the 120th byte.
    #[tactic(auto, unfolding(crate::specs::Console::prints))]
    #[cold]
    #[inline(never)]
    pub(crate) fn print(
        &mut self,
        alloc: Global,
        byte: u8,
        out: &mut Effects,
    ) -> Result<(), NoMemory>
        ensures state { OnOk result (self.new ≡ (prints self.old byte).state) }
        ensures sends { OnOk result (out.new.sends
            ≡ out.old.sends ++ (prints self.old byte).sends) }
        ensures lines { OnOk result (out.new.lines
            ≡ out.old.lines ++ (prints self.old byte).lines) }
    {
        if byte == b'\n' {
            return self.flush(alloc, out);
        }
        let full = self.kept.len() >= LONGEST - 1;
        self.kept.append(&[byte])?;
        if full { self.flush(alloc, out) } else { Ok(()) }
    }

    /// The host is never due again; what is kept, if anything, is logged.
    #[tactic(auto, unfolding(crate::specs::Console::ends))]
    fn end(&mut self, alloc: Global, out: &mut Effects) -> Result<(), NoMemory>
        ensures state { OnOk result (self.new ≡ (ends self.old).state) }
        ensures sends { OnOk result (out.new.sends ≡ out.old.sends ++ (ends self.old).sends) }
        ensures lines { OnOk result (out.new.lines ≡ out.old.lines ++ (ends self.old).lines) }
    {
        self.phase = HostState::Halted;
        if self.kept.len() == 0 {
            Ok(())
        } else {
            self.flush(alloc, out)
        }
    }

    #[tactic(auto, unfolding(crate::specs::Console::halts))]
    #[cold]
    #[inline(never)]
    pub(crate) fn halt(
        &mut self,
        alloc: Global,
        value: u32,
        out: &mut Effects,
    ) -> Result<(), NoMemory>
        ensures state { OnOk result (self.new ≡ (halts self.old value).state) }
        ensures sends { OnOk result (out.new.sends
            ≡ out.old.sends ++ (halts self.old value).sends) }
        ensures lines { OnOk result (out.new.lines
            ≡ out.old.lines ++ (halts self.old value).lines) }
    {
        self.end(alloc, out)?;
        let mut line = LineText::new(alloc);
        line.append(b"halt ")?;
        line.decimal(u64::from(value))?;
        out.line_text(line)
    }

    /// Logs a trap that the core has taken; where there is no handler, it ends the host.
    #[tactic(auto, unfolding(crate::specs::Console::traps))]
    #[cold]
    #[inline(never)]
    pub(crate) fn trap(
        &mut self,
        alloc: Global,
        cause: u32,
        out: &mut Effects,
    ) -> Result<(), NoMemory>
        ensures state { OnOk result (self.new ≡ (traps self.old cause).state) }
        ensures sends { OnOk result (out.new.sends
            ≡ out.old.sends ++ (traps self.old cause).sends) }
        ensures lines { OnOk result (out.new.lines
            ≡ out.old.lines ++ (traps self.old cause).lines) }
    {
        let mut line = LineText::new(alloc);
        line.append(b"trap ")?;
        line.hexadecimal(u64::from(cause))?;
        out.line_text(line)?;
        if self.handler() == 0 {
            self.end(alloc, out)
        } else {
            Ok(())
        }
    }

    /// Where traps go: mtvec.
    fn handler(&self) -> u32
        ensures { result ≡ self.now.core.mtvec }
    {
        self.core.csr(MTVEC).unwrap_or(0)
    }
}
