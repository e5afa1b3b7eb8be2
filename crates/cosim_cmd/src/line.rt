//! The lines that say why a command is refused.
ghost use Rattle.std.specs.Prelude.{◌≡◌, ◌++◌, IfOk, OnOk};
ghost use Rattle.cosim_cmd.specs.Lines.{entry_text, file_line, toml_line, topology_line, lost_line, peer_line, differs_line, break_line, image_line, schedule_line, asm_line};

use crate::breaks::Break;
use cs_base::{NoMemory, Octets, PeerReason, decimal};
use rv32_asm::AsmReason;
use std::alloc::Global;
use topology_file::{Entry, TopoReason};

/// About a file that can't be read.
pub fn file_line(alloc: Global, name: &str) -> Result<Octets, NoMemory>
    ensures { IfOk result (λ line. line ≡ file_line name.now) }
{
    let mut line = Octets::new(alloc);
    line.append(b"cosim: file ")?;
    line.append(name.as_bytes())?;
    line.append(b"\n")?;
    Ok(line)
}

/// Appends how an entry of a topology is named.
fn name_entry(entry: Entry, line: &mut Octets) -> Result<(), NoMemory>
    ensures { OnOk result (line.new ≡ line.old ++ entry_text entry) }
{
    match entry {
        Entry::Top => line.append(b"top"),
        Entry::Component(number) => {
            line.append(b"component ")?;
            decimal(u64::from(number), line)
        }
        Entry::Link(number) => {
            line.append(b"link ")?;
            decimal(u64::from(number), line)
        }
    }
}

/// About a topology that is refused for a reason at an entry.
pub fn topology_line(alloc: Global, reason: TopoReason, entry: Entry) -> Result<Octets, NoMemory>
    ensures { IfOk result (λ line. line ≡ topology_line reason entry) }
{
    let mut line = Octets::new(alloc);
    line.append(b"cosim: topology ")?;
    line.append(reason.text().as_bytes())?;
    line.append(b" at ")?;
    name_entry(entry, &mut line)?;
    line.append(b"\n")?;
    Ok(line)
}

/// About a text that is no TOML document.
pub fn toml_line(alloc: Global) -> Result<Octets, NoMemory>
    ensures { IfOk result (λ line. line ≡ toml_line) }
{
    let mut line = Octets::new(alloc);
    line.append(b"cosim: topology toml\n")?;
    Ok(line)
}

/// About a channel whose wire is lost.
fn lost_line(alloc: Global, channel: u32) -> Result<Octets, NoMemory>
    ensures { IfOk result (λ line. line ≡ lost_line channel) }
{
    let mut line = Octets::new(alloc);
    line.append(b"cosim: link lost ")?;
    decimal(u64::from(channel), &mut line)?;
    line.append(b"\n")?;
    Ok(line)
}

/// About a channel on which bytes came that can't be.
fn peer_line(
    alloc: Global,
    channel: u32,
    offset: u64,
    reason: PeerReason,
) -> Result<Octets, NoMemory>
    ensures { IfOk result (λ line. line ≡ peer_line channel offset reason) }
{
    let mut line = Octets::new(alloc);
    line.append(b"cosim: bad peer ")?;
    decimal(u64::from(channel), &mut line)?;
    line.append(b" ")?;
    decimal(offset, &mut line)?;
    line.append(b" ")?;
    line.append(reason.text())?;
    line.append(b"\n")?;
    Ok(line)
}

/// About a channel on which other bytes came than were sent.
fn differs_line(alloc: Global, channel: u32, offset: u64) -> Result<Octets, NoMemory>
    ensures { IfOk result (λ line. line ≡ differs_line channel offset) }
{
    let mut line = Octets::new(alloc);
    line.append(b"cosim: link differs ")?;
    decimal(u64::from(channel), &mut line)?;
    line.append(b" ")?;
    decimal(offset, &mut line)?;
    line.append(b"\n")?;
    Ok(line)
}

/// About a run that is broken off.
pub fn break_line(alloc: Global, cause: &Break) -> Result<Octets, NoMemory>
    ensures { IfOk result (λ line. line ≡ break_line cause.now) }
{
    match cause {
        Break::Lost { channel } => lost_line(alloc, *channel),
        Break::Peer {
            channel,
            offset,
            reason,
        } => peer_line(alloc, *channel, *offset, *reason),
        Break::Differs { channel, offset } => differs_line(alloc, *channel, *offset),
    }
}

/// About a line of a schedule.
pub fn schedule_line(alloc: Global, number: u64) -> Result<Octets, NoMemory>
    ensures { IfOk result (λ line. line ≡ schedule_line number) }
{
    let mut line = Octets::new(alloc);
    line.append(b"cosim: schedule ")?;
    decimal(number, &mut line)?;
    line.append(b"\n")?;
    Ok(line)
}

/// About a host whose program is too long.
pub fn image_line(alloc: Global, name: &[u8]) -> Result<Octets, NoMemory>
    ensures { IfOk result (λ line. line ≡ image_line name.now) }
{
    let mut line = Octets::new(alloc);
    line.append(b"cosim: image ")?;
    line.append(name)?;
    line.append(b"\n")?;
    Ok(line)
}

/// About a line of an assembler's source.
pub fn asm_line(alloc: Global, number: u64, reason: AsmReason) -> Result<Octets, NoMemory>
    ensures { IfOk result (λ line. line ≡ asm_line number reason) }
{
    let mut line = Octets::new(alloc);
    line.append(b"cosim: asm ")?;
    decimal(number, &mut line)?;
    line.append(b" ")?;
    line.append(reason.text())?;
    line.append(b"\n")?;
    Ok(line)
}
