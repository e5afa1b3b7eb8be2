//! The files that a command reads.
ghost use Rattle.std.specs.Prelude.{◌≡◌, IfOk, IfErr};
ghost use Rattle.cosim_cmd.specs.Inputs.{AsksAtMost, AsksBeginning, IsReadAs, IsUnreadAs, AreRead, IsOneUnread};
ghost use Rattle.cosim_cmd.specs.Refusals.{IsFault};

use crate::line::file_line;
use crate::refusal::Fault;
use cs_base::{FileBad, Files, Items, Octets, Text};
use std::alloc::Global;

/// The bytes of a file.
pub fn content<F: Files>(alloc: Global, name: &str, files: &mut F) -> Result<Octets, Fault>
    ensures read { IfOk result (IsReadAs name.now (F.seen files.old) (F.seen files.new)) }
    ensures refused { IfErr result (IsFault (IsUnreadAs name.now (F.seen files.old) (F.seen files.new))) }
    ensures asked { AsksAtMost name.now (F.seen files.old) (F.seen files.new) }
    ensures files_kept { (F.seen files.new).held ≡ (F.seen files.old).held }
    ensures no_fault { IfOk result (λ _. (F.seen files.new).faults ≡ (F.seen files.old).faults) }
{
    match files.read(alloc, name) {
        Ok(content) => Ok(content),
        Err(FileBad::Failed) => Err(Fault::Line(file_line(alloc, name)?)),
        Err(FileBad::NoMemory) => Err(Fault::NoMemory),
    }
}

/// The bytes of files, read one after another.
pub fn contents<F: Files>(
    alloc: Global,
    names: &[Text],
    files: &mut F,
) -> Result<Vec<Octets>, Fault>
    ensures read { IfOk result (λ contents. AreRead names.now (F.seen files.old) (F.seen files.new) contents.items) }
    ensures refused { IfErr result (IsFault (IsOneUnread names.now (F.seen files.old) (F.seen files.new))) }
    ensures asked { AsksBeginning names.now (F.seen files.old) (F.seen files.new) }
    ensures files_kept { (F.seen files.new).held ≡ (F.seen files.old).held }
    ensures no_fault { IfOk result (λ _. (F.seen files.new).faults ≡ (F.seen files.old).faults) }
{
    let mut contents = Items::new(alloc);
    for name in names {
        match content(alloc, name.as_str(), files) {
            Ok(content) => contents.push(content)?,
            Err(fault) => return Err(fault),
        }
    }
    Ok(contents.into_vec())
}
