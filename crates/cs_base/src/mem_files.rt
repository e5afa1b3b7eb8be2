ghost use Rattle.std.specs.Prelude.{◌≡◌, IfOk, option_copied};
ghost use Rattle.cs_base.specs.Outside.{one_more};
ghost use Rattle.cs_base.specs.MemForms.{is_among, file_of};

use crate::files::{FileBad, Files};
use crate::items::{Items, Octets};
use crate::no_memory::NoMemory;
use crate::text::Text;
use std::alloc::Global;
use std::marker::Model;

/// One file in memory.
#[derive(Debug, Drop)]
pub struct MemFile {
    pub name: Text,
    pub content: Octets,
}

/// Files in memory, for tests: they tell all, and reads of stated numbers fail. A read of an unknown name fails.
#[derive(Debug, Drop)]
pub struct MemFiles {
    files: Items<MemFile>,
    failing: Items<u64>,
    reads: u64,
    asked: Items<Text>,
    faults: u64,
}

impl Model for MemFiles {
    ghost use Rattle.cs_base.specs.MemForms.{FilesInMemory};

    ghost Value = { FilesInMemory };

    ghost view = { λ m. record {
      files = m.files;
      failing = m.failing;
      reads = m.reads;
      asked = m.asked;
      faults = m.faults;
    } };
}

impl MemFiles {
    ghost use Rattle.cs_base.specs.MemForms.{unread};

    /// These files; the reads whose numbers, counted from 0, are in `failing` fail.
    pub fn new(alloc: Global, files: Items<MemFile>, failing: Items<u64>) -> MemFiles
        ensures { result ≡ unread files failing }
    {
        MemFiles {
            files,
            failing,
            reads: 0,
            asked: Items::new(alloc),
            faults: 0,
        }
    }
}

/// Whether a number is among others.
pub(crate) fn is_among(numbers: &[u64], number: u64) -> bool
    ensures { result ≡ is_among numbers.now number }
{
    numbers.iter().any(|other| *other == number)
}

/// One more, but never past the last value of a counter.
pub(crate) fn one_more(count: u64) -> u64
    ensures { result ≡ one_more count }
{
    count.saturating_add(1)
}

/// The first file of a name.
fn file_of<'a>(files: &'a [MemFile], name: &str) -> Option<&'a MemFile>
    ensures { option_copied result ≡ file_of files.now name.now }
{
    files.iter().find(|file| file.name.as_str() == name)
}

impl MemFiles {
    ghost use Rattle.cs_base.specs.MemForms.{read_gives};

    /// What this read gives: None where it fails.
    fn found(&self, name: &str) -> Result<Option<Octets>, NoMemory>
        ensures { IfOk result (λ found. found ≡ read_gives self.now name.now) }
    {
        if is_among(self.failing.as_slice(), self.reads) {
            return Ok(None);
        }
        match file_of(self.files.as_slice(), name) {
            Some(file) => Ok(Some(file.content.copy()?)),
            None => Ok(None),
        }
    }
}

impl Files for MemFiles {
    ghost use Rattle.std.specs.Prelude.{◌≡◌, ◌≤◌, Some, None, IfOk, OnOk};
    ghost use Rattle.cs_base.specs.Outside.{IsTold, Rose, AsksFor};
    ghost use Rattle.cs_base.specs.MemForms.{files_seen, read_gives, after_read, after_failed_read};

    ghost seen = { files_seen };

    fn faults(&self) -> u64 {
        self.faults
    }

    /// Which reads fail, what they give and what the files are after them is exact, but for want of memory, which
    /// leaves them as they were.
    fn read(&mut self, alloc: Global, name: &str) -> Result<Octets, FileBad>
        ensures content { IfOk result (IsTold ((files_seen self.old).held name.now)) }
        ensures unchanged { (files_seen self.new).held ≡ (files_seen self.old).held }
        ensures asked { AsksFor result name.now (files_seen self.old) (files_seen self.new) }
        ensures never_falls { self.old.faults ≤ self.new.faults }
        ensures no_fault { OnOk result (self.new.faults ≡ self.old.faults) }
        ensures failed { result ≡ Err FileBad.Failed → Rose self.old.faults self.new.faults }
        ensures gives { IfOk result (λ bytes. read_gives self.old name.now ≡ Some bytes) }
        ensures gives_none { result ≡ Err FileBad.Failed → read_gives self.old name.now ≡ None }
        ensures after { OnOk result (self.new ≡ after_read self.old name.now) }
        ensures after_failed { result ≡ Err FileBad.Failed
            → self.new ≡ after_failed_read self.old name.now }
        ensures no_memory { result ≡ Err FileBad.NoMemory → self.new ≡ self.old }
    {
        let found = self.found(name)?;
        self.asked.push(Text::new(alloc, name)?)?;
        self.reads = one_more(self.reads);
        match found {
            Some(content) => Ok(content),
            None => {
                self.faults = one_more(self.faults);
                Err(FileBad::Failed)
            }
        }
    }
}
