ghost use Rattle.std.specs.Prelude.{◌≡◌, ◌≤◌, ◌<◌, [], length, true, IsErr, IfOk, OnOk, OnErr, option_map};
ghost use Rattle.cs_base.specs.Outside.{SinkSeen, Rose, written_after};
ghost use Rattle.cs_base.specs.MemForms.{is_among, count_taken, sink_seen, after_write, after_failed_write};

use crate::items::{Items, Octets};
use crate::mem_files::{is_among, one_more};
use crate::no_memory::Failed;
use crate::sink::Sink;
use std::alloc::Global;
use std::marker::Model;

/// A sink in memory, for tests: it tells all, a write takes at most a stated number of bytes, and writes of
/// stated numbers fail. A write that finds no memory fails too.
#[derive(Debug, Drop)]
pub struct MemSink {
    written: Octets,
    most: usize,
    failing: Items<u64>,
    writes: u64,
    faults: u64,
}

impl Model for MemSink {
    ghost use Rattle.std.specs.Prelude.{◌≤◌};
    ghost use Rattle.cs_base.specs.MemForms.{SinkInMemory};

    ghost Value = { SinkInMemory };

    ghost view = { λ s. record {
      written = s.written;
      most = s.most;
      failing = s.failing;
      writes = s.writes;
      faults = s.faults;
    } };

    ghost invariant = { λ s. 1 ≤ s.most };
}

impl MemSink {
    ghost use Rattle.cs_base.specs.MemForms.{unwritten};

    /// An empty sink that takes at most `most` bytes a write; the writes whose numbers, counted from 0, are
    /// in `failing` fail.
    pub fn new(alloc: Global, most: usize, failing: Items<u64>) -> MemSink
        requires { 1 ≤ most }
        ensures { result ≡ unwritten most failing }
    {
        MemSink {
            written: Octets::new(alloc),
            most,
            failing,
            writes: 0,
            faults: 0,
        }
    }

    /// What was written so far.
    pub fn written(&self) -> &[u8]
        ensures { result.now ≡ self.now.written }
    {
        self.written.as_slice()
    }
}

impl Sink for MemSink {
    ghost use Rattle.cs_base.specs.MemForms.{sink_seen};

    ghost seen = { sink_seen };

    fn faults(&self) -> u64 {
        self.faults
    }

    /// What a write takes, what the sink is after it, and that a write of a stated number fails is exact. A write
    /// that finds no memory fails too.
    fn write(&mut self, bytes: &[u8]) -> Result<usize, Failed>
        requires { 0 < length bytes.now }
        ensures some { IfOk result (λ n. 1 ≤ n) }
        ensures within { IfOk result (λ n. n ≤ length bytes.now) }
        ensures taken { IfOk result (λ n. (sink_seen self.new).written
            ≡ option_map (written_after n bytes.now) (sink_seen self.old).written) }
        ensures refused { OnErr result (self.new.written ≡ self.old.written) }
        ensures never_falls { self.old.faults ≤ self.new.faults }
        ensures no_fault { OnOk result (self.new.faults ≡ self.old.faults) }
        ensures failed { OnErr result (Rose self.old.faults self.new.faults) }
        ensures stated { is_among self.old.failing self.old.writes ≡ true → IsErr result }
        ensures count { IfOk result (λ n. n ≡ count_taken self.old bytes.now) }
        ensures after { OnOk result (self.new ≡ after_write self.old bytes.now) }
        ensures after_failed { OnErr result (self.new ≡ after_failed_write self.old) }
    {
        let number = self.writes;
        self.writes = one_more(number);
        let count = bytes.len().min(self.most);
        if !is_among(self.failing.as_slice(), number)
            && self.written.append(&bytes[..count]).is_ok()
        {
            return Ok(count);
        }
        self.faults = one_more(self.faults);
        Err(Failed)
    }
}
