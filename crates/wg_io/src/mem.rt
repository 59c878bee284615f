ghost use Rattle.std.specs.Prelude.{◌≡◌, ◌≤◌, ◌<◌, ◌↔◌, [], Some, None, Ok, Err, length, IfOk, IfSome, IfNone, IsErr, IsTrue, IsOkUnless, MatchResult};

use crate::take::take_within;
use crate::{Failed, FileFault, Files, NamedFiles, Sink};
use std::alloc::Global;
use std::marker::Model;

/// Files in memory, of which some reads fail, by their numbers from 0. A read of a name that is not
/// there fails too.
#[derive(Drop)]
pub struct MemFiles {
    files: NamedFiles,
    fails: Vec<u64>,
    reads: u64,
    faults: u64,
    taken: u64,
}

impl Model for MemFiles {
    ghost use Rattle.wg_io.specs.MemFiles.{HeldFiles};

    ghost Value = { HeldFiles };

    ghost view = { λ mem. record { files = mem.files; fails = mem.fails.items; reads = mem.reads; faults = mem.faults; taken = mem.taken } };
}

impl MemFiles {
    /// `fails` are the numbers, from 0, of the reads that fail.
    pub fn new(files: NamedFiles, fails: Vec<u64>) -> Self
        ensures { result ≡ record { files = files; fails = fails.items; reads = 0; faults = 0; taken = 0 } }
    {
        MemFiles {
            files,
            fails,
            reads: 0,
            faults: 0,
            taken: 0,
        }
    }
}

impl Files for MemFiles {
    ghost use Rattle.wg_io.specs.MemFiles.{next_read, after_read};
    ghost use Rattle.wg_io.specs.Named.{bytes_under};

    ghost told = { λ mem name. bytes_under mem.files name };

    ghost faults = { λ mem _. mem.faults };

    ghost taken = { λ mem _. mem.taken };

    fn read(&mut self, alloc: Global, name: &str, limit: u64) -> Result<Vec<u8>, FileFault>
        ensures value { IfOk result (λ v. next_read self.old name.now ≡ Some v.items) }
        ensures within { IfSome (next_read self.old name.now) (λ bytes. length bytes ≤ limit → IsOkUnless result FileFault.Memory) }
        ensures beyond { IfSome (next_read self.old name.now) (λ bytes. limit < length bytes → result ≡ Err (FileFault.TooLong limit)) }
        ensures fails { IfNone (next_read self.old name.now) (result ≡ Err FileFault.Failed) }
        ensures after { self.new ≡ after_read self.old (next_read self.old name.now) limit }
        ensures no_fault_is_lost { self.old.faults ≤ self.new.faults }
        ensures no_byte_is_lost { self.old.taken ≤ self.new.taken }
    {
        let fails = self.fails.contains(&self.reads);
        self.reads = self.reads.saturating_add(1);
        if !fails && let Some(bytes) = self.files.find(name) {
            return take_within(alloc, bytes, limit, &mut self.taken);
        }
        self.faults = self.faults.saturating_add(1);
        Err(FileFault::Failed)
    }
}

/// A sink in memory, of which some writes fail, by their numbers from 0. It takes whole pieces.
#[derive(Drop)]
pub struct MemSink {
    bytes: Vec<u8>,
    fails: Vec<u64>,
    writes: u64,
    faults: u64,
}

impl Model for MemSink {
    ghost use Rattle.wg_io.specs.MemSink.{HeldText};

    ghost Value = { HeldText };

    ghost view = { λ mem. record { bytes = mem.bytes.items; fails = mem.fails.items; writes = mem.writes; faults = mem.faults } };
}

impl MemSink {
    /// `fails` are the numbers, from 0, of the writes that fail.
    pub fn new(alloc: Global, fails: Vec<u64>) -> Self
        ensures { result ≡ record { bytes = []; fails = fails.items; writes = 0; faults = 0 } }
    {
        MemSink {
            bytes: Vec::new(alloc),
            fails,
            writes: 0,
            faults: 0,
        }
    }

    /// All that was written.
    pub fn bytes(&self) -> &[u8]
        ensures { result.now ≡ self.now.bytes }
    {
        &self.bytes
    }
}

impl Sink for MemSink {
    ghost use Rattle.wg_io.specs.Counts.{next_fails};
    ghost use Rattle.wg_io.specs.MemSink.{after_write, after_fault};

    ghost written = { λ mem. Some mem.bytes };

    ghost faults = { λ mem. mem.faults };

    /// A piece for which there is no memory counts as a fault.
    fn write(&mut self, bytes: &[u8]) -> Result<usize, Failed>
        ensures whole { IfOk result (λ n. n ≡ length bytes.now) }
        ensures failed { IsTrue (next_fails self.old.fails self.old.writes) → IsErr result }
        ensures after { MatchResult result (λ _. self.new ≡ after_write self.old bytes.now) (λ _. self.new ≡ after_fault self.old) }
        ensures no_fault_is_lost { self.old.faults ≤ self.new.faults }
    {
        let fails = self.fails.contains(&self.writes);
        self.writes = self.writes.saturating_add(1);
        if fails || self.bytes.extend_from_slice(bytes).is_err() {
            self.faults = self.faults.saturating_add(1);
            return Err(Failed);
        }
        Ok(bytes.len())
    }
}
