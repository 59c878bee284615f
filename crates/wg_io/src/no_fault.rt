ghost use Rattle.std.specs.Prelude.{◌≡◌, ◌≤◌, ◌<◌, Some, None, Ok, Err, length, IfOk, IsOkUnless};

use crate::take::take_within;
use crate::{Failed, FileFault, Files, NamedFiles, Sink};
use std::alloc::Global;
use std::marker::Model;

/// Files in memory that never fail. A name that is not there gives no bytes.
#[derive(Drop)]
pub struct NoFaultFiles {
    files: NamedFiles,
    taken: u64,
}

impl Model for NoFaultFiles {
    ghost use Rattle.wg_io.specs.NoFaultFiles.{CountedFiles};

    ghost Value = { CountedFiles };

    ghost view = { λ files. record { files = files.files; taken = files.taken } };
}

impl NoFaultFiles {
    pub fn new(files: NamedFiles) -> Self
        ensures { result ≡ record { files = files; taken = 0 } }
    {
        NoFaultFiles { files, taken: 0 }
    }
}

impl Files for NoFaultFiles {
    ghost use Rattle.wg_io.specs.Counts.{raised, taken_of};
    ghost use Rattle.wg_io.specs.NoFaultFiles.{bytes_or_empty};

    ghost told = { λ counted name. Some (bytes_or_empty counted name) };

    ghost faults = { λ _ _. 0 };

    ghost taken = { λ counted _. counted.taken };

    fn read(&mut self, alloc: Global, name: &str, limit: u64) -> Result<Vec<u8>, FileFault>
        ensures value { IfOk result (λ v. v.items ≡ bytes_or_empty self.old name.now) }
        ensures within { length (bytes_or_empty self.old name.now) ≤ limit → IsOkUnless result FileFault.Memory }
        ensures beyond { limit < length (bytes_or_empty self.old name.now) → result ≡ Err (FileFault.TooLong limit) }
        ensures after { self.new ≡ record self.old { taken = raised self.old.taken (taken_of (length (bytes_or_empty self.old name.now)) limit) } }
        ensures no_byte_is_lost { self.old.taken ≤ self.new.taken }
    {
        let bytes = self.files.find(name).unwrap_or(&[]);
        take_within(alloc, bytes, limit, &mut self.taken)
    }
}

/// A sink that never fails, takes whole pieces and forgets them.
#[derive(Drop)]
pub struct NoFaultSink;

impl NoFaultSink {
    pub fn new() -> Self {
        NoFaultSink
    }
}

impl Sink for NoFaultSink {
    ghost written = { λ _. None };

    ghost faults = { λ _. 0 };

    fn write(&mut self, bytes: &[u8]) -> Result<usize, Failed>
        ensures { result ≡ Ok (length bytes.now) }
    {
        Ok(bytes.len())
    }
}
