ghost use Rattle.std.specs.Prelude.{◌≡◌, ◌≤◌, ◌+◌, ℕ, None, length, IfOk, IsErrOf};
ghost use Rattle.wg_io.specs.Causes.{Rose, RoseBeyond};
ghost use Rattle.wg_io.specs.Counts.{raised};

use crate::take::read_within;
use crate::{Failed, FileFault, Files, Sink};
use std::alloc::Global;
use std::io::Write;
use std::marker::Model;
use std::rt::Files as SystemFiles;
use std::{fs, io};

/// The files of the system. What they hold is not told; contracts see the two counts.
#[derive(Drop)]
pub struct RealFiles<'a, R> {
    rt: &'a R,
    faults: u64,
    taken: u64,
}

impl<'a, R> Model for RealFiles<'a, R> {
    ghost use Rattle.wg_io.specs.RealFiles.{FileCounts};

    ghost Value = { FileCounts };

    ghost view = { λ real. record { faults = real.faults; taken = real.taken } };
}

impl<'a, R> RealFiles<'a, R> {
    pub fn new(rt: &'a R) -> Self
        ensures { result ≡ record { faults = 0; taken = 0 } }
    {
        RealFiles {
            rt,
            faults: 0,
            taken: 0,
        }
    }
}

impl<R: SystemFiles> Files for RealFiles<'_, R> {
    ghost told = { λ _ _. None };

    ghost faults = { λ real _. real.faults };

    ghost taken = { λ real _. real.taken };

    /// At least one byte is taken a turn, and the file is left after `limit` bytes and one more.
    fn read(&mut self, alloc: Global, name: &str, limit: u64) -> Result<Vec<u8>, FileFault>
        ensures short { IfOk result (λ v. length v.items ≤ limit) }
        ensures failed { IsErrOf result FileFault.Failed → Rose self.old.faults self.new.faults }
        ensures given { (n : ℕ) → IsErrOf result (FileFault.TooLong n) → n ≡ limit }
        ensures beyond { IsErrOf result (FileFault.TooLong limit) → RoseBeyond limit self.old.taken self.new.taken }
        ensures counted { IfOk result (λ v. raised self.old.taken (length v.items) ≤ self.new.taken) }
        ensures stops { self.new.taken ≤ self.old.taken + (limit + 1) }
        ensures no_fault_is_lost { self.old.faults ≤ self.new.faults }
        ensures no_byte_is_lost { self.old.taken ≤ self.new.taken }
    {
        if let Ok(mut file) = fs::open(self.rt, name) {
            match read_within(alloc, &mut file, limit, &mut self.taken) {
                Err(FileFault::Failed) => {}
                answer => return answer,
            }
        }
        self.faults = self.faults.saturating_add(1);
        Err(FileFault::Failed)
    }
}

/// Standard output. What was written is not told; contracts see the count of faults.
#[derive(Drop)]
pub struct RealSink<'a, R> {
    rt: &'a R,
    faults: u64,
}

impl<'a, R> Model for RealSink<'a, R> {
    ghost use Rattle.std.specs.Prelude.{ℕ};

    ghost Value = { ℕ };

    ghost view = { λ real. real.faults };
}

impl<'a, R> RealSink<'a, R> {
    pub fn new(rt: &'a R) -> Self
        ensures { result ≡ 0 }
    {
        RealSink { rt, faults: 0 }
    }
}

impl<R: Print> Sink for RealSink<'_, R> {
    ghost written = { λ _. None };

    ghost faults = { λ faults. faults };

    fn write(&mut self, bytes: &[u8]) -> Result<usize, Failed> {
        match io::writer(self.rt).write(bytes) {
            Ok(count) if count > 0 || bytes.is_empty() => Ok(count),
            _ => {
                self.faults = self.faults.saturating_add(1);
                Err(Failed)
            }
        }
    }
}
