ghost use Rattle.std.specs.Prelude.{◌≡◌, ◌≤◌, ◌<◌, List, ℕ, Option, length, IfOk, IfSome, IsErrOf, IsOkUnless};
ghost use Rattle.wg_io.specs.Causes.{Rose, RoseBeyond, NoneFalls};

use std::alloc::Global;

/// Why a file was not read.
#[derive(Clone, Copy, Debug, PartialEq, Eq)]
pub enum FileFault {
    /// It could not be opened, or a part of it could not be taken.
    Failed,
    /// It has more bytes than the limit of the read.
    TooLong { limit: u64 },
    /// There was no memory for its bytes.
    Memory,
}

/// Files that are read whole, by name. The counts of names that a call does not read may rise too, so
/// that an implementation may keep one count for all names.
pub trait Files {
    /// The bytes under a name, where they are told.
    ghost told: { Self → List ℕ → Option (List ℕ) };

    /// How often reading a name has failed.
    ghost faults: { Self → List ℕ → ℕ };

    /// How many bytes were taken of a name.
    ghost taken: { Self → List ℕ → ℕ };

    /// All bytes of a file, of which there are at most `limit`.
    fn read(&mut self, alloc: Global, name: &str, limit: u64) -> Result<Vec<u8>, FileFault>
        ensures bytes { IfOk result (λ v. IfSome (told self.old name.now) (λ bytes. v.items ≡ bytes)) }
        ensures short { IfOk result (λ v. length v.items ≤ limit) }

        // Each fault but want of memory has its cause.
        ensures failed { IsErrOf result FileFault.Failed → Rose (faults self.old name.now) (faults self.new name.now) }
        ensures given { (n : ℕ) → IsErrOf result (FileFault.TooLong n) → n ≡ limit }
        ensures beyond { IsErrOf result (FileFault.TooLong limit) → RoseBeyond limit (taken self.old name.now) (taken self.new name.now) }
        ensures longer { IsErrOf result (FileFault.TooLong limit) → IfSome (told self.old name.now) (λ bytes. limit < length bytes) }

        // Where no fault is counted, a file within the limit is read unless memory is wanting.
        ensures complete { IfSome (told self.old name.now) (λ bytes. length bytes ≤ limit → ¬ Rose (faults self.old name.now) (faults self.new name.now) → IsOkUnless result FileFault.Memory) }

        ensures same { (n : List ℕ) → told self.new n ≡ told self.old n }
        ensures no_fault_is_lost { NoneFalls (faults self.old) (faults self.new) }
        ensures no_byte_is_lost { NoneFalls (taken self.old) (taken self.new) };
}
