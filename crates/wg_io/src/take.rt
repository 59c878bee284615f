ghost use Rattle.std.specs.Prelude.{◌≡◌, ◌≤◌, ◌<◌, ◌+◌, ℕ, Err, length, IfOk, IfSome, OnErr, IsErrOf, IsOkUnless};
ghost use Rattle.wg_io.specs.Counts.{raised, taken_of};

use crate::FileFault;
use std::alloc::Global;
use std::io::Read;

const CHUNK: usize = 4096;

/// A copy of a file's bytes, of which there are at most `limit`. What is taken is counted.
pub(crate) fn take_within(
    alloc: Global,
    bytes: &[u8],
    limit: u64,
    taken: &mut u64,
) -> Result<Vec<u8>, FileFault>
    ensures value { IfOk result (λ v. v.items ≡ bytes.now) }
    ensures within { length bytes.now ≤ limit → IsOkUnless result FileFault.Memory }
    ensures beyond { limit < length bytes.now → result ≡ Err (FileFault.TooLong limit) }
    ensures taken { taken.new ≡ raised taken.old (taken_of (length bytes.now) limit) }
    ensures no_byte_is_lost { taken.old ≤ taken.new }
{
    if bytes.len() as u64 > limit {
        *taken = taken.saturating_add(limit).saturating_add(1);
        return Err(FileFault::TooLong { limit });
    }
    *taken = taken.saturating_add(bytes.len() as u64);
    bytes.to_vec(alloc).map_err(|_| FileFault::Memory)
}

/// All bytes that a file has left, of which there are at most `limit`. What is taken is counted, at
/// least one byte a turn, and no more than one byte above the limit.
pub(crate) fn read_within<F: Read>(
    alloc: Global,
    file: &mut F,
    limit: u64,
    taken: &mut u64,
) -> Result<Vec<u8>, FileFault>
    ensures bytes { IfOk result (λ v. IfSome (F.remaining file.old) (λ bytes. v.items ≡ bytes)) }
    ensures short { IfOk result (λ v. length v.items ≤ limit) }
    ensures given { (n : ℕ) → IsErrOf result (FileFault.TooLong n) → n ≡ limit }
    ensures beyond { IsErrOf result (FileFault.TooLong limit) → raised taken.old (limit + 1) ≤ taken.new }
    ensures longer { IsErrOf result (FileFault.TooLong limit) → IfSome (F.remaining file.old) (λ bytes. limit < length bytes) }
    ensures counted { IfOk result (λ v. raised taken.old (length v.items) ≤ taken.new) }
    ensures no_byte_above { taken.new ≤ taken.old + (limit + 1) }
    ensures no_byte_is_lost { taken.old ≤ taken.new }
{
    let mut bytes = Vec::new(alloc);
    let mut chunk = [0; CHUNK];
    for _ in 0..u64::MAX {
        let left = limit - bytes.len() as u64;
        let wanted = left.min(CHUNK as u64 - 1) as usize + 1;
        let Ok(count) = file.read(&mut chunk[..wanted]) else {
            return Err(FileFault::Failed);
        };
        if count == 0 {
            return Ok(bytes);
        }
        *taken = taken.saturating_add(count as u64);
        if count as u64 > left {
            return Err(FileFault::TooLong { limit });
        }
        if bytes.extend_from_slice(&chunk[..count]).is_err() {
            return Err(FileFault::Memory);
        }
    }
    Err(FileFault::Failed)
}
