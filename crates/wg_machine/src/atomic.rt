ghost use Rattle.std.specs.Prelude.{◌≡◌};
ghost use Rattle.wg_machine.specs.Buffers.{exchanged, signed_rank};

use crate::memory::Atomic;
use wg_words::Word;

fn rank(word: Word) -> Word
    ensures { result ≡ signed_rank word }
{
    word.wrapping_add(1 << 31)
}

impl Atomic {
    /// What an interlocked form leaves in place of an old word.
    pub fn exchanged(self, old: Word, compare: Word, value: Word) -> Word
        ensures { result ≡ exchanged self old compare value }
    {
        match self {
            Atomic::Min => old.min(value),
            Atomic::MinSigned => { if rank(value) < rank(old) { value } else { old } }
            Atomic::Max => old.max(value),
            Atomic::MaxSigned => { if rank(old) < rank(value) { value } else { old } }
            Atomic::And => old & value,
            Atomic::Or => old | value,
            Atomic::Xor => old ^ value,
            Atomic::Add => old.wrapping_add(value),
            Atomic::Exchange => value,
            Atomic::CompareExchange => { if old == compare { value } else { old } }
        }
    }
}
