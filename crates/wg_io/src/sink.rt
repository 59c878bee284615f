ghost use Rattle.std.specs.Prelude.{◌≡◌, ◌≤◌, ◌<◌, List, ℕ, Option, length, take, IfOk, OnOk, OnErr};
ghost use Rattle.wg_io.specs.Causes.{RoseOnce, Appends, AppendsFront};

/// A write that failed.
#[derive(Clone, Copy, Debug, PartialEq, Eq)]
pub struct Failed;

/// What text is written to, a piece a call.
pub trait Sink {
    /// The bytes written so far, where they are told.
    ghost written: { Self → Option (List ℕ) };

    /// How often a write has failed.
    ghost faults: { Self → ℕ };

    /// Takes a front of the piece, which is not empty where the piece is not, and answers its length.
    fn write(&mut self, bytes: &[u8]) -> Result<usize, Failed>
        ensures bound { IfOk result (λ n. n ≤ length bytes.now) }
        ensures some { IfOk result (λ n. 0 < length bytes.now → 0 < n) }
        ensures appends { IfOk result (λ n. Appends (written self.old) (written self.new) (take n bytes.now)) }
        ensures nothing { OnErr result (written self.new ≡ written self.old) }
        ensures same { OnOk result (faults self.new ≡ faults self.old) }
        ensures failed { OnErr result (RoseOnce (faults self.old) (faults self.new)) }
        ensures no_fault_is_lost { faults self.old ≤ faults self.new };
}

/// Writes all the bytes: in one piece, and again with the rest where less was taken. It ends with the first failure.
pub fn write_all<S: Sink>(out: &mut S, bytes: &[u8]) -> Result<(), Failed>
    ensures whole { OnOk result (Appends (S.written out.old) (S.written out.new) bytes.now) }
    ensures front { OnErr result (AppendsFront (S.written out.old) (S.written out.new) bytes.now) }
    ensures same { OnOk result (S.faults out.new ≡ S.faults out.old) }
    ensures failed { OnErr result (RoseOnce (S.faults out.old) (S.faults out.new)) }
{
    let mut rest = bytes;
    while !rest.is_empty() {
        let taken = out.write(rest)?;
        rest = &rest[taken..];
    }
    Ok(())
}
