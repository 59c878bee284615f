ghost use Rattle.std.specs.Prelude.{◌≡◌, ◌≤◌, ℕ, [], ◌∷◌, ◌++◌, length, List, IfOk, OnOk};
ghost use Rattle.wg_machine.specs.declared.memory.Write.{Write as Written};
ghost use Rattle.wg_machine.specs.Buffers.{Buffers, buffer_at, word_at};
ghost use Rattle.wg_machine.specs.Effects.{Reads, Writes as Wrote, OnlyLogs};
ghost use Rattle.wg_guess.specs.declared.touched.WordNow.TheVariants.{Known as IsKnown};
ghost use Rattle.wg_guess.specs.declared.touched.WordNow.TheVariants.{Added as IsAddedTo};
ghost use Rattle.wg_guess.specs.Knowing.{IsSound, IsWithin, now_of, now_after, touched_words, trace_of, written_place};

use crate::touched::{Touched, WordNow, WordPlace, append};
use std::alloc::{AllocError, Global};
use wg_machine::{Atomic, Memory, Seen, View, Write};
use wg_words::Word;

/// A memory over a view, which stays as it is: a launch reads the view's words and its own writes.
#[derive(Drop)]
pub struct Trial<'a, V: View> {
    view: &'a V,
    log: Vec<Seen>,
    writes: Vec<Write>,
    touched: Touched,

    ghost sound: { IsSound (V.buffers view.now) log.items writes.items (touched_words touched) },
}

fn place_of(write: Write) -> WordPlace
    ensures { result ≡ written_place write }
{
    match write {
        Write::Set { buffer, word, .. } | Write::Add { buffer, word, .. } => {
            WordPlace { buffer, word }
        }
    }
}

/// What is known of a write's word after it.
fn after(write: Write, now: WordNow) -> WordNow
    ensures { result ≡ now_after write now }
{
    match write {
        Write::Set { value, .. } => WordNow::Known(value),
        Write::Add { value, .. } => match now {
            WordNow::Known(old) => WordNow::Known(old.wrapping_add(value)),
            WordNow::Added(sum) => WordNow::Added(sum.wrapping_add(value)),
        },
    }
}

impl<'a, V: View> Trial<'a, V> {
    pub fn new(alloc: Global, view: &'a V) -> Trial<'a, V>
        ensures view { result.view.now ≡ view.entry.now }
        ensures log { result.log.items ≡ [] }
        ensures writes { result.writes.items ≡ [] }
    {
        Trial {
            view,
            log: Vec::new(alloc),
            writes: Vec::new(alloc),
            touched: Touched::new(alloc),
        }
    }

    pub fn into_parts(self) -> (Vec<Seen>, Vec<Write>)
        ensures log { result.0.items ≡ self.entry.log.items }
        ensures writes { result.1.items ≡ self.entry.writes.items }
        ensures sound { (over : Buffers) → over ≡ V.buffers self.entry.view.now → IsSound over self.entry.log.items self.entry.writes.items (touched_words self.entry.touched) }
    {
        let Trial {
            view: _,
            log,
            writes,
            touched: _,
        } = self;
        (log, writes)
    }

    /// The value of a word. Its start value is logged where it has to be known and is not.
    fn read(&mut self, place: WordPlace) -> Result<Word, AllocError>
        ensures logs { OnOk result (OnlyLogs place.buffer place.word (trace_of (V.buffers self.old.view.now) self.old.log.items self.old.writes.items) (trace_of (V.buffers self.new.view.now) self.new.log.items self.new.writes.items)) }
        ensures value { IfOk result (Reads (trace_of (V.buffers self.old.view.now) self.old.log.items self.old.writes.items) (trace_of (V.buffers self.new.view.now) self.new.log.items self.new.writes.items) place.buffer place.word) }
        ensures own { (known : ℕ) → now_of (touched_words self.old.touched) place ≡ IsKnown known → OnOk result (self.new.log.items ≡ self.old.log.items) }
        ensures outside { length (buffer_at (V.buffers self.old.view.now) place.buffer) ≤ place.word → OnOk result (self.new.log.items ≡ self.old.log.items) }
    {
        if place.word >= self.view.length(place.buffer) {
            return Ok(0);
        }
        match self.touched.get(place) {
            WordNow::Known(value) => Ok(value),
            WordNow::Added(sum) => self.see(place, sum),
        }
    }

    /// Logs the start value of a word that was at most added to.
    fn see(&mut self, place: WordPlace, sum: Word) -> Result<Word, AllocError>
        requires within { IsWithin (V.buffers self.now.view.now) place }
        requires added { now_of (touched_words self.now.touched) place ≡ IsAddedTo sum }
        ensures view { OnOk result (self.new.view.now ≡ self.old.view.now) }
        ensures writes { OnOk result (self.new.writes.items ≡ self.old.writes.items) }
        ensures log { OnOk result (self.new.log.items ≡ self.old.log.items ++ record { buffer = place.buffer; word = place.word; value = word_at (V.buffers self.old.view.now) place.buffer place.word } ∷ []) }
        ensures known { IfOk result (λ value. now_of (touched_words self.new.touched) place ≡ IsKnown value) }
    {
        let start = self.view.word(place.buffer, place.word);
        let value = start.wrapping_add(sum);
        let seen = Seen {
            buffer: place.buffer,
            word: place.word,
            value: start,
        };
        append(
            &mut self.log,
            seen,
            &mut self.touched,
            place,
            WordNow::Known(value),
        )?;
        Ok(value)
    }

    /// Keeps a write that is in range. One out of range does nothing.
    fn write(&mut self, write: Write) -> Result<(), AllocError>
        ensures view { OnOk result (self.new.view.now ≡ self.old.view.now) }
        ensures log { OnOk result (self.new.log.items ≡ self.old.log.items) }
        ensures writes { OnOk result ((more : List Written) × (self.new.writes.items ≡ self.old.writes.items ++ more)) }
        ensures written { OnOk result (Wrote (trace_of (V.buffers self.old.view.now) self.old.log.items self.old.writes.items) (trace_of (V.buffers self.new.view.now) self.new.log.items self.new.writes.items) write) }
    {
        let place = place_of(write);
        if place.word >= self.view.length(place.buffer) {
            return Ok(());
        }
        let now = after(write, self.touched.get(place));
        append(&mut self.writes, write, &mut self.touched, place, now)
    }
}

impl<'a, V: View> Memory for Trial<'a, V> {
    ghost use Rattle.std.specs.Prelude.{refl};

    ghost trace = { λ t. record { over = V.buffers t.view.now; log = t.log.items; writes = t.writes.items } };

    ghost fits = { λ t. record { lengths = refl; log = t.sound.logged } };

    fn length(&self, buffer: u32) -> u32 {
        self.view.length(buffer)
    }

    fn load(&mut self, buffer: u32, word: u32) -> Result<Word, AllocError> {
        self.read(WordPlace { buffer, word })
    }

    fn store(&mut self, buffer: u32, word: u32, value: Word) -> Result<(), AllocError> {
        self.write(Write::Set {
            buffer,
            word,
            value,
        })
    }

    fn add(&mut self, buffer: u32, word: u32, value: Word) -> Result<(), AllocError> {
        self.write(Write::Add {
            buffer,
            word,
            value,
        })
    }

    fn interlocked(
        &mut self,
        op: Atomic,
        buffer: u32,
        word: u32,
        compare: Word,
        value: Word,
    ) -> Result<Word, AllocError> {
        let found = self.read(WordPlace { buffer, word })?;
        self.write(Write::Set {
            buffer,
            word,
            value: op.exchanged(found, compare, value),
        })?;
        Ok(found)
    }
}

#[cfg(test)]
mod tests;
