ghost use Rattle.std.specs.Prelude.{◌≡◌, [], ◌∷◌, Some, None, MatchOption, IfOk, IfSome, IfNone};
ghost use Rattle.wg_text.specs.Refusals.{Yields, YieldsAnd};
ghost use Rattle.wg_journal.specs.Names.{unit_in};
ghost use Rattle.wg_journal.specs.Reading.{split_fields, number_field, if_word, word_field, keyword_field, named_field, name_field, unit_field, group_field, end_at, number_fields, word_fields, outs_from, outs_at};

use crate::names::UnitNames;
use std::alloc::{AllocError, Global};
use std::marker::Model;
use wg_text::{Pieces, Refusal, Separator, is_identifier, printed};
use wg_words::{Name, Numbers, Words};

/// The fields of a line that are left, apart by single spaces.
#[derive(Drop)]
pub struct Fields<'a> {
    pieces: Pieces<'a>,
}

impl<'a> Model for Fields<'a> {
    ghost use Rattle.std.specs.Prelude.{List, ℕ};

    ghost Value = { List (List ℕ) };

    ghost view = { λ f. f.pieces };
}

impl<'a> Fields<'a> {
    pub fn new(line: &'a [u8]) -> Fields<'a>
        ensures { result ≡ split_fields line.now }
    {
        Fields {
            pieces: Pieces::new(line, Separator::Byte(b' ')),
        }
    }

    pub fn next(&mut self) -> Option<&'a [u8]>
        ensures { MatchOption result ((self.old ≡ []) × (self.new ≡ [])) (λ field. self.old ≡ field.now ∷ self.new) }
    {
        self.pieces.next()
    }

    /// The next field as a number.
    pub fn number(&mut self) -> Result<u64, Refusal>
        ensures { YieldsAnd result self.new (number_field self.old) }
    {
        let field = self.next().ok_or(Refusal::Form)?;
        printed(field).ok_or(Refusal::Form)
    }

    /// The next field as a number below 2^32.
    pub fn word(&mut self) -> Result<u32, Refusal>
        ensures { YieldsAnd result self.new (word_field self.old) }
    {
        let number = self.number()?;
        u32::try_from(number).map_err(|_| Refusal::Form)
    }

    /// The next field, which has to be this word.
    pub fn keyword(&mut self, word: &[u8]) -> Result<(), Refusal>
        ensures { YieldsAnd result self.new (keyword_field word.now self.old) }
    {
        let field = self.next().ok_or(Refusal::Form)?;
        if field != word {
            return Err(Refusal::Form);
        }
        Ok(())
    }

    /// This word, and a number.
    #[tactic(auto, unfolding(crate::specs::Reading::named_field))]
    pub fn named(&mut self, word: &[u8]) -> Result<u64, Refusal>
        ensures { YieldsAnd result self.new (named_field word.now self.old) }
    {
        self.keyword(word)?;
        self.number()
    }

    /// The next field as a name.
    pub fn name(&mut self, alloc: Global) -> Result<Name, Refusal>
        ensures { YieldsAnd result self.new (name_field self.old) }
    {
        let field = self.next().ok_or(Refusal::Form)?;
        if !is_identifier(field) {
            return Err(Refusal::Form);
        }
        Ok(Name::from_slice(alloc, field)?)
    }

    /// The unit that the next field names.
    pub fn unit(&mut self, names: &UnitNames) -> Result<u32, Refusal>
        ensures { YieldsAnd result self.new (unit_field (unit_in names.now) self.old) }
    {
        let field = self.next().ok_or(Refusal::Form)?;
        names.find(field).ok_or(Refusal::Form)
    }

    /// The three numbers of a group.
    #[tactic(auto, unfolding(crate::specs::Reading::group_field))]
    pub fn group(&mut self) -> Result<[u32; 3], Refusal>
        ensures { YieldsAnd result self.new (group_field self.old) }
    {
        self.keyword(b"g")?;
        let x = self.word()?;
        let y = self.word()?;
        let z = self.word()?;
        Ok([x, y, z])
    }

    /// No field is left.
    pub fn end(&mut self) -> Result<(), Refusal>
        ensures { YieldsAnd result self.new (end_at self.old) }
    {
        match self.next() {
            Some(_) => Err(Refusal::Form),
            None => Ok(()),
        }
    }

    /// The numbers that stand in front.
    pub fn numbers(&mut self, alloc: Global) -> Result<Numbers, AllocError>
        ensures { IfOk result (λ numbers. (numbers, self.new) ≡ number_fields self.old) }
    {
        let mut numbers = Numbers::new(alloc);
        while let Some(n) = self.number_in_front() {
            numbers.push(n)?;
        }
        Ok(numbers)
    }

    /// The next field where it is a number; it stays where it is none.
    fn number_in_front(&mut self) -> Option<u64>
        ensures some { IfSome result (λ n. number_field self.old ≡ Some (n, self.new)) }
        ensures none { IfNone result ((number_field self.old ≡ None) × (self.new ≡ self.old)) }
    {
        let n = printed(self.pieces.peek()?)?;
        self.pieces.next();
        Some(n)
    }

    /// All that is left, as words.
    pub fn words(&mut self, alloc: Global) -> Result<Words, Refusal>
        ensures { Yields result (word_fields self.old) }
    {
        let mut words = Words::new(alloc);
        while !self.pieces.is_empty() {
            words.push(self.word()?)?;
        }
        Ok(words)
    }

    /// Numbers that follow one another, to the end: the first, and how many.
    pub fn outs(&mut self) -> Result<(u64, u32), Refusal>
        ensures { Yields result (outs_at self.old) }
    {
        if self.pieces.is_empty() {
            return Ok((0, 0));
        }
        let first = self.number()?;
        self.outs_after(first)
    }

    fn outs_after(&mut self, first: u64) -> Result<(u64, u32), Refusal>
        ensures { Yields result (outs_from first 1 self.old) }
    {
        let mut count = 1u32;
        while !self.pieces.is_empty() {
            let n = self.number()?;
            if n.checked_sub(u64::from(count)) != Some(first) {
                return Err(Refusal::Form);
            }
            count = count.checked_add(1).ok_or(Refusal::Form)?;
        }
        Ok((first, count))
    }
}
