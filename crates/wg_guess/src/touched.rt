ghost use Rattle.std.specs.Prelude.{◌≡◌, ◌<◌, ◌++◌, ◌∷◌, [], length, if◌then◌else◌, IfSome, OnOk, OnErr};
ghost use Rattle.std.specs.List.{position};
ghost use Rattle.wg_guess.specs.Knowing.{is_place, now_of, touched_words, IsChangedAt};
ghost use Rattle.wg_guess.specs.declared.touched.WordPlace.{WordPlace as Place};
ghost use Rattle.wg_guess.specs.declared.touched.WordNow.{WordNow as Now};

use std::alloc::{AllocError, Global};
use std::collections::HashMap;
use wg_words::Word;

/// Words that are kept in a list; all further ones are in a map.
const FIRST_WORDS: usize = 8;

/// A word of a buffer.
#[derive(Clone, Copy, Debug, PartialEq, Eq, Hash)]
pub struct WordPlace {
    pub buffer: u32,
    pub word: u32,
}

/// What a launch knows of a word.
#[derive(Clone, Copy, Debug, PartialEq, Eq)]
pub enum WordNow {
    /// Its value: it was read or set.
    Known(Word),
    /// What was added to its start value: it was neither read nor set.
    Added(Word),
}

/// The words that a launch has touched, with what it knows of each.
#[derive(Drop)]
pub struct Touched {
    first: Vec<(WordPlace, WordNow)>,
    more: HashMap<WordPlace, WordNow>,
}

fn place_in(first: &[(WordPlace, WordNow)], place: WordPlace) -> Option<usize>
    ensures at { result ≡ position (λ (touched : Place × Now). is_place place touched.0) first.now }
    ensures within { IfSome result (λ i. i < length first.now) }
{
    first.iter().position(|touched| place == touched.0)
}

impl Touched {
    pub fn new(alloc: Global) -> Touched
        ensures { touched_words result ≡ [] }
    {
        Touched {
            first: Vec::new(alloc),
            more: HashMap::new(alloc),
        }
    }

    /// What is known of a word; nothing was added to one that was not touched.
    pub fn get(&self, place: WordPlace) -> WordNow
        ensures { result ≡ now_of (touched_words self.now) place }
    {
        match place_in(&self.first, place) {
            Some(at) => self.first[at].1,
            None => self.more.get(&place).copied().unwrap_or(WordNow::Added(0)),
        }
    }

    /// What is known of a word from now on.
    pub fn set(&mut self, place: WordPlace, now: WordNow) -> Result<(), AllocError>
        ensures ok { OnOk result (IsChangedAt place now (touched_words self.old) (touched_words self.new)) }
        ensures err { OnErr result (touched_words self.new ≡ touched_words self.old) }
    {
        if let Some(at) = place_in(&self.first, place) {
            self.first[at].1 = now;
        } else if self.first.len() < FIRST_WORDS {
            self.first.push((place, now))?;
        } else {
            self.more.insert(place, now)?;
        }
        Ok(())
    }
}

/// Appends an item and says what is known of a word from now on, or does neither.
pub fn append<T: Drop>(
    items: &mut Vec<T>,
    item: T,
    touched: &mut Touched,
    place: WordPlace,
    now: WordNow,
) -> Result<(), AllocError>
    ensures items { OnOk result (items.new.items ≡ items.old.items ++ item ∷ []) }
    ensures touched { OnOk result (IsChangedAt place now (touched_words touched.old) (touched_words touched.new)) }
    ensures items_stay { OnErr result (items.new.items ≡ items.old.items) }
    ensures touched_stay { OnErr result (touched_words touched.new ≡ touched_words touched.old) }
{
    items.reserve(1)?;
    touched.set(place, now)?;
    items.push(item)?;
    Ok(())
}
