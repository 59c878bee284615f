//! The words of a record that hold a `bool`.
ghost use Rattle.std.specs.Prelude.{◌≡◌, ◌≤◌, ◌++◌, [], ◌∷◌, if◌then◌else◌, IfOk, OnOk, length, replicate};
ghost use Rattle.wg_graph.specs.Ones.{places_of_ones};
ghost use Rattle.wg_shapes.specs.Records as r;
ghost use Rattle.wg_words.specs.declared.limits.TheConstants.{MOST_RECORD_WORDS};

use std::alloc::{AllocError, Global};
use wg_typed::TypeTree;
use wg_values::Structs;
use wg_words::Words;

fn twos(alloc: Global, count: u32) -> Result<Words, AllocError>
    ensures { IfOk result (λ words. words ≡ replicate count 2) }
{
    let mut words = Words::new(alloc);
    for _i in 0..count {
        words.push(2)?;
    }
    Ok(words)
}

/// One more place, where it is wanted.
fn add_if(places: &mut Words, wanted: bool, at: u32) -> Result<(), AllocError>
    ensures { OnOk result (places.new ≡ places.old ++ (if wanted then at ∷ [] else [])) }
{
    if wanted {
        places.push(at)?;
    }
    Ok(())
}

/// The places of ones.
fn ones(alloc: Global, words: &[u32]) -> Result<Words, AllocError>
    requires few { length words.now ≤ MOST_RECORD_WORDS }
    ensures { IfOk result (λ places. places ≡ places_of_ones words.now) }
{
    let mut places = Words::new(alloc);
    for at in 0..words.len() {
        add_if(&mut places, words[at] == 1, at as u32)?;
    }
    Ok(places)
}

/// The places of the words that hold a `bool`: of twos, those are read as 1, and no others are.
pub fn bool_words(
    alloc: Global,
    structs: &Structs<'_>,
    held: Option<u32>,
    count: u32,
) -> Result<Words, AllocError>
    requires count { count ≡ r.record_words structs.now held }
    requires few { count ≤ MOST_RECORD_WORDS }
    ensures { IfOk result (λ places. places ≡ r.bool_words structs.now held) }
{
    let Some(number) = held else {
        return Ok(Words::new(alloc));
    };
    let words = twos(alloc, count)?;
    let read = structs.read(alloc, TypeTree::Struct { number }, words.as_slice())?;
    ones(alloc, read.as_slice())
}
