ghost use Rattle.std.specs.Prelude.{◌≡◌, [], IfOk, length};
ghost use Rattle.wg_machine.specs.Buffers.{word_at, with_word};
ghost use Rattle.wg_state.specs.declared.world.World.{World as Shared};

use crate::outside::{put_word_of, word_of};
use std::alloc::{AllocError, Global};
use std::marker::Model;
use wg_grants::{GrantTable, table_of};
use wg_state::World;
use wg_words::{Word, WordLists, Words};

/// What the lanes of a launch share while they run, but for groupshared words and buffers: a world that has neither.
#[derive(Drop)]
pub struct Sharing {
    pub inputs: WordLists,
    pub grants: GrantTable,
    pub left: Words,
    pub denied: u32,
}

impl Model for Sharing {
    ghost use Rattle.std.specs.Prelude.{[]};
    ghost use Rattle.wg_state.specs.declared.world.World.{World};

    ghost Value = { World };

    ghost view = { λ s. record { shared = []; inputs = s.inputs; grants = s.grants; left = s.left; denied = s.denied; buffers = [] } };
}

/// A world without its groupshared variables and buffers, as lanes work on it.
pub fn sharing_of(alloc: Global, world: World) -> Result<Sharing, AllocError>
    ensures { IfOk result (λ sharing. sharing ≡ record world { shared = []; buffers = [] }) }
{
    let World {
        inputs,
        grants,
        left,
        denied,
        ..
    } = world;
    let grants = table_of(alloc, grants.as_slice())?;
    Ok(Sharing {
        inputs,
        grants,
        left,
        denied,
    })
}

/// The world that lanes left.
pub fn world_of(alloc: Global, sharing: Sharing) -> Result<World, AllocError>
    ensures { IfOk result (λ world. world ≡ sharing) }
{
    let Sharing {
        inputs,
        grants,
        left,
        denied,
    } = sharing;
    Ok(World {
        shared: WordLists::new(alloc),
        inputs,
        grants: grants.to_items(alloc)?,
        left,
        denied,
        buffers: WordLists::new(alloc),
    })
}

/// How many input records there are.
pub fn input_count(sharing: &Sharing) -> usize
    ensures { result ≡ length sharing.now.inputs }
{
    sharing.inputs.len()
}

/// A word of an input record.
pub fn input_word(sharing: &Sharing, input: u32, at: u32) -> Word
    ensures { result ≡ word_at sharing.now.inputs input at }
{
    word_of(&sharing.inputs, input, at)
}

/// Sets a word of an input record.
pub fn put_input(sharing: &mut Sharing, alloc: Global, input: u32, at: u32, value: Word)
    ensures { sharing.new ≡ record sharing.old { inputs = with_word sharing.old.inputs input at value } }
{
    put_word_of(&mut sharing.inputs, alloc, input, at, value);
}
