ghost use Rattle.std.specs.Prelude.{◌≡◌};
ghost use Rattle.wg_typing.specs.Named.{at_name};
ghost use Rattle.wg_typing.specs.TypingBarrier as b;

use wg_typing::Flag;

fn memory_flag(name: &[u8]) -> Option<bool>
    ensures { result ≡ at_name b.memory_flags name.now }
{
    if b"UAV_MEMORY".as_slice() == name {
        return Some(false);
    }
    if b"GROUP_SHARED_MEMORY".as_slice() == name {
        return Some(false);
    }
    if b"NODE_INPUT_MEMORY".as_slice() == name {
        return Some(false);
    }
    if b"NODE_OUTPUT_MEMORY".as_slice() == name {
        return Some(false);
    }
    if b"ALL_MEMORY".as_slice() == name {
        return Some(false);
    }
    None
}

/// Whether a flag of scope syncs.
fn scope_flag(name: &[u8]) -> Option<bool>
    ensures { result ≡ at_name b.scope_flags name.now }
{
    if b"GROUP_SYNC".as_slice() == name {
        return Some(true);
    }
    if b"GROUP_SCOPE".as_slice() == name {
        return Some(false);
    }
    if b"DEVICE_SCOPE".as_slice() == name {
        return Some(false);
    }
    None
}

/// What a word that is not declared is among the arguments of a barrier.
fn flag_word(memory: Option<bool>, scope: Option<bool>) -> Flag
    ensures { result ≡ b.flag_word memory scope }
{
    match (memory, scope) {
        (Some(_), _) => Flag::Memory,
        (None, Some(syncs)) => Flag::Scope { syncs },
        (None, None) => Flag::Unknown,
    }
}

/// What a name that is not declared is among a barrier's arguments.
pub fn flag_named(name: &[u8]) -> Flag
    ensures { result ≡ b.flag_word (at_name b.memory_flags name.now) (at_name b.scope_flags name.now) }
{
    flag_word(memory_flag(name), scope_flag(name))
}
