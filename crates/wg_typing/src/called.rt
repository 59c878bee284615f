use crate::scope::FormalParameter;
use sqlite_items::Items;
use wg_typed::{InterlockedForm, Intrinsic, TypeTree};

/// A call of the language. A barrier without arguments tells whether it syncs.
#[derive(Clone, Copy, Debug, PartialEq, Eq)]
pub enum Builtin {
    OnNumbers { call: Intrinsic },
    Interlocked { form: InterlockedForm },
    Levels,
    Barrier { syncs: bool },
    BarrierOf,
}

/// What a called name is: a plain function with its number, result, parameters and the longest chain of calls from it; an
/// entry function; the function in which it stands; a call of the language; a broken declaration; or nothing that can be
/// called. A declared name hides a call of the language.
#[derive(Drop)]
pub enum CalledName {
    Plain {
        number: u32,
        result: Option<TypeTree>,
        parameters: Items<FormalParameter>,
        chain: u32,
    },
    Entry,
    Itself,
    Builtin {
        builtin: Builtin,
    },
    Broken,
    Unknown,
}

/// A method of an object: `Load` and `Store` of so many words; requests and increments of the group or of the lane.
#[derive(Clone, Copy, Debug, PartialEq, Eq)]
pub enum Method {
    Load { words: u32 },
    Store { words: u32 },
    Interlocked { form: InterlockedForm },
    Get,
    Count,
    Request { group: bool },
    Increment { group: bool },
    IsValid,
    Complete,
    Finished,
}

/// What a word among a barrier's arguments is: a flag of memory, a flag of scope that syncs or not, an input or a handle,
/// a broken declaration, or nothing of a barrier's. A declared name hides a flag.
#[derive(Clone, Copy, Debug, PartialEq, Eq)]
pub enum Flag {
    Memory,
    Scope { syncs: bool },
    Object,
    Broken,
    Unknown,
}
