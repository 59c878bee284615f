use sqlite_items::Items;
use wg_typed::{TypeTree, TypedBuffer, TypedFunction, TypedParameter, TypedShared, TypedStruct};

/// A text as far as it is declared: its names, and the typed forms of its declarations, in order. What is broken has no
/// typed form.
#[derive(Drop)]
pub struct TextOf<N> {
    pub names: N,
    pub structs: Items<TypedStruct>,
    pub buffers: Items<Option<TypedBuffer>>,
    pub shared: Items<Option<TypedShared>>,
    pub functions: Items<Option<TypedFunction>>,
}

/// What is known of a function before its body: its result type, unless it is `void`, and its parameters.
#[derive(Drop)]
pub struct FunctionHead {
    pub result: Option<TypeTree>,
    pub parameters: Items<TypedParameter>,
}
