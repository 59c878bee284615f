use crate::typed_stmt::{TypedAttribute, TypedStmt};
use crate::types::TypeTree;
use sqlite_items::Items;
use wg_tree::{Directed, Named, ObjectWord};
use wg_words::Place;

/// A field of a struct, and its system value, if any.
#[derive(Drop)]
pub struct TypedField {
    pub name: Named,
    pub of: TypeTree,
    pub semantic: Option<Named>,
}

#[derive(Drop)]
pub struct TypedStruct {
    pub name: Named,
    pub attributes: Items<TypedAttribute>,
    pub fields: Items<TypedField>,
}

/// What a buffer holds: bytes, or elements of a type.
#[derive(Clone, Copy, Debug, PartialEq, Eq)]
pub enum TypedBufferType {
    Raw { writable: bool },
    Structured { writable: bool, of: TypeTree },
}

#[derive(Drop)]
pub struct TypedBuffer {
    pub name: Named,
    pub of: TypedBufferType,
}

/// A groupshared variable.
#[derive(Drop)]
pub struct TypedShared {
    pub name: Named,
    pub of: TypeTree,
}

/// The type of a parameter. An object's record type is a struct, by its number.
#[derive(Clone, Copy, Debug, PartialEq, Eq)]
pub enum TypedParameterType {
    Value {
        of: TypeTree,
    },
    Object {
        place: Place,
        word: ObjectWord,
        record: Option<u32>,
    },
}

/// A system value that an entry function may take (HLSL, "Semantics" of compute shaders).
#[derive(Clone, Copy, Debug, PartialEq, Eq)]
pub enum SystemValue {
    DispatchThreadId,
    GroupId,
    GroupThreadId,
    GroupIndex,
}

#[derive(Drop)]
pub struct TypedParameter {
    pub attributes: Items<TypedAttribute>,
    pub direction: Option<Directed>,
    pub of: TypedParameterType,
    pub name: Named,
    pub semantic: Option<Named>,
}

/// A variable of a function. `system` is the system value that a parameter of an entry function takes. `uniform` where all
/// lanes of a launch have one value in it: a local that is `const` with a start value that is uniform, or a parameter that
/// takes `SV_GroupID` and that the body never changes.
#[derive(Clone, Copy, Debug, PartialEq, Eq)]
pub struct TypedVariable {
    pub of: TypeTree,
    pub system: Option<SystemValue>,
    pub uniform: bool,
}

/// What makes a function a node: the lanes of a thread group, and the numbers of the parameters that are its input and its
/// outputs.
#[derive(Drop)]
pub struct TypedEntry {
    pub lanes: u32,
    pub input: Option<u32>,
    pub outputs: Items<u32>,
}

/// A handle of new records: the number of the output from which it requests them, among the function's outputs.
#[derive(Drop)]
pub struct TypedHandle {
    pub name: Named,
    pub group: bool,
    pub output: u32,
}

/// A function. Its variables are its parameters that are no objects, in their order, and then its locals in the order of
/// their declarations; its handles are in that order too. It has no result type where it is `void`, and `entry` where it is
/// a node.
#[derive(Drop)]
pub struct TypedFunction {
    pub entry: Option<TypedEntry>,
    pub attributes: Items<TypedAttribute>,
    pub result: Option<TypeTree>,
    pub name: Named,
    pub parameters: Items<TypedParameter>,
    pub variables: Items<TypedVariable>,
    pub handles: Items<TypedHandle>,
    pub body: Items<TypedStmt>,
}

/// A text after typing. Structs, buffers, groupshared variables and functions are known by their numbers in the order of
/// the text; static constants stand as their values.
#[derive(Drop)]
pub struct Typed {
    pub structs: Items<TypedStruct>,
    pub buffers: Items<TypedBuffer>,
    pub shared: Items<TypedShared>,
    pub functions: Items<TypedFunction>,
}
