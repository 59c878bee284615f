use crate::expr::{Expr, Named, TypeName};
use crate::stmt::{Attribute, ObjectType, Stmt};
use sqlite_items::Items;
use wg_words::Place;

/// A field of a struct: its array size and its system value, if any.
#[derive(Drop)]
pub struct Field {
    pub of: TypeName,
    pub name: Named,
    pub size: Option<Expr>,
    pub semantic: Option<Named>,
}

/// What a buffer holds: bytes, or elements of a type.
#[derive(Drop)]
pub enum BufferType {
    Raw {
        place: Place,
        writable: bool,
    },
    Structured {
        place: Place,
        writable: bool,
        of: TypeName,
    },
}

#[derive(Clone, Copy, Debug, PartialEq, Eq)]
pub enum Direction {
    In,
    Out,
    InOut,
}

/// A direction that is written, with its place.
#[derive(Clone, Copy, Debug, PartialEq, Eq)]
pub struct Directed {
    pub place: Place,
    pub direction: Direction,
}

/// The type of a parameter.
#[derive(Drop)]
pub enum ParameterType {
    Value { of: TypeName },
    Object { of: ObjectType },
}

#[derive(Drop)]
pub struct Parameter {
    pub attributes: Items<Attribute>,
    pub direction: Option<Directed>,
    pub of: ParameterType,
    pub name: Named,
    pub semantic: Option<Named>,
}

/// The type of a function's result.
#[derive(Drop)]
pub enum ResultType {
    Void { place: Place },
    Value { of: TypeName },
}

/// A declaration of a text, with the place of its first token where no part of it has that place.
#[derive(Drop)]
pub enum Item {
    Struct {
        place: Place,
        attributes: Items<Attribute>,
        name: Named,
        fields: Items<Field>,
    },
    Buffer {
        coherent: Option<Place>,
        of: BufferType,
        name: Named,
        registers: Items<Named>,
    },
    Shared {
        place: Place,
        of: TypeName,
        name: Named,
        size: Option<Expr>,
    },
    Constant {
        place: Place,
        of: TypeName,
        name: Named,
        value: Expr,
    },
    Function {
        attributes: Items<Attribute>,
        result: ResultType,
        name: Named,
        parameters: Items<Parameter>,
        place: Place,
        body: Items<Stmt>,
    },
}

/// A text: its declarations in order.
#[derive(Drop)]
pub struct Source {
    pub items: Items<Item>,
}
