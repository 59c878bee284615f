use sqlite_items::{Boxed, Items};
use wg_typed::{SystemValue, TypeTree, TypedExpr, TypedHandle, TypedStruct};
use wg_words::Name;

/// Where an expression stands: in an entry function of so many lanes, in a plain function, in a `const`, or in the
/// arguments of an attribute, in which these names may stand without a value.
#[derive(Drop)]
pub enum Around {
    Entry { lanes: u32 },
    Plain,
    Const,
    Attribute { allowed: Items<Name> },
}

/// What a function gives back: nothing, a value of a type, or one of a type that is broken.
#[derive(Clone, Copy, Debug, PartialEq, Eq)]
pub enum GivesBack {
    Nothing,
    Value { of: TypeTree },
    Unsure,
}

/// A variable of a function: its type, the system value that a parameter of an entry function takes, whether it is `const`,
/// and the start value of a local, where it has one in which no rule is broken.
#[derive(Drop)]
pub struct VariableForm {
    pub of: TypeTree,
    pub system: Option<SystemValue>,
    pub constant: bool,
    pub value: Option<Boxed<TypedExpr>>,
}

/// Where a statement stands: the names in scope, of which the first so many belong to the scopes around; the structs by
/// number; the function around, the names of its parameters, and what it gives back; whether it is in the body of a loop;
/// and the variables and the handles that were declared before it in the function, by number: first the parameters that are
/// no objects, then the locals. A handle whose request is broken has no typed form.
#[derive(Drop)]
pub struct ContextOf<N> {
    pub names: N,
    pub start: usize,
    pub structs: Items<TypedStruct>,
    pub around: Around,
    pub parameters: Items<Name>,
    pub returns: GivesBack,
    pub looped: bool,
    pub variables: Items<VariableForm>,
    pub handles: Items<Option<TypedHandle>>,
}
