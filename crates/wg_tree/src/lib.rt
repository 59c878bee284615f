//! Trees of HLSL node shaders, their grammar, and its laws.
#![tactic(auto)]

mod expr;
mod item;
mod law;
mod stmt;

pub use expr::{
    BinaryOperator, Expr, Form, Link, Named, PrefixOperator, Scalar, TypeName, ValueType,
};
pub use item::{
    BufferType, Directed, Direction, Field, Item, Parameter, ParameterType, ResultType, Source,
};
pub use law::{one_answer, reads_to_the_fault, reads_what_is_spelled, spells_one_tree};
pub use stmt::{
    AssignOperator, Attribute, Declaration, Declarator, Header, ObjectType, ObjectWord, Start,
    Step, StepOperator, Steps, Stmt,
};
