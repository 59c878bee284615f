use crate::scope::{Act, Standing, Value};
use sqlite_items::{Boxed, Items};
use wg_tree::{BinaryOperator, Named};
use wg_typed::{Access, TypeTree, TypedExpr, TypedStep};
use wg_words::Place;

/// What kind of call without a value it is: an output call, `FinishedCrossGroupSharing` on a record that is tracked or
/// not, or a barrier that syncs.
#[derive(Clone, Copy, Debug, PartialEq, Eq)]
pub enum CallKind {
    Requests,
    Increments,
    Completes { handle: u32 },
    Finishes { tracked: bool },
    Syncs,
}

/// Such a call, at its name.
#[derive(Clone, Copy, Debug, PartialEq, Eq)]
pub struct NamedCall {
    pub name: Place,
    pub kind: CallKind,
}

/// What an expression is as an argument of `Barrier`: operands of `|`, each a name, the number 0, or another expression,
/// in which a rule is broken (false) or none is; an output call or a syncing barrier there breaks one. What follows
/// `Misused` are operands of other operators.
#[derive(Drop)]
pub enum Piece {
    Word { name: Named },
    Zero,
    Other { whole: bool },
    Misused,
}

/// What an expression shows to what is around it: the place of its first token; what it is, which is absent where a rule
/// is broken in it; the output call or syncing barrier that it is by its name; and what it is to a barrier.
#[derive(Drop)]
pub struct Part {
    pub place: Place,
    pub value: Option<Value>,
    pub by_name: Option<NamedCall>,
    pub pieces: Items<Piece>,
}

/// A part that has a type.
#[derive(Drop)]
pub struct TypedPart {
    pub place: Place,
    pub of: TypeTree,
    pub standing: Standing,
    pub tree: Boxed<TypedExpr>,
}

/// What follows a value.
#[derive(Drop)]
pub enum FormLayer<P> {
    Member { name: Named },
    Method { name: Named, arguments: Items<P> },
    Index { at: P },
}

/// An operator of a chain and its right operand.
#[derive(Drop)]
pub struct LinkLayer<P> {
    pub operator: BinaryOperator,
    pub operand: P,
}

/// The arguments of an interlocked form after the destination.
#[derive(Drop)]
pub struct Operands<P> {
    pub compare: Option<P>,
    pub value: P,
    pub old: Option<P>,
}

/// A value with the accesses after it that its typed form does not hold yet.
#[derive(Drop)]
pub struct Reached {
    pub of: TypeTree,
    pub standing: Standing,
    pub base: Boxed<TypedExpr>,
    pub accesses: Items<Access>,
}

/// What the forms so far give: a value that has a type, or another one.
#[derive(Drop)]
pub enum Along {
    Typed { reached: Reached },
    Other { value: Value },
}

/// A field's number, and its type.
#[derive(Clone, Copy, Debug, PartialEq, Eq)]
pub struct FoundField {
    pub number: u32,
    pub of: TypeTree,
}

/// What a step does: a typed step, or a barrier or an output call.
#[derive(Drop)]
pub enum Did {
    Step { step: Boxed<TypedStep> },
    Act { act: Act },
}
