//! What the typing rules speak of, and their laws: what breaks none of them has a typed form, and the list of faults holds just the broken rules, and the first of them is the least.
#![tactic(auto)]

mod attribute;
mod called;
mod context;
mod event;
mod fault;
mod law;
mod numbers;
mod part;
mod scope;
mod so_far;

pub use attribute::{AttributeName, Mode, ParameterKind};
pub use called::{Builtin, CalledName, Flag, Method};
pub use context::{Around, ContextOf, GivesBack, VariableForm};
pub use event::{Event, Region};
pub use fault::{AttributeRule, Fault, TypingRule};
pub use law::{
    attribute_breaks_are_faults, attribute_faults_are_breaks, breaks_are_faults, faults_are_breaks,
    first_attribute_fault_is_least, first_fault_is_least, marks_are_right,
    no_attribute_faults_no_breaks, no_faults_no_breaks, one_pass_says_the_rules,
    own_handle_by_place, well_typed_has_its_form, what_stood_before_says,
};
pub use numbers::{Numbers, Operation, Signature};
pub use part::{
    Along, CallKind, Did, FormLayer, FoundField, LinkLayer, NamedCall, Operands, Part, Piece,
    Reached, TypedPart,
};
pub use scope::{Act, Declared, FormalParameter, Meant, Object, Sharing, Standing, Value};
pub use so_far::{FunctionHead, TextOf};
