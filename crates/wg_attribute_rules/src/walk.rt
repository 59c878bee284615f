//! All sites of a text, in their order.
ghost use Rattle.std.specs.Prelude.{◌≡◌, IfOk, map};
ghost use Rattle.std.specs.Option.{option_copied};
ghost use Rattle.wg_typing.specs.AttributeSites as s;
ghost use Rattle.wg_typing.specs.Faults as f;
ghost use Rattle.wg_typing.specs.Sites.{all_sites};
ghost use Rattle.wg_attribute_rules.specs.Noted.{noted};
ghost use Rattle.wg_attribute_rules.specs.Positions.{position_of, own_of};

use crate::before::Before;
use crate::lacks::is_entry;
use crate::positions::{Own, Position, standing};
use crate::sites::{at_attribute, at_input, at_node, at_output, at_value};
use std::alloc::{AllocError, Global};
use wg_attribute_arguments::{kind_of, mode_of};
use wg_typed::{
    Typed, TypedAttribute, TypedField, TypedFunction, TypedParameter, TypedParameterType,
    TypedStmt, TypedStruct,
};
use wg_typing::{Fault, Mode, ParameterKind};

/// The first fault so far, or want of memory.
type First = Result<Option<Fault>, AllocError>;

fn attributes(
    alloc: Global,
    position: Position<'_>,
    list: &[TypedAttribute],
    best: Option<Fault>,
) -> First
    ensures { IfOk result (λ r. r ≡ noted (s.sites_at (position_of position.entry) list.now) best) }
{
    let mut before = Before::new(alloc);
    let mut best = best;
    for a in list {
        let name = standing(position, a);
        let twice = before.take(alloc, a, name)?;
        best = at_attribute(position, a, name, twice, best);
    }
    Ok(best)
}

#[cycle(stmt)]
fn stmts(alloc: Global, list: &[TypedStmt], best: Option<Fault>) -> First
    ensures { IfOk result (λ r. r ≡ noted (s.body_sites list.now) best) }
{
    let mut best = best;
    for stmt in list {
        best = statement(alloc, stmt, best)?;
    }
    Ok(best)
}

#[cycle(stmt)]
fn statement(alloc: Global, stmt: &TypedStmt, best: Option<Fault>) -> First
    ensures { IfOk result (λ r. r ≡ noted (s.stmt_sites stmt.now) best) }
{
    match stmt {
        TypedStmt::Block { body } => stmts(alloc, body.as_slice(), best),
        TypedStmt::If {
            attributes: list,
            then: first,
            other,
            ..
        } => {
            let best = attributes(alloc, Position::Branch, list.as_slice(), best)?;
            let best = statement(alloc, first.get(), best)?;
            match other {
                Some(other) => statement(alloc, other.get(), best),
                None => Ok(best),
            }
        }
        TypedStmt::While {
            attributes: list,
            body,
            ..
        }
        | TypedStmt::For {
            attributes: list,
            body,
            ..
        } => {
            let best = attributes(alloc, Position::Branch, list.as_slice(), best)?;
            statement(alloc, body.get(), best)
        }
        TypedStmt::Empty
        | TypedStmt::Declare { .. }
        | TypedStmt::Request { .. }
        | TypedStmt::Increment { .. }
        | TypedStmt::Complete { .. }
        | TypedStmt::Barrier { .. }
        | TypedStmt::Step { .. }
        | TypedStmt::Break
        | TypedStmt::Continue
        | TypedStmt::Return { .. } => Ok(best),
    }
}

/// A parameter of a node: its attributes, and what it must have itself.
fn parameter(
    alloc: Global,
    mode: Option<Mode>,
    own: Own<'_>,
    p: &TypedParameter,
    best: Option<Fault>,
) -> First
    ensures { IfOk result (λ r. r ≡ noted (s.parameter_sites mode (own_of own.entry) p.now (s.kind_of p.now.of)) best) }
{
    let list = p.attributes.as_slice();
    match kind_of(p.of) {
        ParameterKind::Value => {
            let best = attributes(alloc, Position::Value, list, best)?;
            Ok(at_value(mode, p, best))
        }
        ParameterKind::Input { word } => {
            let best = attributes(alloc, Position::Input { mode }, list, best)?;
            Ok(at_input(mode, word, p, best))
        }
        ParameterKind::Output { array: false } => {
            let best = attributes(alloc, Position::Output { own }, list, best)?;
            Ok(at_output(false, p, best))
        }
        ParameterKind::Output { array: true } => {
            let best = attributes(alloc, Position::OutputArray { own }, list, best)?;
            Ok(at_output(true, p, best))
        }
        ParameterKind::Handle => attributes(alloc, Position::Value, list, best),
    }
}

/// The parameters of a node.
fn parameters(
    alloc: Global,
    mode: Option<Mode>,
    list: &[TypedParameter],
    best: Option<Fault>,
) -> First
    ensures { IfOk result (λ r. r ≡ noted (s.parameters_sites mode list.now 0 list.now) best) }
{
    let mut best = best;
    for (number, p) in list.iter().enumerate() {
        let own = Own {
            parameters: list,
            number,
        };
        best = parameter(alloc, mode, own, p, best)?;
    }
    Ok(best)
}

/// The fields of a struct by its number, where there is one.
fn fields_of<'a>(structs: &'a [TypedStruct], number: Option<u32>) -> &'a [TypedField]
    ensures { result.now ≡ s.fields_of structs.now number }
{
    let Some(number) = number else {
        return &[];
    };
    match structs.get(number as usize) {
        Some(found) => found.fields.as_slice(),
        None => &[],
    }
}

/// The fields of the record type, where this is an input.
fn input_fields<'a>(structs: &'a [TypedStruct], of: TypedParameterType) -> Option<&'a [TypedField]>
    ensures { option_copied result ≡ s.input_fields structs.now of }
{
    match of {
        TypedParameterType::Object { record, .. } => match kind_of(of) {
            ParameterKind::Input { .. } => Some(fields_of(structs, record)),
            ParameterKind::Value | ParameterKind::Output { .. } | ParameterKind::Handle => None,
        },
        TypedParameterType::Value { .. } => None,
    }
}

/// The fields of the first input's record type.
fn record_fields<'a>(structs: &'a [TypedStruct], parameters: &[TypedParameter]) -> &'a [TypedField]
    ensures { result.now ≡ s.record_fields structs.now parameters.now }
{
    for p in parameters {
        if let Some(fields) = input_fields(structs, p.of) {
            return fields;
        }
    }
    &[]
}

fn node(alloc: Global, structs: &[TypedStruct], f: &TypedFunction, best: Option<Fault>) -> First
    ensures { IfOk result (λ r. r ≡ noted (s.node_sites structs.now f.now) best) }
{
    let list = f.attributes.as_slice();
    let mode = mode_of(list);
    let best = attributes(alloc, Position::Node { mode }, list, best)?;
    let best = at_node(f, record_fields(structs, f.parameters.as_slice()), best);
    let best = parameters(alloc, mode, f.parameters.as_slice(), best)?;
    stmts(alloc, f.body.as_slice(), best)
}

/// The attributes of the parameters of a function that is no node.
fn plain_parameters(alloc: Global, list: &[TypedParameter], best: Option<Fault>) -> First
    ensures { IfOk result (λ r. r ≡ noted (all_sites (map s.plain_parameter_sites list.now)) best) }
{
    let mut best = best;
    for p in list {
        best = attributes(alloc, Position::Value, p.attributes.as_slice(), best)?;
    }
    Ok(best)
}

fn plain(alloc: Global, f: &TypedFunction, best: Option<Fault>) -> First
    ensures { IfOk result (λ r. r ≡ noted (s.plain_sites f.now) best) }
{
    let best = attributes(alloc, Position::Plain, f.attributes.as_slice(), best)?;
    let best = plain_parameters(alloc, f.parameters.as_slice(), best)?;
    stmts(alloc, f.body.as_slice(), best)
}

fn functions(
    alloc: Global,
    structs: &[TypedStruct],
    list: &[TypedFunction],
    best: Option<Fault>,
) -> First
    ensures { IfOk result (λ r. r ≡ noted (all_sites (map (s.function_sites structs.now) list.now)) best) }
{
    let mut best = best;
    for f in list {
        best = if is_entry(f.attributes.as_slice()) {
            node(alloc, structs, f, best)?
        } else {
            plain(alloc, f, best)?
        };
    }
    Ok(best)
}

fn structs(alloc: Global, list: &[TypedStruct], best: Option<Fault>) -> First
    ensures { IfOk result (λ r. r ≡ noted (all_sites (map s.struct_sites list.now)) best) }
{
    let mut best = best;
    for declared in list {
        best = attributes(
            alloc,
            Position::Struct,
            declared.attributes.as_slice(),
            best,
        )?;
    }
    Ok(best)
}

/// The rule of attributes that a typed text breaks at the least place, and there of the least number, 401 to 405; none where
/// its attributes are right (DirectX-Specs, Work Graphs, "Shader function attributes").
#[tactic(auto, using(crate::proofs::Firsts::first_is))]
pub fn first_attribute_fault(alloc: Global, typed: &Typed) -> Result<Option<Fault>, AllocError>
    ensures first { IfOk result (λ r. r ≡ f.first_attribute_fault typed.now) }
{
    let best = structs(alloc, typed.structs.as_slice(), None)?;
    functions(
        alloc,
        typed.structs.as_slice(),
        typed.functions.as_slice(),
        best,
    )
}
