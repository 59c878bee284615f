ghost use Rattle.std.specs.Prelude.{◌≡◌, IfOk, drop};
ghost use Rattle.wg_semantics.specs.Calls.{parameter_words};
ghost use Rattle.wg_semantics.specs.FunctionMeaning.{given_first};
ghost use Rattle.wg_typed.specs.Layout.{words_of};
ghost use Rattle.wg_state.specs.WordLists.{zeros};

use crate::structs::Structs;
use crate::words::zero_words;
use std::alloc::{AllocError, Global};
use wg_typed::{TypeTree, TypedParameterType, TypedVariable};
use wg_words::{WordLists, Words};

/// The words of a parameter; an object has none.
pub fn parameter_size(structs: &Structs<'_>, of: TypedParameterType) -> Result<u64, AllocError>
    ensures { IfOk result (λ n. n ≡ parameter_words structs.now of) }
{
    match of {
        TypedParameterType::Value { of } => structs.words(of),
        TypedParameterType::Object { .. } => Ok(0),
    }
}

/// A value of a type that is all zeros.
pub fn zero_value(alloc: Global, structs: &Structs<'_>, t: TypeTree) -> Result<Words, AllocError>
    ensures { IfOk result (λ list. list ≡ zeros (words_of structs.now t)) }
{
    zero_words(alloc, structs.words(t)?)
}

/// The variables behind so many.
fn behind(variables: &[TypedVariable], count: usize) -> &[TypedVariable]
    ensures { result.now ≡ drop count variables.now }
{
    if count < variables.len() {
        &variables[count..]
    } else {
        &[]
    }
}

/// A function's variables as it begins: the values of its parameters, which it is given, and zeros for its locals.
pub fn first_variables(
    alloc: Global,
    structs: &Structs<'_>,
    variables: &[TypedVariable],
    values: WordLists,
) -> Result<WordLists, AllocError>
    ensures { IfOk result (λ list. list ≡ given_first structs.now variables.now values) }
{
    let mut list = values;
    for local in behind(variables, list.len()) {
        list.push(zero_value(alloc, structs, local.of)?)?;
    }
    Ok(list)
}
