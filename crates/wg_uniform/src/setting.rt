ghost use Rattle.std.specs.Prelude.{◌≡◌};
ghost use Rattle.wg_typed.specs.Uniform.{is_read_type, any_read};

use sqlite_items::Items;
use std::marker::Model;
use wg_tree::ObjectWord;
use wg_typed::{TypedFunction, TypedParameter, TypedParameterType, TypedVariable};

/// The marks of an entry function, as far as they are known.
#[derive(Drop)]
pub struct Setting<'a> {
    variables: &'a Items<TypedVariable>,
    reads_input: bool,
}

impl<'a> Model for Setting<'a> {
    ghost use Rattle.wg_typed.specs.Uniform.{UniformSetting};

    ghost Value = { UniformSetting };

    ghost view = { λ s. record { variables = s.variables.now; reads_input = s.reads_input } };
}

impl<'a> Setting<'a> {
    ghost use Rattle.std.specs.Prelude.{◌≡◌, slice_get};
    ghost use Rattle.wg_typed.specs.Uniform.{setting_in, is_marked};

    /// The marks of these variables; `reads_input` where the input is a dispatch or a group input that is only read.
    pub fn new(variables: &'a Items<TypedVariable>, reads_input: bool) -> Setting<'a>
        ensures { result ≡ record { variables = variables.now; reads_input = reads_input } }
    {
        Setting {
            variables,
            reads_input,
        }
    }

    /// The marks that stand in a typed function.
    pub fn of(entry: &'a TypedFunction) -> Setting<'a>
        ensures { result ≡ setting_in entry.now }
    {
        Setting {
            variables: &entry.variables,
            reads_input: reads_input(&entry.parameters),
        }
    }

    pub(crate) fn reads(&self) -> bool
        ensures { result ≡ self.now.reads_input }
    {
        self.reads_input
    }

    pub(crate) fn marks(&self, number: u32) -> bool
        ensures { result ≡ is_marked (slice_get self.now.variables number) }
    {
        match self.variables.get(number as usize) {
            Some(variable) => variable.uniform,
            None => false,
        }
    }
}

fn is_read(of: &TypedParameterType) -> bool
    ensures { result ≡ is_read_type of.now }
{
    match of {
        TypedParameterType::Object { word, .. } => matches!(
            word,
            ObjectWord::DispatchNodeInputRecord | ObjectWord::GroupNodeInputRecords
        ),
        TypedParameterType::Value { .. } => false,
    }
}

/// Whether one of the parameters is a dispatch or a group input that is only read.
fn reads_input(parameters: &Items<TypedParameter>) -> bool
    ensures { result ≡ any_read parameters.now }
{
    for parameter in parameters.as_slice() {
        if is_read(&parameter.of) {
            return true;
        }
    }
    false
}
