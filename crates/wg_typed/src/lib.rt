//! Trees after typing, with layouts, operators, the values of constants, and weight.
#![tactic(auto)]

mod const_numbers;
mod constants;
mod evaluate;
mod numbers;
mod numbers_16;
mod numbers_32;
mod numbers_64;
mod scalars;
mod typed;
mod typed_expr;
mod typed_stmt;
mod types;
mod weigh;

pub use const_numbers::{convert_constant, declare_constant, scalar_of_literal};
pub use constants::Constants;
pub use evaluate::value;
pub use numbers::{combine_number, convert_number, prefix_number};
pub use numbers_16::{combine_16, prefix_16};
pub use numbers_32::{combine_32, prefix_32};
pub use numbers_64::{combine_64, prefix_64};
pub use scalars::{bits_of, counted, has_sign, integer, wider};
pub use typed::{
    SystemValue, Typed, TypedBuffer, TypedBufferType, TypedEntry, TypedField, TypedFunction,
    TypedHandle, TypedParameter, TypedParameterType, TypedShared, TypedStruct, TypedVariable,
};
pub use typed_expr::{Access, Intrinsic, TypedExpr, TypedKind, TypedLink};
pub use typed_stmt::{
    ArgumentValue, Destination, Interlocked, InterlockedForm, TypedArgument, TypedAttribute,
    TypedDeclarator, TypedStart, TypedStep, TypedStmt,
};
pub use types::{ConstValue, ElementType, Extent, TypeTree, WordMark};
pub use weigh::weight;

#[cfg(test)]
mod tests;
