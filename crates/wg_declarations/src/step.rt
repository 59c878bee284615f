//! Steps: what evaluates an expression.
ghost use Rattle.std.specs.Prelude.{◌≡◌};
ghost use Rattle.wg_tree.specs.GrammarStmt as grammar;
ghost use Rattle.wg_cursor.specs.IsReading.{IsReading};
ghost use Rattle.wg_declarations.specs.PartReads.{stmt_part_read, step_after};

use std::alloc::Global;
use wg_cursor::symbols::*;
use wg_cursor::words::*;
use wg_cursor::{Cursor, ElementReader, Halt, at_class, class, many};
use wg_expressions::{ExprKind, expr};
use wg_tokens::{Class, Token};
use wg_tree::{AssignOperator, Expr, Step, StepOperator, Steps};

const ASSIGN_OPERATORS: [Class; 11] = [
    ASSIGN,
    STAR_ASSIGN,
    SLASH_ASSIGN,
    PERCENT_ASSIGN,
    PLUS_ASSIGN,
    MINUS_ASSIGN,
    SHIFT_LEFT_ASSIGN,
    SHIFT_RIGHT_ASSIGN,
    AMPERSAND_ASSIGN,
    CARET_ASSIGN,
    BAR_ASSIGN,
];

const STEP_OPERATORS: [Class; 2] = [INCREMENT, DECREMENT];

/// The classes with which a step begins.
pub const STEP_STARTS: [Class; 28] = [
    MINUS, PLUS, NOT, TILDE, NUMBER, ZERO, TRUE, FALSE, NAME, BOOL, BOOL2, BOOL3, BOOL4, INT, INT2,
    INT3, INT4, UINT, UINT2, UINT3, UINT4, INT16, UINT16, INT64, UINT64, LEFT_PAREN, INCREMENT,
    DECREMENT,
];

const ASSIGNS: [(Class, AssignOperator); 11] = [
    (ASSIGN, AssignOperator::Plain),
    (STAR_ASSIGN, AssignOperator::Multiply),
    (SLASH_ASSIGN, AssignOperator::Divide),
    (PERCENT_ASSIGN, AssignOperator::Remainder),
    (PLUS_ASSIGN, AssignOperator::Add),
    (MINUS_ASSIGN, AssignOperator::Subtract),
    (SHIFT_LEFT_ASSIGN, AssignOperator::ShiftLeft),
    (SHIFT_RIGHT_ASSIGN, AssignOperator::ShiftRight),
    (AMPERSAND_ASSIGN, AssignOperator::BitAnd),
    (CARET_ASSIGN, AssignOperator::BitXor),
    (BAR_ASSIGN, AssignOperator::BitOr),
];

fn assign_operator(token: &Token) -> AssignOperator
    ensures { result ≡ grammar.assign_operator token.now }
{
    at_class(&ASSIGNS, AssignOperator::Plain, class(token))
}

const STEPS: [(Class, StepOperator); 2] = [
    (INCREMENT, StepOperator::Increment),
    (DECREMENT, StepOperator::Decrement),
];

fn step_operator(token: &Token) -> StepOperator
    ensures { result ≡ grammar.step_operator_of token.now }
{
    at_class(&STEPS, StepOperator::Increment, class(token))
}

/// A step that begins with this expression.
fn step_from(alloc: Global, cursor: &mut Cursor<'_>, room: u32, target: Expr) -> Result<Step, Halt>
    ensures { IsReading (step_after room target cursor.old) result cursor.new }
{
    if cursor.sees(&ASSIGN_OPERATORS) {
        let token = cursor.take(&ASSIGN_OPERATORS)?;
        let value = expr(alloc, cursor, ExprKind::Full, room)?;
        return Ok(Step::Assign {
            target,
            operator: assign_operator(token),
            place: token.place,
            value,
        });
    }
    if cursor.sees(&STEP_OPERATORS) {
        let token = cursor.take(&STEP_OPERATORS)?;
        return Ok(Step::After {
            target,
            operator: step_operator(token),
            place: token.place,
        });
    }
    Ok(Step::Evaluate { value: target })
}

pub fn a_step(alloc: Global, cursor: &mut Cursor<'_>, room: u32) -> Result<Step, Halt>
    ensures { IsReading (stmt_part_read room (grammar.a_step grammar.value_part) cursor.old) result cursor.new }
{
    if cursor.sees(ExprKind::Full.starts()) {
        let target = expr(alloc, cursor, ExprKind::Full, room)?;
        return step_from(alloc, cursor, room, target);
    }
    let token = cursor.take(&STEP_OPERATORS)?;
    let target = expr(alloc, cursor, ExprKind::Full, room)?;
    Ok(Step::Before {
        place: token.place,
        operator: step_operator(token),
        target,
    })
}

#[derive(Drop)]
struct NextStep {
    room: u32,
}

impl ElementReader for NextStep {
    ghost use Rattle.wg_declarations.specs.PartReads.{stmt_part_read};
    ghost use Rattle.wg_tree.specs.GrammarStmt as grammar;

    type Tree = Step;

    ghost reads = { λ rule. stmt_part_read rule.room (grammar.next_step grammar.value_part) };

    fn read(&self, alloc: Global, cursor: &mut Cursor<'_>) -> Result<Step, Halt> {
        cursor.mark(COMMA)?;
        a_step(alloc, cursor, self.room)
    }
}

pub fn steps(alloc: Global, cursor: &mut Cursor<'_>, room: u32) -> Result<Steps, Halt>
    ensures { IsReading (stmt_part_read room (grammar.steps grammar.value_part) cursor.old) result cursor.new }
{
    let first = a_step(alloc, cursor, room)?;
    let rest = many(alloc, cursor, &[COMMA], &NextStep { room })?;
    Ok(Steps { first, rest })
}
