ghost use Rattle.std.specs.Prelude.{◌≡◌};
ghost use Rattle.wg_typed.specs.Constants.{const_value, known_in, chain_value, rights_of};

use crate::const_numbers::{apply, apply_prefix, choose, literal_value};
use crate::constants::Constants;
use crate::types::ConstValue;
use sqlite_items::Items;
use wg_tree::{Expr, Link};

/// The value of operators of one level, from left to right.
#[cycle(value)]
#[tactic(auto, using(crate::proofs::ConstChains::no_chain))]
fn chain(first: Option<ConstValue>, rest: &Items<Link>, known: &Constants) -> Option<ConstValue>
    ensures { result ≡ chain_value first (rights_of (known_in known.now) rest.now) }
{
    let mut before = first?;
    for link in rest.as_slice() {
        let right = value(&link.operand, known)?;
        before = apply(link.operator, before, right);
    }
    Some(before)
}

/// The value of a `const`, where the names have these values; none where it is no `const` (a number, a name that is known, a
/// bracket, an operator or a choice). The operators are HLSL's on whole numbers of 16, 32 and
/// 64 bits; a truth is the `int` 1 or 0.
#[cycle(value)]
#[tactic(auto, using(crate::proofs::ConstChains::no_chain))]
pub fn value(expr: &Expr, known: &Constants) -> Option<ConstValue>
    ensures { result ≡ const_value (known_in known.now) expr.now }
{
    match expr {
        Expr::Number {
            value,
            unsigned,
            long,
            ..
        } => Some(literal_value(*value, *unsigned, *long)),
        Expr::Name { name } => known.get(name.name.as_slice()),
        Expr::Bracket { inner, .. } => value(inner.get(), known),
        Expr::Prefix {
            operator,
            operand,
            ..
        } => {
            let a = value(operand.get(), known)?;
            Some(apply_prefix(*operator, a))
        }
        Expr::Chain { first, rest } => {
            let first = value(first.get(), known);
            chain(first, rest, known)
        }
        Expr::Choice { test, then, other } => {
            let test = value(test.get(), known)?;
            let a = value(then.get(), known)?;
            let b = value(other.get(), known)?;
            Some(choose(test, a, b))
        }
        Expr::Text { .. }
        | Expr::Truth { .. }
        | Expr::Call { .. }
        | Expr::Construct { .. }
        | Expr::Cast { .. }
        | Expr::Zeros { .. }
        | Expr::Postfix { .. } => None,
    }
}
