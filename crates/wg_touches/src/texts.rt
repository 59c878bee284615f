//! What a text does to the shared buffers.
ghost use Rattle.std.specs.Prelude.{◌≡◌};
ghost use Rattle.wg_additive.specs.Quiet as q;
ghost use Rattle.wg_additive.specs.TextTouches.{text_touches};
ghost use Rattle.wg_touches.specs.Passing as p;

use crate::statements::body_passes;
use wg_typed::{Typed, TypedFunction};

/// What the bodies of these functions do, among all of a text.
#[tactic(auto, using(crate::proofs::Passes::both_pass))]
fn functions_pass(functions: &[TypedFunction], stores: bool, list: &[TypedFunction]) -> bool
    ensures { result ≡ p.functions_pass stores functions.now list.now }
{
    for f in list {
        if !body_passes(functions, stores, f.body.as_slice()) {
            return false;
        }
    }
    true
}

/// Whether all that a text does passes: additions, and stores where they are let through.
pub(crate) fn text_passes(typed: &Typed, stores: bool) -> bool
    ensures { result ≡ p.passes stores (text_touches typed.now) }
{
    let functions = typed.functions.as_slice();
    functions_pass(functions, stores, functions)
}

/// Whether no launch of a text learns a word of a shared buffer (this project's own rule). It takes no memory.
#[tactic(auto, using(crate::proofs::Passes::stores_are_quiet))]
pub fn is_quiet(typed: &Typed) -> bool
    ensures quiet { result ≡ q.is_quiet typed.now }
{
    text_passes(typed, true)
}
