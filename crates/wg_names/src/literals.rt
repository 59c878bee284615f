ghost use Rattle.std.specs.Prelude.{◌≡◌, [], ◌∷◌, Some, IfOk};
ghost use Rattle.wg_typed.specs.Operators.{words_for, literal_scalar};
ghost use Rattle.wg_typing.specs.TypingName as t;
ghost use Rattle.wg_typing.specs.declared.scope.Value.TheVariants as value;

use std::alloc::{AllocError, Global};
use wg_conversions::{number_type, truth_type};
use wg_notes::{Valued, fixed};
use wg_typed::TypedKind;
use wg_typing::Value;
use wg_words::{Name, Place, TryCopy, Words};

/// The words of a number as it is written.
#[tactic(auto, using(crate::proofs::LiteralWords::words_wide, crate::proofs::LiteralWords::words_narrow))]
fn literal_words(alloc: Global, n: u64, unsigned: bool, long: bool) -> Result<Words, AllocError>
    ensures { IfOk result (λ words. words ≡ words_for (literal_scalar n unsigned long) (n ∷ [])) }
{
    let low = (n % 0x1_0000_0000) as u32;
    if long | (n >= 0x1_0000_0000) {
        let high = (n / 0x1_0000_0000) as u32;
        Words::from_slice(alloc, &[low, high])
    } else {
        Words::from_slice(alloc, &[low])
    }
}

/// A number.
pub fn number(alloc: Global, place: Place, n: u64, unsigned: bool, long: bool) -> Valued
    ensures { IfOk result (λ r. r ≡ t.number_value place n unsigned long) }
{
    let words = literal_words(alloc, n, unsigned, long)?;
    let kind = TypedKind::Literal { words };
    fixed(alloc, place, number_type(n, unsigned, long), kind)
}

/// `true` or `false`.
pub fn truth(alloc: Global, place: Place, b: bool) -> Valued
    ensures { IfOk result (λ r. r ≡ t.truth_value place b) }
{
    let words = Words::from_slice(alloc, &[u32::from(b)])?;
    let kind = TypedKind::Literal { words };
    fixed(alloc, place, truth_type(), kind)
}

/// A string.
pub fn text(alloc: Global, bytes: &Name) -> Valued
    ensures { IfOk result (λ r. r ≡ Some (value.Text bytes.now)) }
{
    let bytes = bytes.copy(alloc)?;
    Ok(Some(Value::Text { bytes }))
}
