ghost use Rattle.std.specs.Prelude.{◌≡◌};
ghost use Rattle.wg_typing.specs.Attributes.{attribute_number};
ghost use Rattle.wg_typing.specs.Faults as f;
ghost use Rattle.wg_typing.specs.Sites.{at_if};
ghost use Rattle.wg_attribute_rules.specs.Noted as n;

use wg_typing::{AttributeRule, Fault};
use wg_words::Place;

/// The number of a rule, 401 to 405.
fn number(rule: AttributeRule) -> u32
    ensures { result ≡ attribute_number rule }
{
    match rule {
        AttributeRule::Unknown => 401,
        AttributeRule::Missing => 402,
        AttributeRule::Twice => 403,
        AttributeRule::Range => 404,
        AttributeRule::WrongMode => 405,
    }
}

fn is_before(a: Place, b: Place) -> bool
    ensures { result ≡ f.is_before a b }
{
    (a.line < b.line) | ((a.line == b.line) & (a.column < b.column))
}

fn is_earlier(a: Fault, b: Fault) -> bool
    ensures { result ≡ f.is_earlier a b }
{
    let same = (a.place.line == b.place.line) & (a.place.column == b.place.column);
    is_before(a.place, b.place) | (same & (a.rule < b.rule))
}

/// The earlier of the first fault so far and of one more.
fn earlier(best: Option<Fault>, fault: Fault) -> Option<Fault>
    ensures { result ≡ n.earlier best fault }
{
    match best {
        Some(best) => Some(if is_earlier(fault, best) { fault } else { best }),
        None => Some(fault),
    }
}

/// The first fault so far, with this rule where it is broken at a place.
pub fn note_if(
    best: Option<Fault>,
    broken: bool,
    rule: AttributeRule,
    place: Place,
) -> Option<Fault>
    ensures { result ≡ n.with_places (attribute_number rule) (at_if broken place) best }
{
    if !broken {
        return best;
    }
    let rule = number(rule);
    earlier(best, Fault { rule, place })
}
