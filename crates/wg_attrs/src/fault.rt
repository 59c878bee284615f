//! Why the attributes of a text are not read.
ghost use Rattle.std.specs.Prelude.{◌≡◌};
ghost use Rattle.wg_attrs.specs.Faults.{rule_numbered, told};

use std::alloc::AllocError;
use wg_typing::Fault;
use wg_words::Place;

/// Why the attributes of a text are not read, with the place of what breaks the rule (DirectX-Specs, Work Graphs, "Shader
/// function attributes"; the rules as numbered are this project's own, 401 to 405 in this order).
#[derive(Clone, Copy, Debug, PartialEq, Eq)]
pub enum AttrFault {
    /// No attribute of that name, or none that stands there.
    Unknown { place: Place },
    /// What a node, an output or a parameter lacks.
    Missing { place: Place },
    /// The second of one name, of the two grids, or of the two bounds.
    Twice { place: Place },
    /// An argument out of its range, or of another form.
    Range { place: Place },
    /// What the launch mode forbids.
    WrongMode { place: Place },
    /// No memory was left.
    Memory,
}

impl From<AllocError> for AttrFault {
    ghost use Rattle.std.specs.Prelude.{◌≡◌};
    ghost use Rattle.wg_attrs.specs.declared.fault.AttrFault.TheVariants.{Memory};

    ghost from_gives = { λ _ fault. fault ≡ Memory };

    fn from(_error: AllocError) -> AttrFault {
        AttrFault::Memory
    }
}

/// The fault of a broken rule at its place.
pub(crate) fn fault_of(broken: Fault) -> AttrFault
    ensures { result ≡ told (rule_numbered broken.rule) broken.place }
{
    let place = broken.place;
    match broken.rule {
        401 => AttrFault::Unknown { place },
        402 => AttrFault::Missing { place },
        403 => AttrFault::Twice { place },
        404 => AttrFault::Range { place },
        _ => AttrFault::WrongMode { place },
    }
}
