ghost use Rattle.std.specs.Prelude.{◌≡◌, IsTrue, if◌then◌else◌};
ghost use Rattle.wg_code.specs.Valid.{valid as is_valid_code};

use crate::code::RawCode;
use crate::nodes::is_valid;
use std::marker::Model;

/// Code that was checked.
#[derive(Drop)]
pub struct Code {
    raw: RawCode,
}

impl Model for Code {
    ghost use Rattle.std.specs.Prelude.{IsTrue};
    ghost use Rattle.wg_code.specs.Valid.{valid};
    ghost use Rattle.wg_code.specs.declared.code.RawCode.{RawCode as Raw};
    ghost use Rattle.wg_code.specs.contracts.code.RawCode as row_of_code;

    ghost Value = { Raw };

    ghost coded = { row_of_code.the_row.coded };

    ghost view = { λ c. c.raw };

    ghost invariant = { λ c. IsTrue (valid c.raw) };
}

impl Code {
    /// The code as it was given.
    pub fn raw(&self) -> &RawCode
        ensures same { result.now ≡ self.now }
        ensures valid { IsTrue (is_valid_code self.now) }
    {
        &self.raw
    }
}

/// Checks code. None exactly where something that it names is not there, a call is too deep or stands where it may not. It takes no memory.
pub fn validate(raw: RawCode) -> Option<Code>
    ensures { result ≡ (if is_valid_code raw then Some raw else None) }
{
    if is_valid(&raw) {
        Some(Code { raw })
    } else {
        None
    }
}
