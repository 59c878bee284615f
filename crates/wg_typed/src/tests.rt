use crate::{Constants, declare_constant, value};
use std::test::Fail;
use wg_tree::{Expr, Scalar};
use wg_words::{Name, Place};

/// `static const uint16_t A = 70000;` has the value 4464, by hand: 70000 is 65536 and 4464.
#[test]
fn a_constant_has_a_number_of_its_type(rt: HostRuntime) -> Result<(), Fail> {
    let alloc = rt.alloc();
    let mut known = Constants::new(alloc);
    let written = Expr::Number {
        place: Place { line: 1, column: 1 },
        value: 70_000,
        unsigned: false,
        long: false,
    };
    let name = Name::from_slice(alloc, b"A")?;
    match value(&written, &known) {
        Some(given) => known.add(name, declare_constant(Scalar::Uint16, given))?,
        None => (),
    }
    let kept = known.get(b"A").map(|constant| constant.value);
    assert_eq!(rt; kept, Some(4464));
    Ok(())
}
