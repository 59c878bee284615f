use super::*;
use std::test::Fail;
use wg_tree::{Named, Scalar};
use wg_words::{Name, Place};

fn named(alloc: Global) -> Named {
    Named {
        name: Name::new(alloc),
        place: Place { line: 1, column: 1 },
    }
}

/// `struct A { uint n; uint64_t s; uint16_t h; };`
fn a_struct(alloc: Global) -> Result<TypedStruct, AllocError> {
    let mut fields = List::new(alloc);
    for of in [Scalar::Uint, Scalar::Uint64, Scalar::Uint16] {
        fields.push(TypedField {
            name: named(alloc),
            of: TypeTree::Scalar { of },
            semantic: None,
        })?;
    }
    Ok(TypedStruct {
        name: named(alloc),
        attributes: List::new(alloc),
        fields,
    })
}

/// The words 0, 2 to 3 and 4 are the fields', and the words 1 and 5 stand between.
#[test]
fn a_wide_field_begins_at_an_even_word(rt: HostRuntime) -> Result<(), Fail> {
    let alloc = rt.alloc();
    let mut structs = List::new(alloc);
    structs.push(a_struct(alloc)?)?;
    let sizes = Sizes::new(alloc, &structs)?;
    assert_eq!(rt; sizes.words(&TypeTree::Struct { number: 0 }), 6);
    Ok(())
}
