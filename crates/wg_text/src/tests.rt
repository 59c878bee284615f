use crate::{number, printed};
use std::test::Fail;

#[test]
fn texts_are_read_as_numbers(rt: HostRuntime) -> Result<(), Fail> {
    let rows: [(&[u8], u32, Option<u64>); 7] = [
        (b"007", 10, Some(7)),
        (b"fF", 16, Some(255)),
        (b"18446744073709551615", 10, Some(u64::MAX)),
        (b"18446744073709551616", 10, None),
        (b"+1", 10, None),
        (b"1g", 16, None),
        (b"", 10, None),
    ];
    for (text, base, want) in rows {
        assert_eq!(rt; number(text, base), want);
    }
    assert_eq!(rt; printed(b"0"), Some(0));
    assert_eq!(rt; printed(b"007"), None);
    Ok(())
}
