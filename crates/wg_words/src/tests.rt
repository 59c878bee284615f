//! Rows from the rules of HLSL's operators, with -7 as `0xffff_fff9` and -2 as `0xffff_fffe`.
use crate::*;
use std::cmp::Ordering;
use std::test::Fail;

#[test]
fn words_follow_the_rules_of_hlsl(rt: HostRuntime) -> Result<(), Fail> {
    let minus_7 = 0xffff_fff9;
    let minus_2 = 0xffff_fffe;
    let rows = [
        (add(0xffff_ffff, 2), 1),
        (sub(1, 2), 0xffff_ffff),
        (mul(0x8000_0001, 2), 2),
        (div_u(7, 0), 0xffff_ffff),
        (rem_u(7, 2), 1),
        (div_s(minus_7, 2), 0xffff_fffd),
        (rem_s(minus_7, 2), 0xffff_ffff),
        (rem_s(7, minus_2), 1),
        (div_s(0x8000_0000, 0xffff_ffff), 0x8000_0000),
        (shl(1, 33), 2),
        (shr_u(minus_2, 33), 0x7fff_ffff),
        (shr_s(minus_2, 33), 0xffff_ffff),
        (count_bits(0xf000_0001), 5),
        (first_high(0), 0xffff_ffff),
        (first_high(16), 4),
        (first_low(24), 3),
        (reverse(1), 0x8000_0000),
    ];
    for (found, wanted) in rows {
        assert_eq!(rt; found, wanted);
    }
    assert_eq!(rt; cmp_u(minus_2, 7), Ordering::Greater);
    assert_eq!(rt; cmp_s(minus_2, 7), Ordering::Less);
    Ok(())
}

#[test]
fn other_widths_wrap_at_their_own(rt: HostRuntime) -> Result<(), Fail> {
    let halves = [
        (add_16(0xffff, 2), 1),
        (mul_16(0x8001, 2), 2),
        (div_u_16(7, 0), 0xffff),
        (div_s_16(0x8000, 0xffff), 0x8000),
        (rem_s_16(0xfff9, 2), 0xffff),
        (shl_16(1, 17), 2),
        (shr_s_16(0xfffe, 17), 0xffff),
    ];
    for (found, wanted) in halves {
        assert_eq!(rt; found, wanted);
    }
    let wide = [
        (sub_64(0, 1), 0xffff_ffff_ffff_ffff),
        (mul_64(0x1_0000_0000, 0x1_0000_0001), 0x1_0000_0000),
        (rem_u_64(7, 0), 0xffff_ffff_ffff_ffff),
        (shl_64(1, 65), 2),
        (shr_u_64(0x1_0000_0000, 32), 1),
        (shr_s_64(0xffff_ffff_ffff_fffe, 65), 0xffff_ffff_ffff_ffff),
    ];
    for (found, wanted) in wide {
        assert_eq!(rt; found, wanted);
    }
    assert_eq!(rt; cmp_u_16(0xfffe, 7), Ordering::Greater);
    assert_eq!(rt; cmp_s_64(0xffff_ffff_ffff_fffe, 7), Ordering::Less);
    Ok(())
}
