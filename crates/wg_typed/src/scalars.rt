//! Scalars of whole numbers: their bits, their signs, and the one in which two are taken.
ghost use Rattle.std.specs.Prelude.{◌≡◌};
ghost use Rattle.wg_typed.specs.Operators as o;

use wg_tree::Scalar;

/// The bits of a scalar's number.
pub fn bits_of(s: Scalar) -> u32
    ensures { result ≡ o.width_of s }
{
    match s {
        Scalar::Int16 | Scalar::Uint16 => 16,
        Scalar::Bool | Scalar::Int | Scalar::Uint => 32,
        Scalar::Int64 | Scalar::Uint64 => 64,
    }
}

/// Whether a scalar has negative numbers.
pub fn has_sign(s: Scalar) -> bool
    ensures { result ≡ o.is_signed s }
{
    match s {
        Scalar::Int | Scalar::Int16 | Scalar::Int64 => true,
        Scalar::Bool | Scalar::Uint | Scalar::Uint16 | Scalar::Uint64 => false,
    }
}

/// In arithmetic `bool` becomes `int`.
pub fn counted(s: Scalar) -> Scalar
    ensures { result ≡ o.counted s }
{
    match s {
        Scalar::Bool | Scalar::Int => Scalar::Int,
        Scalar::Uint => Scalar::Uint,
        Scalar::Int16 => Scalar::Int16,
        Scalar::Uint16 => Scalar::Uint16,
        Scalar::Int64 => Scalar::Int64,
        Scalar::Uint64 => Scalar::Uint64,
    }
}

/// The scalar of whole numbers of so many bits: 16, 64 or 32.
pub fn integer(bits: u32, signed: bool) -> Scalar
    ensures { result ≡ o.integer bits signed }
{
    match (bits, signed) {
        (16, true) => Scalar::Int16,
        (16, false) => Scalar::Uint16,
        (64, true) => Scalar::Int64,
        (64, false) => Scalar::Uint64,
        (_, true) => Scalar::Int,
        (_, false) => Scalar::Uint,
    }
}

/// Of two scalars of whole numbers the wider, and at equal width the unsigned one.
pub fn wider(a: Scalar, b: Scalar) -> Scalar
    ensures { result ≡ o.wider a b }
{
    let (left, right) = (bits_of(a), bits_of(b));
    if left < right {
        b
    } else if right < left {
        a
    } else {
        integer(left, has_sign(a) & has_sign(b))
    }
}
