use wg_tree::Scalar;

/// What an array is made of.
#[derive(Clone, Copy, Debug, PartialEq, Eq)]
pub enum ElementType {
    Scalar { of: Scalar },
    Vector { of: Scalar, size: u32 },
    Struct { number: u32 },
}

/// A type. A struct is named by its number in the text, so a type is small however deep structs nest.
#[derive(Clone, Copy, Debug, PartialEq, Eq)]
pub enum TypeTree {
    Scalar { of: Scalar },
    Vector { of: Scalar, size: u32 },
    Struct { number: u32 },
    Array { of: ElementType, size: u32 },
}

/// The value of a `const`: a word of 16, 32 or 64 bits, and whether its type is signed.
#[derive(Clone, Copy, Debug, PartialEq, Eq)]
pub struct ConstValue {
    pub value: u64,
    pub signed: bool,
    pub bits: u32,
}

/// What a type takes: its words, and whether it has a part of 64 bits, so that it begins at an even word.
#[derive(Clone, Copy, Debug, PartialEq, Eq)]
pub struct Extent {
    pub words: u32,
    pub even: bool,
}

/// What a word of a value is, so far as reading it from memory needs it: a truth, a number of 16 bits, a word between two
/// parts, or any word as it is.
#[derive(Clone, Copy, Debug, PartialEq, Eq)]
pub enum WordMark {
    Plain,
    Truth,
    Signed16,
    Unsigned16,
    Between,
}
