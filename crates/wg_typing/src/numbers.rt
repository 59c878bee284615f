use sqlite_items::Items;
use wg_tree::Scalar;

/// A scalar, or a vector of so many of them.
#[derive(Clone, Copy, Debug, PartialEq, Eq)]
pub struct Numbers {
    pub of: Scalar,
    pub size: Option<u32>,
}

/// The types to which the operands of an operator are converted, and the type of the result.
#[derive(Clone, Copy, Debug, PartialEq, Eq)]
pub struct Operation {
    pub left: Numbers,
    pub right: Numbers,
    pub result: Numbers,
}

/// The types to which the arguments of an intrinsic are converted, and the type of the result.
#[derive(Drop)]
pub struct Signature {
    pub arguments: Items<Numbers>,
    pub result: Numbers,
}
