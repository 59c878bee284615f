use wg_words::Items;

/// Where a field stands in the words of its struct.
#[derive(Clone, Copy, Debug, PartialEq, Eq)]
pub struct FieldRange {
    pub from: u32,
    pub to: u32,
}

pub type FieldRanges = Items<FieldRange>;

/// The layout of a type: its words, the bytes of a slot for a record of it, and for a struct the ranges of its fields in order.
#[derive(Debug, Drop)]
pub struct Layout {
    pub words: u32,
    pub stride: u32,
    pub fields: FieldRanges,
}
