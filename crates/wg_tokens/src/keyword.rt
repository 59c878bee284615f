//! The words of the language.
ghost use Rattle.std.specs.Prelude.{◌≡◌, ◌<◌, slice_index, slice_get, map};
ghost use Rattle.wg_tokens.specs.Spelled.{keyword_of, slot, if_spelled};

/// A word of the language, which is no name.
#[derive(Clone, Copy, Debug, PartialEq, Eq)]
pub enum Keyword {
    Struct,
    GloballyCoherent,
    Register,
    RwByteAddressBuffer,
    ByteAddressBuffer,
    RwStructuredBuffer,
    StructuredBuffer,
    GroupShared,
    Static,
    Const,
    Void,
    In,
    Out,
    InOut,
    Break,
    Continue,
    Return,
    If,
    Else,
    While,
    For,
    True,
    False,
    Bool,
    Bool2,
    Bool3,
    Bool4,
    Int,
    Int2,
    Int3,
    Int4,
    Uint,
    Uint2,
    Uint3,
    Uint4,
    Int16,
    Uint16,
    Int64,
    Uint64,
    DispatchNodeInputRecord,
    RwDispatchNodeInputRecord,
    GroupNodeInputRecords,
    RwGroupNodeInputRecords,
    ThreadNodeInputRecord,
    RwThreadNodeInputRecord,
    EmptyNodeInput,
    NodeOutput,
    NodeOutputArray,
    EmptyNodeOutput,
    EmptyNodeOutputArray,
    ThreadNodeOutputRecords,
    GroupNodeOutputRecords,
}

/// The words of the language as they are written.
pub const KEYWORDS: [(&[u8], Keyword); 52] = [
    (b"struct", Keyword::Struct),
    (b"globallycoherent", Keyword::GloballyCoherent),
    (b"register", Keyword::Register),
    (b"RWByteAddressBuffer", Keyword::RwByteAddressBuffer),
    (b"ByteAddressBuffer", Keyword::ByteAddressBuffer),
    (b"RWStructuredBuffer", Keyword::RwStructuredBuffer),
    (b"StructuredBuffer", Keyword::StructuredBuffer),
    (b"groupshared", Keyword::GroupShared),
    (b"static", Keyword::Static),
    (b"const", Keyword::Const),
    (b"void", Keyword::Void),
    (b"in", Keyword::In),
    (b"out", Keyword::Out),
    (b"inout", Keyword::InOut),
    (b"break", Keyword::Break),
    (b"continue", Keyword::Continue),
    (b"return", Keyword::Return),
    (b"if", Keyword::If),
    (b"else", Keyword::Else),
    (b"while", Keyword::While),
    (b"for", Keyword::For),
    (b"true", Keyword::True),
    (b"false", Keyword::False),
    (b"bool", Keyword::Bool),
    (b"bool2", Keyword::Bool2),
    (b"bool3", Keyword::Bool3),
    (b"bool4", Keyword::Bool4),
    (b"int", Keyword::Int),
    (b"int2", Keyword::Int2),
    (b"int3", Keyword::Int3),
    (b"int4", Keyword::Int4),
    (b"uint", Keyword::Uint),
    (b"uint2", Keyword::Uint2),
    (b"uint3", Keyword::Uint3),
    (b"uint4", Keyword::Uint4),
    (b"int16_t", Keyword::Int16),
    (b"uint16_t", Keyword::Uint16),
    (b"int64_t", Keyword::Int64),
    (b"uint64_t", Keyword::Uint64),
    (b"DispatchNodeInputRecord", Keyword::DispatchNodeInputRecord),
    (
        b"RWDispatchNodeInputRecord",
        Keyword::RwDispatchNodeInputRecord,
    ),
    (b"GroupNodeInputRecords", Keyword::GroupNodeInputRecords),
    (b"RWGroupNodeInputRecords", Keyword::RwGroupNodeInputRecords),
    (b"ThreadNodeInputRecord", Keyword::ThreadNodeInputRecord),
    (b"RWThreadNodeInputRecord", Keyword::RwThreadNodeInputRecord),
    (b"EmptyNodeInput", Keyword::EmptyNodeInput),
    (b"NodeOutput", Keyword::NodeOutput),
    (b"NodeOutputArray", Keyword::NodeOutputArray),
    (b"EmptyNodeOutput", Keyword::EmptyNodeOutput),
    (b"EmptyNodeOutputArray", Keyword::EmptyNodeOutputArray),
    (b"ThreadNodeOutputRecords", Keyword::ThreadNodeOutputRecords),
    (b"GroupNodeOutputRecords", Keyword::GroupNodeOutputRecords),
];

/// Where the word of each slot stands in `KEYWORDS`; 52, past its end, where a slot has none.
const SLOTS: [u8; 128] = [
    52, 17, 13, 4, 52, 52, 5, 49, 25, 52, 52, 52, 52, 52, 52, 52, 52, 22, 3, 39, 52, 18, 52, 28,
    52, 45, 12, 23, 51, 15, 52, 26, 52, 52, 52, 52, 52, 48, 52, 52, 36, 52, 52, 52, 52, 20, 29, 31,
    52, 2, 52, 52, 52, 10, 52, 38, 52, 52, 52, 52, 52, 52, 52, 52, 52, 52, 52, 16, 52, 30, 52, 52,
    8, 46, 52, 52, 6, 32, 52, 52, 52, 11, 0, 52, 52, 52, 52, 52, 1, 44, 52, 52, 7, 19, 42, 52, 35,
    9, 52, 52, 33, 52, 21, 27, 52, 47, 52, 52, 50, 52, 40, 37, 52, 24, 14, 52, 52, 52, 52, 43, 52,
    52, 52, 34, 52, 52, 41, 52,
];

fn byte(name: &[u8], at: usize) -> u8
    ensures { result ≡ slice_index name.now at }
{
    if at < name.len() { name[at] } else { 0 }
}

/// The slot of a word in `SLOTS`. No two words of the language have the same.
fn slot(name: &[u8]) -> usize
    ensures is { result ≡ slot name.now }
    ensures within { result < 128 }
{
    let first = usize::from(byte(name, 0));
    let middle = usize::from(byte(name, name.len() / 2));
    let last = usize::from(byte(name, name.len().saturating_sub(1)));
    (first * 5 + middle * 3 + last * 23 + name.len() % 32 * 12) % 128
}

/// The word that stands there in a table, if it is spelled so.
fn spelled_at(words: &[(&[u8], Keyword)], at: usize, name: &[u8]) -> Option<Keyword>
    ensures { result ≡ if_spelled (slice_get (map (λ word. (word.0.now, word.1)) words.now) at) name.now }
{
    match words.get(at) {
        Some((spelled, keyword)) if *spelled == name => Some(*keyword),
        _ => None,
    }
}

/// The word of the language that is spelled so, by one look-up.
#[tactic(auto, using(crate::proofs::Slots::by_slot))]
pub fn keyword_of(name: &[u8]) -> Option<Keyword>
    ensures { result ≡ keyword_of name.now }
{
    spelled_at(&KEYWORDS, usize::from(SLOTS[slot(name)]), name)
}
