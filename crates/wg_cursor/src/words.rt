//! Words and marks that stand in the sets of statements and items.
use wg_tokens::{Class, Keyword, Mark};

/// `struct`.
pub const STRUCT: Class = Class::Word {
    keyword: Keyword::Struct,
};

/// `globallycoherent`.
pub const GLOBALLY_COHERENT: Class = Class::Word {
    keyword: Keyword::GloballyCoherent,
};

/// `RWByteAddressBuffer`.
pub const RW_BYTE_ADDRESS_BUFFER: Class = Class::Word {
    keyword: Keyword::RwByteAddressBuffer,
};

/// `ByteAddressBuffer`.
pub const BYTE_ADDRESS_BUFFER: Class = Class::Word {
    keyword: Keyword::ByteAddressBuffer,
};

/// `RWStructuredBuffer`.
pub const RW_STRUCTURED_BUFFER: Class = Class::Word {
    keyword: Keyword::RwStructuredBuffer,
};

/// `StructuredBuffer`.
pub const STRUCTURED_BUFFER: Class = Class::Word {
    keyword: Keyword::StructuredBuffer,
};

/// `groupshared`.
pub const GROUP_SHARED: Class = Class::Word {
    keyword: Keyword::GroupShared,
};

/// `static`.
pub const STATIC: Class = Class::Word {
    keyword: Keyword::Static,
};

/// `const`.
pub const CONST: Class = Class::Word {
    keyword: Keyword::Const,
};

/// `void`.
pub const VOID: Class = Class::Word {
    keyword: Keyword::Void,
};

/// `in`.
pub const IN: Class = Class::Word {
    keyword: Keyword::In,
};

/// `out`.
pub const OUT: Class = Class::Word {
    keyword: Keyword::Out,
};

/// `inout`.
pub const IN_OUT: Class = Class::Word {
    keyword: Keyword::InOut,
};

/// `break`.
pub const BREAK: Class = Class::Word {
    keyword: Keyword::Break,
};

/// `continue`.
pub const CONTINUE: Class = Class::Word {
    keyword: Keyword::Continue,
};

/// `return`.
pub const RETURN: Class = Class::Word {
    keyword: Keyword::Return,
};

/// `if`.
pub const IF: Class = Class::Word {
    keyword: Keyword::If,
};

/// `else`.
pub const ELSE: Class = Class::Word {
    keyword: Keyword::Else,
};

/// `while`.
pub const WHILE: Class = Class::Word {
    keyword: Keyword::While,
};

/// `for`.
pub const FOR: Class = Class::Word {
    keyword: Keyword::For,
};

/// `DispatchNodeInputRecord`.
pub const DISPATCH_NODE_INPUT_RECORD: Class = Class::Word {
    keyword: Keyword::DispatchNodeInputRecord,
};

/// `RWDispatchNodeInputRecord`.
pub const RW_DISPATCH_NODE_INPUT_RECORD: Class = Class::Word {
    keyword: Keyword::RwDispatchNodeInputRecord,
};

/// `GroupNodeInputRecords`.
pub const GROUP_NODE_INPUT_RECORDS: Class = Class::Word {
    keyword: Keyword::GroupNodeInputRecords,
};

/// `RWGroupNodeInputRecords`.
pub const RW_GROUP_NODE_INPUT_RECORDS: Class = Class::Word {
    keyword: Keyword::RwGroupNodeInputRecords,
};

/// `ThreadNodeInputRecord`.
pub const THREAD_NODE_INPUT_RECORD: Class = Class::Word {
    keyword: Keyword::ThreadNodeInputRecord,
};

/// `RWThreadNodeInputRecord`.
pub const RW_THREAD_NODE_INPUT_RECORD: Class = Class::Word {
    keyword: Keyword::RwThreadNodeInputRecord,
};

/// `EmptyNodeInput`.
pub const EMPTY_NODE_INPUT: Class = Class::Word {
    keyword: Keyword::EmptyNodeInput,
};

/// `NodeOutput`.
pub const NODE_OUTPUT: Class = Class::Word {
    keyword: Keyword::NodeOutput,
};

/// `NodeOutputArray`.
pub const NODE_OUTPUT_ARRAY: Class = Class::Word {
    keyword: Keyword::NodeOutputArray,
};

/// `EmptyNodeOutput`.
pub const EMPTY_NODE_OUTPUT: Class = Class::Word {
    keyword: Keyword::EmptyNodeOutput,
};

/// `EmptyNodeOutputArray`.
pub const EMPTY_NODE_OUTPUT_ARRAY: Class = Class::Word {
    keyword: Keyword::EmptyNodeOutputArray,
};

/// `ThreadNodeOutputRecords`.
pub const THREAD_NODE_OUTPUT_RECORDS: Class = Class::Word {
    keyword: Keyword::ThreadNodeOutputRecords,
};

/// `GroupNodeOutputRecords`.
pub const GROUP_NODE_OUTPUT_RECORDS: Class = Class::Word {
    keyword: Keyword::GroupNodeOutputRecords,
};

/// `*=`.
pub const STAR_ASSIGN: Class = Class::Mark {
    mark: Mark::StarAssign,
};

/// `/=`.
pub const SLASH_ASSIGN: Class = Class::Mark {
    mark: Mark::SlashAssign,
};

/// `%=`.
pub const PERCENT_ASSIGN: Class = Class::Mark {
    mark: Mark::PercentAssign,
};

/// `+=`.
pub const PLUS_ASSIGN: Class = Class::Mark {
    mark: Mark::PlusAssign,
};

/// `-=`.
pub const MINUS_ASSIGN: Class = Class::Mark {
    mark: Mark::MinusAssign,
};

/// `<<=`.
pub const SHIFT_LEFT_ASSIGN: Class = Class::Mark {
    mark: Mark::ShiftLeftAssign,
};

/// `>>=`.
pub const SHIFT_RIGHT_ASSIGN: Class = Class::Mark {
    mark: Mark::ShiftRightAssign,
};

/// `&=`.
pub const AMPERSAND_ASSIGN: Class = Class::Mark {
    mark: Mark::AmpersandAssign,
};

/// `^=`.
pub const CARET_ASSIGN: Class = Class::Mark {
    mark: Mark::CaretAssign,
};

/// `|=`.
pub const BAR_ASSIGN: Class = Class::Mark {
    mark: Mark::BarAssign,
};

/// `++`.
pub const INCREMENT: Class = Class::Mark {
    mark: Mark::Increment,
};

/// `--`.
pub const DECREMENT: Class = Class::Mark {
    mark: Mark::Decrement,
};
