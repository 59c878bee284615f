//! The classes of tokens by names.
use wg_tokens::{Class, Keyword, Mark};

/// A name.
pub const NAME: Class = Class::Name;

/// A number of value 0.
pub const ZERO: Class = Class::Zero;

/// A number of another value.
pub const NUMBER: Class = Class::Number;

/// A string.
pub const TEXT: Class = Class::Text;

/// What stands after the last token.
pub const END: Class = Class::End;

// Marks.

/// `(`.
pub const LEFT_PAREN: Class = Class::Mark {
    mark: Mark::LeftParen,
};

/// `)`.
pub const RIGHT_PAREN: Class = Class::Mark {
    mark: Mark::RightParen,
};

/// `[`.
pub const LEFT_BRACKET: Class = Class::Mark {
    mark: Mark::LeftBracket,
};

/// `]`.
pub const RIGHT_BRACKET: Class = Class::Mark {
    mark: Mark::RightBracket,
};

/// `{`.
pub const LEFT_BRACE: Class = Class::Mark {
    mark: Mark::LeftBrace,
};

/// `}`.
pub const RIGHT_BRACE: Class = Class::Mark {
    mark: Mark::RightBrace,
};

/// `,`.
pub const COMMA: Class = Class::Mark { mark: Mark::Comma };

/// `.`.
pub const DOT: Class = Class::Mark { mark: Mark::Dot };

/// `;`.
pub const SEMICOLON: Class = Class::Mark {
    mark: Mark::Semicolon,
};

/// `:`.
pub const COLON: Class = Class::Mark { mark: Mark::Colon };

/// `?`.
pub const QUESTION: Class = Class::Mark {
    mark: Mark::Question,
};

/// `=`.
pub const ASSIGN: Class = Class::Mark { mark: Mark::Assign };

/// `+`.
pub const PLUS: Class = Class::Mark { mark: Mark::Plus };

/// `-`.
pub const MINUS: Class = Class::Mark { mark: Mark::Minus };

/// `!`.
pub const NOT: Class = Class::Mark { mark: Mark::Not };

/// `~`.
pub const TILDE: Class = Class::Mark { mark: Mark::Tilde };

/// `*`.
pub const STAR: Class = Class::Mark { mark: Mark::Star };

/// `/`.
pub const SLASH: Class = Class::Mark { mark: Mark::Slash };

/// `%`.
pub const PERCENT: Class = Class::Mark {
    mark: Mark::Percent,
};

/// `&`.
pub const AMPERSAND: Class = Class::Mark {
    mark: Mark::Ampersand,
};

/// `^`.
pub const CARET: Class = Class::Mark { mark: Mark::Caret };

/// `|`.
pub const BAR: Class = Class::Mark { mark: Mark::Bar };

/// `<`.
pub const LESS: Class = Class::Mark { mark: Mark::Less };

/// `>`.
pub const GREATER: Class = Class::Mark {
    mark: Mark::Greater,
};

/// `<=`.
pub const AT_MOST: Class = Class::Mark { mark: Mark::AtMost };

/// `>=`.
pub const AT_LEAST: Class = Class::Mark {
    mark: Mark::AtLeast,
};

/// `==`.
pub const EQUAL: Class = Class::Mark { mark: Mark::Equal };

/// `!=`.
pub const NOT_EQUAL: Class = Class::Mark {
    mark: Mark::NotEqual,
};

/// `<<`.
pub const SHIFT_LEFT: Class = Class::Mark {
    mark: Mark::ShiftLeft,
};

/// `>>`.
pub const SHIFT_RIGHT: Class = Class::Mark {
    mark: Mark::ShiftRight,
};

/// `&&`.
pub const AND: Class = Class::Mark { mark: Mark::And };

/// `||`.
pub const OR: Class = Class::Mark { mark: Mark::Or };

// Words of the language that stand in sets.

/// `true`.
pub const TRUE: Class = Class::Word {
    keyword: Keyword::True,
};

/// `false`.
pub const FALSE: Class = Class::Word {
    keyword: Keyword::False,
};

/// `bool`.
pub const BOOL: Class = Class::Word {
    keyword: Keyword::Bool,
};

/// `bool2`.
pub const BOOL2: Class = Class::Word {
    keyword: Keyword::Bool2,
};

/// `bool3`.
pub const BOOL3: Class = Class::Word {
    keyword: Keyword::Bool3,
};

/// `bool4`.
pub const BOOL4: Class = Class::Word {
    keyword: Keyword::Bool4,
};

/// `int`.
pub const INT: Class = Class::Word {
    keyword: Keyword::Int,
};

/// `int2`.
pub const INT2: Class = Class::Word {
    keyword: Keyword::Int2,
};

/// `int3`.
pub const INT3: Class = Class::Word {
    keyword: Keyword::Int3,
};

/// `int4`.
pub const INT4: Class = Class::Word {
    keyword: Keyword::Int4,
};

/// `uint`.
pub const UINT: Class = Class::Word {
    keyword: Keyword::Uint,
};

/// `uint2`.
pub const UINT2: Class = Class::Word {
    keyword: Keyword::Uint2,
};

/// `uint3`.
pub const UINT3: Class = Class::Word {
    keyword: Keyword::Uint3,
};

/// `uint4`.
pub const UINT4: Class = Class::Word {
    keyword: Keyword::Uint4,
};

/// `int16_t`.
pub const INT16: Class = Class::Word {
    keyword: Keyword::Int16,
};

/// `uint16_t`.
pub const UINT16: Class = Class::Word {
    keyword: Keyword::Uint16,
};

/// `int64_t`.
pub const INT64: Class = Class::Word {
    keyword: Keyword::Int64,
};

/// `uint64_t`.
pub const UINT64: Class = Class::Word {
    keyword: Keyword::Uint64,
};
