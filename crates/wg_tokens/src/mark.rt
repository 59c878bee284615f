/// Punctuation.
#[derive(Clone, Copy, Debug, PartialEq, Eq)]
pub enum Mark {
    /// `{`.
    LeftBrace,
    /// `}`.
    RightBrace,
    /// `(`.
    LeftParen,
    /// `)`.
    RightParen,
    /// `[`.
    LeftBracket,
    /// `]`.
    RightBracket,
    /// `<`.
    Less,
    /// `>`.
    Greater,
    /// `;`.
    Semicolon,
    /// `,`.
    Comma,
    /// `.`.
    Dot,
    /// `:`.
    Colon,
    /// `?`.
    Question,
    /// `=`.
    Assign,
    /// `+`.
    Plus,
    /// `-`.
    Minus,
    /// `*`.
    Star,
    /// `/`.
    Slash,
    /// `%`.
    Percent,
    /// `&`.
    Ampersand,
    /// `|`.
    Bar,
    /// `^`.
    Caret,
    /// `!`.
    Not,
    /// `~`.
    Tilde,
    /// `<=`.
    AtMost,
    /// `>=`.
    AtLeast,
    /// `==`.
    Equal,
    /// `!=`.
    NotEqual,
    /// `+=`.
    PlusAssign,
    /// `-=`.
    MinusAssign,
    /// `*=`.
    StarAssign,
    /// `/=`.
    SlashAssign,
    /// `%=`.
    PercentAssign,
    /// `&=`.
    AmpersandAssign,
    /// `|=`.
    BarAssign,
    /// `^=`.
    CaretAssign,
    /// `<<`.
    ShiftLeft,
    /// `>>`.
    ShiftRight,
    /// `&&`.
    And,
    /// `||`.
    Or,
    /// `++`.
    Increment,
    /// `--`.
    Decrement,
    /// `<<=`.
    ShiftLeftAssign,
    /// `>>=`.
    ShiftRightAssign,
}

/// The marks of the language as they are written.
pub const MARKS: [(&[u8], Mark); 44] = [
    (b"{", Mark::LeftBrace),
    (b"}", Mark::RightBrace),
    (b"(", Mark::LeftParen),
    (b")", Mark::RightParen),
    (b"[", Mark::LeftBracket),
    (b"]", Mark::RightBracket),
    (b"<", Mark::Less),
    (b">", Mark::Greater),
    (b";", Mark::Semicolon),
    (b",", Mark::Comma),
    (b".", Mark::Dot),
    (b":", Mark::Colon),
    (b"?", Mark::Question),
    (b"=", Mark::Assign),
    (b"+", Mark::Plus),
    (b"-", Mark::Minus),
    (b"*", Mark::Star),
    (b"/", Mark::Slash),
    (b"%", Mark::Percent),
    (b"&", Mark::Ampersand),
    (b"|", Mark::Bar),
    (b"^", Mark::Caret),
    (b"!", Mark::Not),
    (b"~", Mark::Tilde),
    (b"<=", Mark::AtMost),
    (b">=", Mark::AtLeast),
    (b"==", Mark::Equal),
    (b"!=", Mark::NotEqual),
    (b"+=", Mark::PlusAssign),
    (b"-=", Mark::MinusAssign),
    (b"*=", Mark::StarAssign),
    (b"/=", Mark::SlashAssign),
    (b"%=", Mark::PercentAssign),
    (b"&=", Mark::AmpersandAssign),
    (b"|=", Mark::BarAssign),
    (b"^=", Mark::CaretAssign),
    (b"<<", Mark::ShiftLeft),
    (b">>", Mark::ShiftRight),
    (b"&&", Mark::And),
    (b"||", Mark::Or),
    (b"++", Mark::Increment),
    (b"--", Mark::Decrement),
    (b"<<=", Mark::ShiftLeftAssign),
    (b">>=", Mark::ShiftRightAssign),
];
