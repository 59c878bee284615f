//! Tokens of HLSL node shaders, and what it is to cut a text into them.
#![tactic(auto)]

mod class;
mod keyword;
mod mark;
mod token;

pub use class::Class;
pub use keyword::{KEYWORDS, Keyword, keyword_of};
pub use mark::{MARKS, Mark};
pub use token::{Token, TokenKind, Tokens};
