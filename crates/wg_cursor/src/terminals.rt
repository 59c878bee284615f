//! The classes of tokens.
ghost use Rattle.std.specs.Prelude.{◌≡◌, map, IfOk};
ghost use Rattle.wg_tokens.specs.Classes as spec;
ghost use Rattle.wg_tree.specs.GrammarExpr.{at_class};

use std::alloc::{AllocError, Global};
use wg_tokens::{Class, Token, TokenKind, keyword_of};

/// Which terminal a token is.
pub fn class(token: &Token) -> Class
    ensures { result ≡ spec.class_of token.now.kind }
{
    match &token.kind {
        TokenKind::Plain { name } => match keyword_of(name.as_slice()) {
            Some(keyword) => Class::Word { keyword },
            None => Class::Name,
        },
        TokenKind::Number { value, .. } => {
            if *value == 0 {
                Class::Zero
            } else {
                Class::Number
            }
        }
        TokenKind::Text { .. } => Class::Text,
        TokenKind::Mark { mark } => Class::Mark { mark: *mark },
        TokenKind::End => Class::End,
    }
}

/// What a table has for a class, and `other` where it has none.
pub fn at_class<T: Copy>(table: &[(Class, T)], other: T, class: Class) -> T
    ensures { result ≡ at_class (map (λ entry. (spec.number entry.0, entry.1)) table.now) other (spec.number class) }
{
    match table {
        [] => other,
        [(key, value), ..] if class.number() == key.number() => *value,
        [_, rest @ ..] => at_class(rest, other, class),
    }
}

/// The classes of tokens, in order.
pub fn classes(alloc: Global, tokens: &[Token]) -> Result<Vec<Class>, AllocError>
    ensures { IfOk result (λ classes. classes.items ≡ map (λ token. spec.class_of token.kind) tokens.now) }
{
    let mut classes = Vec::with_capacity(alloc, tokens.len())?;
    for token in tokens {
        classes.push(class(token))?;
    }
    Ok(classes)
}
