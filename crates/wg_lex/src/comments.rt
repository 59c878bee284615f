//! Comments.
ghost use Rattle.std.specs.Prelude.{◌≡◌, ◌≤◌, false, length, IfSome};
ghost use Rattle.wg_lex.specs.Scanning.{comment_end};

/// How many bytes a comment has after its `/*`, with its `*/`; `None` where it has no `*/`.
pub fn comment_len(text: &[u8]) -> Option<usize>
    ensures end { result ≡ comment_end false text.now }
    ensures within { IfSome result (λ size. size ≤ length text.now) }
{
    let mut after_star = false;
    for (i, b) in text.iter().enumerate() {
        if after_star && *b == b'/' {
            return Some(i + 1);
        }
        after_star = *b == b'*';
    }
    None
}
