ghost use Rattle.std.specs.Prelude.{◌≡◌};
ghost use Rattle.std.specs.Option.{option_map};
ghost use Rattle.wg_text.specs.Cut.{cut as cut_of, separates};

/// What stands between the pieces of a text.
#[derive(Clone, Copy, Debug, PartialEq, Eq)]
pub enum Separator {
    Byte(u8),
    /// A space or a tab.
    Blank,
}

impl Separator {
    fn is(self, byte: u8) -> bool
        ensures { result ≡ separates self byte }
    {
        match self {
            Separator::Byte(separator) => byte == separator,
            Separator::Blank => byte == b' ' || byte == b'\t',
        }
    }
}

/// What stands before the first separator, and after it.
pub fn cut(text: &[u8], at: Separator) -> Option<(&[u8], &[u8])>
    ensures { option_map (λ r. (r.0.now, r.1.now)) result ≡ cut_of (separates at) text.now }
{
    for (end, byte) in text.iter().enumerate() {
        if at.is(*byte) {
            let (_, rest) = text.split_at(end + 1);
            return Some((&text[..end], rest));
        }
    }
    None
}
