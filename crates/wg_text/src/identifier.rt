ghost use Rattle.std.specs.Prelude.{◌≡◌};
ghost use Rattle.std.specs.List.{list_all};
ghost use Rattle.wg_words.specs.Characters.{is_letter as is_letter_byte, is_word as is_word_byte, is_identifier as is_name};

fn is_letter(byte: u8) -> bool
    ensures { result ≡ is_letter_byte byte }
{
    byte.is_ascii_alphabetic() || byte == b'_'
}

fn continues_name(bytes: &[u8]) -> bool
    ensures { result ≡ list_all is_word_byte bytes.now }
{
    bytes
        .iter()
        .all(|byte| is_letter(*byte) || byte.is_ascii_digit())
}

/// Whether bytes are a name: a letter or `_`, then letters, digits and `_`.
pub fn is_identifier(bytes: &[u8]) -> bool
    ensures { result ≡ is_name bytes.now }
{
    let Some((first, rest)) = bytes.split_first() else {
        return false;
    };
    is_letter(*first) && continues_name(rest)
}
