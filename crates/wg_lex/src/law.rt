//! What a text that is cut can break.
ghost use Rattle.std.specs.Prelude.{ℕ, List};
ghost use Rattle.wg_tokens.specs.Cut.{Cuts};
ghost use Rattle.wg_tokens.specs.LexicalRules.{Keeps, not_ascii, preprocessor, stray_byte};
ghost use Rattle.wg_tokens.specs.declared.token.Token.{Token};

/// A text that is cut into tokens has no byte of 128 or more outside comments, no `#` that begins its line, and no stray byte.
pub fn what_cut_texts_keep()
    ensures ascii { (text : List ℕ) (tokens : List Token) → Cuts text tokens → Keeps text not_ascii }
    ensures hash { (text : List ℕ) (tokens : List Token) → Cuts text tokens → Keeps text preprocessor }
    ensures stray { (text : List ℕ) (tokens : List Token) → Cuts text tokens → Keeps text stray_byte }
{}
