ghost use Rattle.std.specs.Prelude.{◌≡◌, ℕ, List, [], ◌∷◌};
ghost use Rattle.wg_tokens.specs.declared.token.Token.{Token};
ghost use Rattle.wg_tree.specs.declared.item.Source.{Source};
ghost use Rattle.wg_tree.specs.Depths.{Depth};
ghost use Rattle.wg_tree.specs.GrammarItem.{Spells};
ghost use Rattle.wg_tree.specs.ReadsItem.{read_text};
ghost use Rattle.wg_tree.specs.ParseFaults.{SpelledWithin, IsExpected, IsTooDeep, Answer, IsAnswer};
ghost use Rattle.wg_grammar.specs.Reading.{Got, Wrong, Deep};
ghost use Rattle.wg_grammar.specs.Depths.{plain};

/// No list of tokens spells two trees, whatever the depths of its tokens.
pub fn spells_one_tree()
    ensures { (a b : List (Token × Depth)) → (x y : Source) → plain a ≡ plain b → Spells a x → Spells b y → x ≡ y }
{}

/// A text is read to its end, as a tree, just where its tokens spell that tree within the nesting.
pub fn reads_what_is_spelled()
    ensures only { (room : ℕ) (tokens : List Token) (tree : Source) → read_text room tokens ≡ Got tree [] → SpelledWithin room tokens tree }
    ensures each { (room : ℕ) (tokens : List Token) (tree : Source) → SpelledWithin room tokens tree → read_text room tokens ≡ Got tree [] }
{}

/// Where reading ends before the text does, the text fails: a token or the end cannot follow, or a token is too deep.
pub fn reads_to_the_fault()
    ensures left { (room : ℕ) (tokens : List Token) (tree : Source) (t : Token) (later : List Token) → read_text room tokens ≡ Got tree (t ∷ later) → IsExpected room tokens (t ∷ later) }
    ensures wrong { (room : ℕ) (tokens rest : List Token) → read_text room tokens ≡ Wrong rest → IsExpected room tokens rest }
    ensures deep { (room : ℕ) (tokens rest : List Token) → read_text room tokens ≡ Deep rest → IsTooDeep room tokens rest }
{}

/// Each list of tokens has an answer and not two: two trees, a tree and a fault, two faults, or one fault at two places.
pub fn one_answer()
    ensures some { (room : ℕ) (tokens : List Token) → (a : Answer) × IsAnswer room tokens a }
    ensures one { (room : ℕ) (tokens : List Token) (a b : Answer) → IsAnswer room tokens a → IsAnswer room tokens b → a ≡ b }
{}
