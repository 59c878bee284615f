ghost use Rattle.std.specs.Prelude.{◌≡◌, ◌≤◌, ℕ, true, List, Some, length};
ghost use Rattle.wg_limits.specs.Branches.{source_branches, text_branches};
ghost use Rattle.wg_limits.specs.Calls.{IsChain};
ghost use Rattle.wg_limits.specs.Levels.{source_depth, text_depth};
ghost use Rattle.wg_limits.specs.Vectors.{IsSmallText, source_written};
ghost use Rattle.wg_typing.specs.Typing.{typed};
ghost use Rattle.wg_typing.specs.TypingFunctionCall.{chain_limit};
ghost use Rattle.wg_tree.specs.declared.item.Source.{Source};
ghost use Rattle.wg_typed.specs.declared.typed.Typed.{Typed};

/// In the typed form of a text at most 16 functions stand in a chain of calls.
pub fn calls_are_few()
    ensures few { (tree : Source) (t : Typed) (chain : List ℕ) → typed tree ≡ Some t → IsChain t chain → length chain ≤ chain_limit }
{}

/// The typed form of a text nests no deeper than the text: neither its statements, nor the parts of its expressions that are evaluated only in some case.
pub fn nests_no_deeper()
    ensures statements { (tree : Source) (t : Typed) → typed tree ≡ Some t → text_depth t ≤ source_depth tree }
    ensures expressions { (tree : Source) (t : Typed) → typed tree ≡ Some t → text_branches t ≤ source_branches tree }
{}

/// Where each vector that is written in a text has 2 to 4 components that are not wide, and each number is below 2 ^ 64, all vectors
/// of its typed form have 2 to 4 components, and all words of its literals are below 2 ^ 32.
pub fn vectors_and_literals_are_small()
    ensures small { (tree : Source) (t : Typed) → source_written tree ≡ true → typed tree ≡ Some t → IsSmallText t }
{}
