ghost use Rattle.std.specs.Prelude.{◌≡◌, true, List};
ghost use Rattle.wg_limits.specs.Vectors.{source_written};
ghost use Rattle.wg_spelled.specs.Numbers.{AllFit};
ghost use Rattle.wg_tokens.specs.declared.token.Token.{Token};
ghost use Rattle.wg_tree.specs.Depths.{Depth};
ghost use Rattle.wg_tree.specs.GrammarItem.{Spells};
ghost use Rattle.wg_tree.specs.declared.item.Source.{Source};

/// Where the numbers of tokens are below 2 ^ 64, the tree that they spell is written with vectors of 2 to 4 components and such numbers alone.
pub fn spelled_trees_are_written()
    ensures written { (cells : List (Token × Depth)) (tree : Source) → AllFit cells → Spells cells tree → source_written tree ≡ true }
{}
