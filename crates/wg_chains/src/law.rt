ghost use Rattle.std.specs.Prelude.{◌≡◌, ◌≤◌, ◌+◌, ◌-◌, ℕ, List, slice_get, Some};
ghost use Rattle.wg_chains.specs.Arrived.{AreReached};
ghost use Rattle.wg_node_attributes.specs.declared.attributes.NodeAttrs.{NodeAttrs};
ghost use Rattle.wg_shapes.specs.Chain.{IsLongest};
ghost use Rattle.wg_shapes.specs.ChainTooLong.{EndsLongChain};
ghost use Rattle.wg_shapes.specs.Level.{Sends, top_level};
ghost use Rattle.wg_words.specs.declared.limits.TheConstants.{MOST_UNIT_CHAIN};

/// Where no chain is too long, each level below a node's first unit is one deeper than the level above it.
pub fn lower_levels_are_deeper()
    ensures deeper { (nodes : List NodeAttrs) (depths : List ℕ) (n d level : ℕ)
        → AreReached nodes MOST_UNIT_CHAIN depths → ((m : ℕ) → EndsLongChain nodes m → ⊥) → slice_get depths n ≡ Some d → level ≤ top_level nodes n
        → IsLongest (Sends nodes) (d + (top_level nodes n - level)) (n, level) }
{}
