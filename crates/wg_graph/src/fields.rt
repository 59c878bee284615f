//! The fields of a unit that are numbers and marks.
ghost use Rattle.std.specs.Prelude.{◌≡◌, ◌≤◌, ◌<◌, length, slice_get, unwrap_or};
ghost use Rattle.std.specs.Option.{option_copied};
ghost use Rattle.wg_chains.specs.Rows.{AreLinks};
ghost use Rattle.wg_graph.specs.Ground.{IsKnown};
ghost use Rattle.wg_layout.specs.Sizes.{table_of};
ghost use Rattle.wg_machine.specs.Units.{stride_of};
ghost use Rattle.wg_node_attributes.specs.declared.attributes.NodeAttrs.{NodeAttrs as Node};
ghost use Rattle.wg_shapes.specs.Chain.{IsLongest};
ghost use Rattle.wg_shapes.specs.Level.{Sends, top_level};
ghost use Rattle.wg_shapes.specs.Records as r;
ghost use Rattle.wg_shapes.specs.ShapeOf as s;
ghost use Rattle.wg_words.specs.declared.limits.TheConstants.{MOST_RECORD_WORDS};

use crate::known::Known;
use sqlite_items::Items as List;
use wg_chains::{Rows, leads, lower_levels_are_deeper};
use wg_graph_rules::input_of;
use wg_layout::Sizes;
use wg_node_attributes::NodeAttrs;
use wg_tree::ObjectWord;
use wg_typed::{TypeTree, Typed, TypedParameter, TypedParameterType, TypedStruct};
use wg_words::Words;

/// The words of a record.
pub fn words_of(structs: &List<TypedStruct>, sizes: &Sizes, held: Option<u32>) -> u32
    requires table { sizes.now ≡ table_of structs.now }
    requires few { r.record_words structs.now held ≤ MOST_RECORD_WORDS }
    ensures { result ≡ r.record_words structs.now held }
{
    match held {
        None => 0,
        Some(number) => sizes.words(&TypeTree::Struct { number }),
    }
}

/// The bytes of a slot.
pub fn stride(words: u32) -> u32
    requires few { words ≤ MOST_RECORD_WORDS }
    ensures { result ≡ stride_of words }
{
    (4 * words).max(4)
}

fn is_shared_word(word: ObjectWord) -> bool
    ensures { result ≡ r.is_shared_word word }
{
    matches!(word, ObjectWord::RwDispatchNodeInputRecord)
}

fn is_shared_type(of: TypedParameterType) -> bool
    ensures { result ≡ r.is_shared_type of }
{
    match of {
        TypedParameterType::Value { .. } => false,
        TypedParameterType::Object { word, .. } => is_shared_word(word),
    }
}

fn is_shared_in(input: Option<&TypedParameter>) -> bool
    ensures { result ≡ r.is_shared_in (option_copied input.entry) }
{
    match input {
        Some(p) => is_shared_type(p.of),
        None => false,
    }
}

/// Whether the groups of a record of the node's input share its words.
pub fn shares_input(typed: &Typed, a: &NodeAttrs) -> bool
    ensures { result ≡ r.shares_input typed.now a.now }
{
    is_shared_in(input_of(typed, a))
}

/// Whether another node targets this one.
fn is_targeted(nodes: &[NodeAttrs], rows: &Rows, n: usize) -> bool
    requires links { AreLinks nodes.now rows.now }
    ensures { result ≡ s.is_targeted nodes.now n }
{
    for m in 0..nodes.len() {
        if (m != n) & leads(rows, m, n) {
            return true;
        }
    }
    false
}

/// A number of a list, 0 past its end.
pub fn at(numbers: &Words, n: usize) -> u32
    ensures { result ≡ unwrap_or (slice_get numbers.now n) 0 }
{
    match numbers.get(n) {
        Some(number) => *number,
        None => 0,
    }
}

/// Whether records of a script arrive at a level of a node.
pub fn is_entry(
    typed: &Typed,
    nodes: &[NodeAttrs],
    known: &Known,
    n: usize,
    level: u32,
    a: &NodeAttrs,
) -> bool
    requires known { IsKnown typed.now nodes.now known.now }
    requires within { n < length nodes.now }
    ensures { result ≡ s.is_entry nodes.now n level a.now }
{
    (level == at(&known.levels.tops, n)) & (a.marked | !is_targeted(nodes, &known.graph.rows, n))
}

/// The depth of the unit of a node at a level.
pub fn depth(typed: &Typed, nodes: &[NodeAttrs], known: &Known, n: usize, level: u32) -> u32
    requires known { IsKnown typed.now nodes.now known.now }
    requires within { n < length nodes.now }
    requires level { level ≤ top_level nodes.now n }
    ensures { IsLongest (Sends nodes.now) result (n, level) }
{
    lower_levels_are_deeper();
    at(&known.graph.depths, n) + (at(&known.levels.tops, n) - level)
}
