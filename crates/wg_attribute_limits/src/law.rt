ghost use Rattle.std.specs.Prelude.{◌≡◌, true, Some};
ghost use Rattle.wg_attribute_limits.specs.Beside.{KeepsBeside};
ghost use Rattle.wg_attribute_limits.specs.ItemNames.{names_are_spelled};
ghost use Rattle.wg_limits.specs.Vectors.{IsSmallText, source_written};
ghost use Rattle.wg_node_attributes.specs.Nodes.{nodes_said};
ghost use Rattle.wg_node_reading.specs.Sized.{AreSized};
ghost use Rattle.wg_shapes.specs.Limits.{AreGoodAttrs};
ghost use Rattle.wg_sound.specs.Sound.{IsSound};
ghost use Rattle.wg_tree.specs.declared.item.Source.{Source};
ghost use Rattle.wg_typed.specs.declared.typed.Typed.{Typed};
ghost use Rattle.wg_typing.specs.Attributes.{AreRight};
ghost use Rattle.wg_typing.specs.Typing.{IsWellTyped, typed};

use wg_limits::vectors_and_literals_are_small;
use wg_sound::{fields_lie_within, typed_is_sound};

/// What the attributes of a sound text say keeps the limits that a good shape needs, where they break no rule.
pub fn right_attributes_are_good()
    ensures good { (t : Typed) → IsSound t → IsSmallText t → KeepsBeside t → AreRight t → AreGoodAttrs t (nodes_said t) }
{
    fields_lie_within();
}

/// A text that breaks no typing rule keeps to the rest of what that asks for, where its names are spelled as names.
pub fn well_typed_keeps_the_rest()
    ensures keeps { (tree : Source) (t : Typed) → names_are_spelled tree ≡ true → IsWellTyped tree → typed tree ≡ Some t → KeepsBeside t }
{}

/// So what right attributes of a text that breaks no typing rule say keeps the limits.
pub fn well_typed_attributes_are_good()
    ensures good { (tree : Source) (t : Typed) → source_written tree ≡ true → names_are_spelled tree ≡ true → IsWellTyped tree → typed tree ≡ Some t → AreRight t → AreGoodAttrs t (nodes_said t) }
{
    typed_is_sound();
    vectors_and_literals_are_small();
    right_attributes_are_good();
    well_typed_keeps_the_rest();
}

/// The structs of a sound text are such as reading its attributes asks for.
pub fn sound_texts_are_sized()
    ensures sized { (t : Typed) → IsSound t → AreSized t.structs }
{}
