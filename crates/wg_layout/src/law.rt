ghost use Rattle.std.specs.Prelude.{◌≡◌, ℕ, List, Some, slice_get};
ghost use Rattle.wg_typed.specs.declared.typed.TypedStruct.{TypedStruct};
ghost use Rattle.wg_typed.specs.Layout.{AreInOrder, extent_of, extents_of, field_types, fields_extent};
ghost use Rattle.wg_typed.specs.declared.types.TypeTree.TheVariants.{Struct};
ghost use Rattle.wg_layout.specs.FieldWords.{AreParts, HoldsFields};

/// A struct's value holds the words of its fields in their ranges, and zeros between them.
pub fn values_hold_their_fields()
    ensures holds { (structs : List TypedStruct) (number : ℕ) (s : TypedStruct) (parts : List (List ℕ))
        → AreInOrder structs → slice_get structs number ≡ Some s → AreParts structs s parts → HoldsFields structs number parts }
{}

/// What a struct takes is told by the types of its fields alone.
pub fn structs_take_what_their_fields_take()
    ensures takes { (structs : List TypedStruct) (number : ℕ) (s : TypedStruct)
        → AreInOrder structs → slice_get structs number ≡ Some s → extent_of structs (Struct number) ≡ fields_extent (extents_of structs) (field_types s) }
{}
