ghost use Rattle.std.specs.Prelude.{◌≡◌, ◌≤◌, ◌+◌, ℕ, List, [], Some, None, true, false, length, map, take, nat_lt, slice_get, sum_by};
ghost use Rattle.wg_sound.specs.Earlier.{IsFirst, total_after};
ghost use Rattle.wg_sound.specs.Room.{Room, outputs_of};
ghost use Rattle.wg_sound.specs.Sound.{IsSound, IsSoundFunction};
ghost use Rattle.wg_sound.specs.SoundExpr.{shown};
ghost use Rattle.wg_sound.specs.SoundForms.{field_of};
ghost use Rattle.wg_sound.specs.StandingTypes.{fits_word, stands_in};
ghost use Rattle.wg_facts.specs.Tests.{every};
ghost use Rattle.wg_typing.specs.Layers.{tree_of};
ghost use Rattle.wg_typing.specs.Typing.{IsWellTyped, typed};
ghost use Rattle.std.specs.Str.{bytes_eq};
ghost use Rattle.wg_typing.specs.Named.{is_among};
ghost use Rattle.wg_typing.specs.TypingBuffer.{buffer_limit};
ghost use Rattle.wg_typing.specs.TypingForms.{field_from};
ghost use Rattle.wg_typing.specs.TypingText.{items_after, no_text};
ghost use Rattle.wg_tree.specs.declared.item.Item.{Item};
ghost use Rattle.wg_typed.specs.declared.typed.TypedField.{TypedField};
ghost use Rattle.wg_typing.specs.TypingParameter.{output_limit};
ghost use Rattle.wg_typing.specs.TypingShared.{shared_limit, shared_words};
ghost use Rattle.wg_typed.specs.Layout.{AreInOrder, field_range, words_of};
ghost use Rattle.wg_typed.specs.Operators.{scalar_of};
ghost use Rattle.wg_words.specs.declared.place.Place.{Place};
ghost use Rattle.wg_tree.specs.declared.item.Source.{Source};
ghost use Rattle.wg_typed.specs.declared.typed.Typed.{Typed};
ghost use Rattle.wg_typed.specs.declared.typed.TypedFunction.{TypedFunction};
ghost use Rattle.wg_typed.specs.declared.typed.TypedShared.{TypedShared};
ghost use Rattle.wg_typed.specs.declared.typed.TypedStruct.{TypedStruct};
ghost use Rattle.wg_typed.specs.declared.typed_expr.TypedExpr.{TypedExpr};
ghost use Rattle.wg_typed.specs.declared.typed_expr.TypedKind.TheVariants.{Literal};
ghost use Rattle.wg_typed.specs.declared.types.TypeTree.{TypeTree};

/// The typed form of a text that breaks no rule is sound.
pub fn typed_is_sound()
    ensures form { (tree : Source) (t : Typed) → IsWellTyped tree → typed tree ≡ Some t → IsSound t }
{}

/// In a function of a sound text the type of each sound expression stands in the text.
pub fn types_stand()
    ensures types { (room : Room) → IsSound room.text → IsSoundFunction room.text room.number room.function
        → (e : TypedExpr) → (shown room e).sound ≡ true → stands_in room.text.structs (shown room e).of ≡ true }
{}

/// The range of a field lies in its struct, and has the words of the field's type.
pub fn fields_lie_within()
    ensures words { (structs : List TypedStruct) (t u : TypeTree) (field : ℕ) → AreInOrder structs → field_of structs t field ≡ Some u
        → (field_range structs t field).from + words_of structs u ≡ (field_range structs t field).to }
    ensures within { (structs : List TypedStruct) (t u : TypeTree) (field : ℕ) → AreInOrder structs → field_of structs t field ≡ Some u
        → (field_range structs t field).to ≤ words_of structs t }
{}

/// A text that breaks no rule has at most 64 buffers.
pub fn buffers_are_few()
    ensures few { (tree : Source) (t : Typed) → IsWellTyped tree → typed tree ≡ Some t → length t.buffers ≤ buffer_limit }
{}

/// The groupshared variables of a text that breaks no rule have at most 8,192 words together.
pub fn shared_words_are_few()
    ensures few { (tree : Source) (t : Typed) → IsWellTyped tree → typed tree ≡ Some t
        → sum_by (λ (s : TypedShared). words_of t.structs s.of) t.shared ≤ shared_limit }
{}

/// A function of a text that breaks no rule has at most 64 outputs.
pub fn outputs_are_few()
    ensures few { (tree : Source) (t : Typed) (number : ℕ) (f : TypedFunction) → IsWellTyped tree → typed tree ≡ Some t
        → slice_get t.functions number ≡ Some f → length (outputs_of f.parameters) ≤ output_limit }
{}

/// A sound literal has as many words as its type, and each is such as the words of its type's scalar are.
pub fn literals_fit()
    ensures count { (room : Room) (place : Place) (t : TypeTree) (words : List ℕ) → (shown room (tree_of place t (Literal words))).sound ≡ true → length words ≡ words_of [] t }
    ensures words { (room : Room) (place : Place) (t : TypeTree) (words : List ℕ) → (shown room (tree_of place t (Literal words))).sound ≡ true → every (fits_word (scalar_of t)) words ≡ true }
{}

/// The words of all groupshared variables so far, from a number to which each declaration adds its own.
pub fn shared_words_by_total()
    ensures total { (before : List Item) → shared_words (items_after no_text before).structs (items_after no_text before).shared ≡ total_after 0 no_text before }
{}

/// A field by its name, and whether its name stood before, from the first place of each name.
pub fn fields_by_first_place()
    ensures found { (name : List ℕ) (fields : List TypedField) (place : ℕ) (f : TypedField) → IsFirst (map (λ (f : TypedField). f.name.name) fields) name place
        → slice_get fields place ≡ Some f → field_from 0 name fields ≡ Some (record { number = place; of = f.of }) }
    ensures absent { (name : List ℕ) (fields : List TypedField)
        → ((n : ℕ) (other : List ℕ) → slice_get (map (λ (f : TypedField). f.name.name) fields) n ≡ Some other → bytes_eq other name ≡ false) → field_from 0 name fields ≡ None }
    ensures before { (names : List (List ℕ)) (name : List ℕ) (place at : ℕ) → IsFirst names name place → is_among (take at names) name ≡ nat_lt place at }
{}
