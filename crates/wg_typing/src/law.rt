ghost use Rattle.std.specs.Prelude.{◌≡◌, ◌++◌, ◌&&◌, ℕ, true, nat_le, drop, slice_get, List, Some, None, [], ◌∷◌, map};
ghost use Rattle.wg_typing.specs.TypingStep.{declares_handle, handle_there, is_handle};
ghost use Rattle.wg_typing.specs.declared.scope.Declared.{Declared};
ghost use Rattle.std.specs.List.{list_any};
ghost use Rattle.wg_typed.specs.Layout.{extents_of, field_types, fields_extent};
ghost use Rattle.wg_typed.specs.declared.typed.TypedStruct.{TypedStruct};
ghost use Rattle.wg_typed.specs.declared.typed_stmt.TypedAttribute.{TypedAttribute};
ghost use Rattle.wg_typing.specs.AttributeNames.{standing};
ghost use Rattle.wg_typing.specs.AttributeSites.{Position};
ghost use Rattle.wg_typing.specs.AttributeTwice.{clashes, clashes_among, small_name};
ghost use Rattle.wg_typing.specs.TypingStruct.{struct_size};
ghost use Rattle.wg_typed.specs.declared.typed.TypedFunction.{TypedFunction};
ghost use Rattle.wg_typing.specs.Marked.{IsMarked};
ghost use Rattle.wg_typing.specs.Passes.{counts_after, early_returns, lasts_of, open_returns, uncompleted_by};
ghost use Rattle.wg_typing.specs.RulesBadOutputCall.{returns_of_many, returns_of_one};
ghost use Rattle.wg_typing.specs.RulesNotCompleted.{uncompleted};
ghost use Rattle.wg_typing.specs.declared.event.Event.{Event};
ghost use Rattle.wg_typing.specs.Attributes.{AreRight, BreaksAttributes, attribute_number};
ghost use Rattle.wg_typing.specs.Faults.{Leads, attribute_faults, faults, first_attribute_fault, first_fault};
ghost use Rattle.wg_typing.specs.Sites.{In};
ghost use Rattle.wg_typing.specs.Typing.{Breaks, IsWellTyped, typed, typing_number};
ghost use Rattle.wg_words.specs.declared.place.Place.{Place};
ghost use Rattle.wg_tree.specs.declared.item.Source.{Source};
ghost use Rattle.wg_typed.specs.declared.typed.Typed.{Typed};
ghost use Rattle.wg_typing.specs.declared.fault.AttributeRule.{AttributeRule};
ghost use Rattle.wg_typing.specs.declared.fault.Fault.{Fault};
ghost use Rattle.wg_typing.specs.declared.fault.TypingRule.{TypingRule};

/// A text that breaks no typing rule has its typed form.
pub fn well_typed_has_its_form()
    ensures form { (tree : Source) → IsWellTyped tree → (t : Typed) × typed tree ≡ Some t }
{}

/// Each member of the list of faults is a broken rule.
pub fn faults_are_breaks()
    ensures breaks { (tree : Source) (f : Fault) → In (faults tree) f → (rule : TypingRule) × (typing_number rule ≡ f.rule) × Breaks rule f.place tree }
{}

/// Each broken rule is a member of the list of faults.
pub fn breaks_are_faults()
    ensures listed { (tree : Source) (rule : TypingRule) (p : Place) → Breaks rule p tree → In (faults tree) (record { rule = typing_number rule; place = p }) }
{}

/// A text without faults is well typed.
pub fn no_faults_no_breaks()
    ensures well_typed { (tree : Source) → faults tree ≡ [] → IsWellTyped tree }
{}

/// Each member of the list of faults of attributes is a broken rule.
pub fn attribute_faults_are_breaks()
    ensures breaks { (t : Typed) (f : Fault) → In (attribute_faults t) f → (rule : AttributeRule) × (attribute_number rule ≡ f.rule) × BreaksAttributes rule f.place t }
{}

/// Each broken rule of attributes is a member of the list of faults.
pub fn attribute_breaks_are_faults()
    ensures listed { (t : Typed) (rule : AttributeRule) (p : Place) → BreaksAttributes rule p t → In (attribute_faults t) (record { rule = attribute_number rule; place = p }) }
{}

/// The attributes of a text without such faults are right.
pub fn no_attribute_faults_no_breaks()
    ensures right { (t : Typed) → attribute_faults t ≡ [] → AreRight t }
{}

/// The fault of types that is answered is a broken rule, and each broken rule stands at a later place, or at that place and
/// has no lesser number. Where none is answered the text is well typed.
pub fn first_fault_is_least()
    ensures broken { (tree : Source) (f : Fault) → first_fault tree ≡ Some f → (rule : TypingRule) × (typing_number rule ≡ f.rule) × Breaks rule f.place tree }
    ensures least { (tree : Source) (f : Fault) → first_fault tree ≡ Some f → (rule : TypingRule) (p : Place) → Breaks rule p tree → Leads f (record { rule = typing_number rule; place = p }) }
    ensures none { (tree : Source) → first_fault tree ≡ None → IsWellTyped tree }
{}

/// The fault of attributes that is answered is a broken rule, and each broken rule stands at a later place, or at that place
/// and has no lesser number. Where none is answered the attributes are right.
pub fn first_attribute_fault_is_least()
    ensures broken { (t : Typed) (f : Fault) → first_attribute_fault t ≡ Some f → (rule : AttributeRule) × (attribute_number rule ≡ f.rule) × BreaksAttributes rule f.place t }
    ensures least { (t : Typed) (f : Fault) → first_attribute_fault t ≡ Some f → (rule : AttributeRule) (p : Place) → BreaksAttributes rule p t → Leads f (record { rule = attribute_number rule; place = p }) }
    ensures none { (t : Typed) → first_attribute_fault t ≡ None → AreRight t }
{}

/// One pass over what happens in a function, with numbers by handle, says which handles are not completed once, and which
/// words `return` stand where none may.
pub fn one_pass_says_the_rules()
    ensures completed { (events : List Event) → uncompleted_by (counts_after [] events) events ≡ uncompleted events events }
    ensures of_many { (events : List Event) → early_returns 0 (lasts_of events) events ≡ returns_of_many events }
    ensures of_one { (events : List Event) → open_returns 0 (lasts_of events) 0 events ≡ returns_of_one [] events }
{}

/// The variables of a typed function are marked by what happens in its body: a parameter that takes a system value is
/// uniform only where that is `SV_GroupID` and nothing changes the parameter.
pub fn marks_are_right()
    ensures marked { (tree : Source) (t : Typed) → typed tree ≡ Some t → (f : TypedFunction) → In t.functions f → IsMarked f }
{}

/// What a struct takes, from what the structs before it take, and whether an attribute stands twice, from what is kept of
/// those before it.
pub fn what_stood_before_says()
    ensures extents { (structs : List TypedStruct) (s : TypedStruct) → extents_of (structs ++ s ∷ []) ≡ extents_of structs ++ fields_extent (extents_of structs) (field_types s) ∷ [] }
    ensures size { (structs : List TypedStruct) (s : TypedStruct) → struct_size structs s ≡ (fields_extent (extents_of structs) (field_types s)).words }
    ensures twice { (position : Position) (a : TypedAttribute) (before : List TypedAttribute) → list_any (clashes position a) before ≡ clashes_among position (map small_name before) (map (standing position) before) a }
{}

/// Whether a handle is one of the own scope, from the one place at which it is declared.
pub fn own_handle_by_place()
    ensures own { (handle start at : ℕ) (names : List Declared) → ((n : ℕ) (d : Declared) → slice_get names n ≡ Some d → is_handle handle d.meant ≡ true → n ≡ at) → declares_handle handle (drop start names) ≡ (nat_le start at && handle_there handle (slice_get names at)) }
{}
