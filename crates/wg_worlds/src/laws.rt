//! Laws of the worlds of launches.
ghost use Rattle.std.specs.Prelude.{◌≡◌, ◌<◌, ◌+◌, ◌^◌, ℕ, List, Option, Some, length, slice_get, slice_set};
ghost use Rattle.wg_machine.specs.declared.shape.Shape.{Shape as Graph};
ghost use Rattle.wg_machine.specs.declared.shape.Output.{Output as OutputOf};
ghost use Rattle.wg_machine.specs.declared.shape.Unit.{Unit as Node};
ghost use Rattle.wg_machine.specs.declared.launch.Launch.{Launch as Launched};
ghost use Rattle.wg_machine.specs.Buffers.{Buffers, lengths_of, with_word};
ghost use Rattle.wg_machine.specs.GoodShape.{IsGoodShape};
ghost use Rattle.wg_machine.specs.LaunchMeaning.{FitsShape, KeepsLaws};
ghost use Rattle.wg_state.specs.Launching.{record_words_of, world_before, outcome_with};
ghost use Rattle.wg_state.specs.Requests.{requested, closed};
ghost use Rattle.wg_state.specs.declared.world.Grant.{Grant as GrantOf};
ghost use Rattle.wg_state.specs.declared.world.Request.{Request as RequestOf};
ghost use Rattle.wg_state.specs.declared.world.World.{World as WorldOf};
ghost use Rattle.wg_worlds.specs.Lawful.{IsLawfulWorld, IsRewritten};

/// The world before a launch is lawful.
pub fn launches_begin_lawful()
    ensures { (shared : List (List ℕ)) (unit : Node) (launch : Launched) (buffers : Buffers)
        → IsLawfulWorld unit (lengths_of (record_words_of launch)) (lengths_of buffers) (world_before shared unit launch buffers) }
{}

/// A request leaves it so, whether it is granted or denied.
pub fn requests_stay_lawful()
    ensures { (unit : Node) (inputs buffers : List ℕ) (w : WorldOf) (r : RequestOf)
        → IsLawfulWorld unit inputs buffers w → IsLawfulWorld unit inputs buffers (requested unit.outputs r w) }
{}

/// A request makes one grant.
pub fn each_request_has_its_grant()
    ensures { (outputs : List OutputOf) (r : RequestOf) (w : WorldOf)
        → length (requested outputs r w).grants ≡ length w.grants + 1 }
{}

/// A closed handle leaves it so.
pub fn completions_stay_lawful()
    ensures { (unit : Node) (inputs buffers : List ℕ) (w : WorldOf) (at : Option ℕ)
        → IsLawfulWorld unit inputs buffers w → IsLawfulWorld unit inputs buffers (closed at w) }
{}

/// A write to new records leaves it so.
pub fn written_records_stay_lawful()
    ensures { (unit : Node) (inputs buffers : List ℕ) (w : WorldOf) (at : ℕ) (old new : GrantOf)
        → IsLawfulWorld unit inputs buffers w → slice_get w.grants at ≡ Some old → IsRewritten old new
        → IsLawfulWorld unit inputs buffers (record w { grants = slice_set w.grants at new }) }
{}

/// A write to input records leaves it so.
pub fn written_inputs_stay_lawful()
    ensures { (unit : Node) (inputs buffers : List ℕ) (w : WorldOf) (new : List (List ℕ))
        → IsLawfulWorld unit inputs buffers w → lengths_of new ≡ lengths_of w.inputs
        → IsLawfulWorld unit inputs buffers (record w { inputs = new }) }
{}

/// A write to the buffers leaves it so.
pub fn written_buffers_stay_lawful()
    ensures { (unit : Node) (inputs buffers : List ℕ) (w : WorldOf) (new : Buffers)
        → IsLawfulWorld unit inputs buffers w → lengths_of new ≡ lengths_of w.buffers
        → IsLawfulWorld unit inputs buffers (record w { buffers = new }) }
{}

/// A word that is set leaves lists of words as long as they were.
pub fn written_words_keep_lengths()
    ensures { (lists : List (List ℕ)) (list at value : ℕ) → lengths_of (with_word lists list at value) ≡ lengths_of lists }
{}

/// A launch that ends in a lawful world, after fewer requests than 32 bits tell, keeps to the laws of a launch.
pub fn lawful_worlds_keep_laws()
    ensures { (shape : Graph) (launch : Launched) (buffers : Buffers) (turns left : ℕ) (unit : Node) (w : WorldOf)
        → IsGoodShape shape → FitsShape shape launch → slice_get shape.units launch.unit ≡ Some unit
        → IsLawfulWorld unit (lengths_of (record_words_of launch)) (lengths_of buffers) w → length w.grants < 2 ^ 32
        → KeepsLaws shape launch buffers turns (outcome_with unit turns w left) }
{}
