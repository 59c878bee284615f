ghost use Rattle.std.specs.Prelude.{◌≡◌, ◌≢◌, ◌≤◌, ◌<◌, ◌*◌, ◌==◌, [], length, map, IsTrue, List, ℕ, count_by};
ghost use Rattle.wg_machine.specs.declared.shape.Shape.{Shape as Graph};
ghost use Rattle.wg_machine.specs.declared.shape.Unit.{Unit as Node};
ghost use Rattle.wg_machine.specs.declared.launch.Entry.{Entry as Line};
ghost use Rattle.wg_machine.specs.declared.launch.Launch.{Launch as Launched};
ghost use Rattle.wg_machine.specs.declared.launch.Live.{Live as Waiting};
ghost use Rattle.wg_machine.specs.declared.launch.Sent.{Sent as SentOf};
ghost use Rattle.wg_machine.specs.Additive.{AreWords, IsAdditive};
ghost use Rattle.wg_machine.specs.Buffers.{Buffers, lengths_of};
ghost use Rattle.wg_machine.specs.Bytes.{KeepsSlots, live_bytes, peak, plan_bytes};
ghost use Rattle.wg_machine.specs.Choice.{SomeHasRoom};
ghost use Rattle.wg_words.specs.Each.{Each};
ghost use Rattle.wg_words.specs.declared.limits.TheConstants.{GRID_BOUND, MOST_SENT, MOST_STRIDE, MOST_UNITS, MOST_UNIT_CHAIN};
ghost use Rattle.wg_machine.specs.Fitting.{IsFitting, BagFits, StateFits, IsLawful, SendsOne, OnlyThreads};
ghost use Rattle.wg_machine.specs.Grids.{groups_in, groups_of, has_group, place_of};
ghost use Rattle.wg_machine.specs.GoodShape.{IsGoodShape};
ghost use Rattle.wg_machine.specs.LaunchMeaning.{Meaning, Outcome, Arrives, FitsShape, KeepsBudgets, KeepsLaws};
ghost use Rattle.wg_machine.specs.Need.{need_of};
ghost use Rattle.wg_machine.specs.Run.{IsRun, IsComplete, EachOnce, EachState, NamesGroup, all_born, groups_at, times, uses};
ghost use Rattle.wg_machine.specs.State.{State, start};
ghost use Rattle.wg_machine.specs.Step.{Passed, Step, Allows, IsReady, launch_in, numbers_of, record_of, taken};
ghost use Rattle.wg_machine.specs.Totals.{EndsWithTotals};
ghost use Rattle.wg_machine.specs.Units.{depth_at, kind_at, most_inputs, stride_at};

/// A complete run takes each group of each record once.
pub fn each_once()
    ensures { (shape : Graph) (made : Meaning) (turns : ℕ) (script : List SentOf) (buffers : Buffers)
        (entries : List Line) (trail : List Passed) (final : State)
        → IsRun shape made turns (start shape script buffers) entries trail final → IsComplete final
        → EachOnce (all_born shape script trail) entries }
{}

/// A run, complete or not, takes no group of a record more often than its grid has it.
pub fn none_twice()
    ensures { (shape : Graph) (made : Meaning) (turns : ℕ) (script : List SentOf) (buffers : Buffers)
        (entries : List Line) (trail : List Passed) (final : State)
        → IsRun shape made turns (start shape script buffers) entries trail final
        → (r : ℕ) (at : List ℕ) → uses r at entries ≤ times at (groups_at (all_born shape script trail) r) }
{}

/// Each entry of a run names a group of the grid that its records had at their birth, by three numbers.
pub fn entries_name_groups()
    ensures { (shape : Graph) (made : Meaning) (turns : ℕ) (script : List SentOf) (buffers : Buffers)
        (entries : List Line) (trail : List Passed) (final : State)
        → IsRun shape made turns (start shape script buffers) entries trail final
        → Each (NamesGroup (all_born shape script trail)) entries }
{}

/// A launch that keeps the budgets of its unit sends no more to any unit than is needed of it.
pub fn needs_are_kept()
    ensures { (u : Node) (sent : List SentOf) (v : ℕ)
        → KeepsBudgets u sent → count_by (λ (s : SentOf). s.unit == v) sent ≤ need_of u v }
{}

/// Records that fit the slots of a plan take no more than its bytes.
pub fn slots_hold_bytes()
    ensures { (shape : Graph) (width entries : ℕ) (s : State)
        → KeepsSlots shape width entries s → live_bytes shape entries s ≤ plan_bytes shape width }
{}

/// A run whose every state keeps the slots of a plan has its peak within the plan's bytes.
pub fn peak_is_within_plan()
    ensures { (shape : Graph) (width entries : ℕ) (s : State) (trail : List Passed)
        → EachState (KeepsSlots shape width entries) s trail → peak shape entries s trail ≤ plan_bytes shape width }
{}

/// With nothing reserved and the slots of a plan kept, some unit with a live record has room: the deepest one.
pub fn something_has_room()
    ensures { (shape : Graph) (width entries : ℕ) (s : State)
        → IsGoodShape shape → 1 ≤ width → KeepsSlots shape width entries s → s.bag ≢ []
        → SomeHasRoom shape width entries s }
{}

/// A grid has no group twice.
pub fn no_group_twice()
    ensures { (grid at : List ℕ) → times at (groups_of grid) ≤ 1 }
{}

/// A group of a grid has its linear number below the number of the grid's groups.
pub fn groups_lie_in_grids()
    ensures { (grid at : List ℕ) → IsTrue (has_group (groups_of grid) at) → place_of grid at < groups_in grid }
{}

/// A group of a fitting record lies in the record's grid, which has fewer than 2^24 groups.
pub fn live_groups_lie_in_grids()
    ensures { (shape : Graph) (r : Waiting) (at : List ℕ)
        → IsGoodShape shape → IsFitting shape r → IsTrue (has_group r.groups at)
        → (place_of r.grid at < groups_in r.grid) × (groups_in r.grid < GRID_BOUND) }
{}

/// A good shape has at most 8,192 units: 256 nodes at 32 levels.
pub fn few_units()
    ensures { (shape : Graph) → IsGoodShape shape → length shape.units ≤ MOST_UNITS }
{}

/// A slot of a good shape has at most 8,192 bytes.
pub fn strides_are_small()
    ensures { (shape : Graph) (u : ℕ) → IsGoodShape shape → stride_at shape u ≤ MOST_STRIDE }
{}

/// A launch that keeps the laws sends at most 16,384 records: through 64 outputs, with budgets of at most 256.
pub fn few_are_sent()
    ensures { (shape : Graph) (launch : Launched) (buffers : Buffers) (turns : ℕ) (o : Outcome)
        → IsGoodShape shape → FitsShape shape launch → KeepsLaws shape launch buffers turns o → length o.sent ≤ MOST_SENT }
{}

/// An allowed launch is told by its unit, its group and its records' numbers: the bag has the rest.
pub fn allowed_is_launch_in()
    ensures { (shape : Graph) (bag : List Waiting) (launch : Launched) (at : List ℕ)
        → Allows shape bag launch at → launch ≡ launch_in shape bag launch.unit at (numbers_of launch.records) }
{}

/// Records of a fitting bag that have the unit and the group, as many as the unit lets a launch take and named in rising
/// order, are such a launch.
pub fn launch_in_is_allowed()
    ensures { (shape : Graph) (bag : List Waiting) (unit : ℕ) (at numbers : List ℕ)
        → BagFits shape bag → numbers_of (map record_of (taken numbers bag)) ≡ numbers
        → 1 ≤ length numbers → length numbers ≤ most_inputs (kind_at shape unit) → Each (IsReady unit at) (taken numbers bag)
        → Allows shape bag (launch_in shape bag unit at numbers) at }
{}

/// A launch that a bag of fitting records allows fits the shape.
pub fn allowed_launches_fit()
    ensures { (shape : Graph) (bag : List Waiting) (launch : Launched) (at : List ℕ)
        → IsGoodShape shape → BagFits shape bag → Allows shape bag launch at → FitsShape shape launch }
{}

/// A step of lawful bodies keeps a state fitting.
pub fn steps_fit()
    ensures { (shape : Graph) (made : Meaning) (turns : ℕ) (lengths : List ℕ) (s : State) (e : Line) (p : Passed)
        → IsGoodShape shape → IsLawful shape made → StateFits shape lengths s → Step shape made turns s e p
        → StateFits shape lengths p.after }
{}

/// Every state of a run of lawful bodies fits the shape and keeps the buffers' lengths.
pub fn runs_fit()
    ensures { (shape : Graph) (made : Meaning) (turns : ℕ) (script : List SentOf) (buffers : Buffers)
        (entries : List Line) (trail : List Passed) (final : State)
        → IsGoodShape shape → IsLawful shape made → Each (Arrives shape) script
        → IsRun shape made turns (start shape script buffers) entries trail final
        → EachState (StateFits shape (lengths_of buffers)) (start shape script buffers) trail }
{}

/// What a launch within its budgets sends goes to deeper units.
pub fn sent_goes_deeper()
    ensures { (shape : Graph) (launch : Launched) (buffers : Buffers) (turns : ℕ) (o : Outcome)
        → IsGoodShape shape → FitsShape shape launch → KeepsLaws shape launch buffers turns o
        → Each (λ (s : SentOf). depth_at shape launch.unit < depth_at shape s.unit) o.sent }
{}

/// Every complete run of additive bodies, whatever its order, ends with the script's buffers and the totals of the
/// entry records added.
pub fn runs_end_with_totals()
    ensures { (shape : Graph) (made : Meaning) (turns : ℕ) (script : List SentOf) (buffers : Buffers)
        (entries : List Line) (trail : List Passed) (final : State)
        → IsGoodShape shape → IsLawful shape made → IsAdditive shape made → Each (Arrives shape) script → AreWords buffers
        → IsRun shape made turns (start shape script buffers) entries trail final → IsComplete final
        → EndsWithTotals shape made turns script buffers final.buffers }
{}

/// Any two complete runs of additive bodies from one script end with the same buffers.
pub fn runs_end_alike()
    ensures { (shape : Graph) (made : Meaning) (turns : ℕ) (script : List SentOf) (buffers : Buffers)
        (entries others : List Line) (trail trail_of_others : List Passed) (final final_of_others : State)
        → IsGoodShape shape → IsLawful shape made → IsAdditive shape made → Each (Arrives shape) script → AreWords buffers
        → IsRun shape made turns (start shape script buffers) entries trail final → IsComplete final
        → IsRun shape made turns (start shape script buffers) others trail_of_others final_of_others → IsComplete final_of_others
        → final.buffers ≡ final_of_others.buffers }
{}

/// Where each node is a thread node that sends at most one record, a run has at most 32 launches for each entry record.
pub fn chains_are_short()
    ensures { (shape : Graph) (made : Meaning) (turns : ℕ) (script : List SentOf) (buffers : Buffers)
        (entries : List Line) (trail : List Passed) (final : State)
        → IsGoodShape shape → IsLawful shape made → OnlyThreads shape → SendsOne shape made → Each (Arrives shape) script
        → IsRun shape made turns (start shape script buffers) entries trail final
        → length entries ≤ MOST_UNIT_CHAIN * length script }
{}
