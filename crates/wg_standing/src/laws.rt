ghost use Rattle.wg_standing.specs.Laws.{BeginningsPlace, BeginningsStand, BytesAreOfSlots, ChoicesCanOpen, CompleteIsIdle, IdleIsComplete, KeepingsPlace, KeepingsStand, LaunchesLeaveEachList, LiveBytesFitPlan, NeverBlocked, OnlyUnitsAreNeeded, OpeningsLeave, OpeningsPlace, OpeningsStand, OutsFit, PeaksFitPlan, RecordsHaveOnePlace, SettlingsFree, SettlingsLeave, SettlingsPlace, SettlingsStand, StoppingsStand, TakenStay, UnopenedIsWhole, UnsharedStay};

use wg_machine::{needs_are_kept, peak_is_within_plan, slots_hold_bytes};

/// A core at the start of a script has each entry record in its place.
pub fn beginnings_place()
    ensures { BeginningsPlace }
{}

/// It stands for its script, whatever the bodies mean.
pub fn beginnings_stand()
    ensures { BeginningsStand }
{}

/// The launch that is chosen is allowed beside those out, has the next ticket, and its unit has room.
pub fn choices_can_open()
    ensures { ChoicesCanOpen }
{}

/// Opening the chosen launch leaves each record of the bag in one place.
pub fn openings_place()
    ensures { OpeningsPlace }
{}

/// A core that opens the chosen launch stands for what it stood for.
pub fn openings_stand()
    ensures { OpeningsStand }
{}

/// Settling any launch out by what it made leaves each record of the bag after it in one place.
pub fn settlings_place()
    ensures { SettlingsPlace }
{
    needs_are_kept();
}

/// A core that settles any launch out by what it made stands for the same run with one step more.
pub fn settlings_stand()
    ensures { SettlingsStand }
{
    needs_are_kept();
}

/// A core that is stopped by a launch that is spent stands for what it stood for.
pub fn stoppings_stand()
    ensures { StoppingsStand }
{}

/// Each launch out fits the shape.
pub fn outs_fit()
    ensures { OutsFit }
{}

/// With no launch out and a bag that is not empty, a unit that waits has room, or else the next entry's has.
pub fn never_blocked()
    ensures { NeverBlocked }
{}

/// The run of a core where nothing waits and nothing is out is complete.
pub fn idle_is_complete()
    ensures { IdleIsComplete }
{}

/// Where the run is complete nothing waits and nothing is out.
pub fn complete_is_idle()
    ensures { CompleteIsIdle }
{}

/// The live bytes of a bag are those of the slots in use.
pub fn bytes_are_of_slots()
    ensures { BytesAreOfSlots }
{}

/// The peak of a run is within the bytes of the plan.
pub fn peaks_fit_plan()
    ensures { PeaksFitPlan }
{
    peak_is_within_plan();
}

/// At every prefix of a run the live bytes are within the bytes of the plan.
pub fn live_bytes_fit_plan()
    ensures { LiveBytesFitPlan }
{
    slots_hold_bytes();
}

/// Waiting, held, left and taken records are the bag, each once.
pub fn records_have_one_place()
    ensures { RecordsHaveOnePlace }
{}

/// A guess that is counted as kept moves no record.
pub fn keepings_place()
    ensures { KeepingsPlace }
{}

/// A core whose last settling kept a guess stands for what it stood for.
pub fn keepings_stand()
    ensures { KeepingsStand }
{}

/// What is unopened rises by number, and each of its records is whole.
pub fn unopened_is_whole()
    ensures { UnopenedIsWhole }
{}

/// What is unopened after one launch more is what this launch leaves of it.
pub fn openings_leave()
    ensures { OpeningsLeave }
{}

/// A settling adds to what is unopened what its launch sent, and changes nothing else.
pub fn settlings_leave()
    ensures { SettlingsLeave }
{}

/// A launch takes its group from some of the records, chosen by unit and number, as from all.
pub fn launches_leave_each_list()
    ensures { LaunchesLeaveEachList }
{}

/// The slots that a settling frees are in use.
pub fn settlings_free()
    ensures { SettlingsFree }
{}

/// A record in a slot of which a launch settled is in the bag exactly where it waits or a launch of it is out.
pub fn taken_stay()
    ensures { TakenStay }
{}

/// Nothing is needed of what is no unit.
pub fn only_units_are_needed()
    ensures { OnlyUnitsAreNeeded }
{}

/// In a graph that shares no records the launches of now of those that stay out are what they were.
pub fn unshared_stay()
    ensures { UnsharedStay }
{}
