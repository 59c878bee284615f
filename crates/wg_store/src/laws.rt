ghost use Rattle.wg_store.specs.Laws.{BeginningsAreSeen, BeginningsKeep, BeginningsKeepRoom, AllowedAreTold, BestsAreChosen, BirthsAddLives, ChoicesAreNext, ElseNothingIsChosen, EntriesAreChosen, LaunchesAreTold, OpeningsAreSeen, OpeningsKeep, OpeningsKeepCounts, OpeningsKeepLives, OpeningsKeepRoom, PlacedAreSeen, SettlingsAreSeen, SettlingsKeep, SettlingsKeepCounts, SettlingsLeaveLives, UnopenedWait};

use wg_keep::groups_are_counted;
use wg_standing::{
    beginnings_place, only_units_are_needed, openings_place, settlings_place, unopened_is_whole,
};

/// What launches out leave unopened of the live records is what of the records is not opened.
pub fn unopened_wait()
    ensures { UnopenedWait }
{}

/// A core whose records are in their places is what is seen of its records and its launches out.
pub fn placed_are_seen()
    ensures { PlacedAreSeen }
{}

/// Opening the next group of a launch's records leaves what is live.
pub fn openings_keep_lives()
    ensures { OpeningsKeepLives }
{}

/// It leaves how many groups of each record have not settled.
pub fn openings_keep_counts()
    ensures { OpeningsKeepCounts }
{}

/// Counting a launch's groups as settled, with its new words, leaves what the launch leaves of the live records.
pub fn settlings_leave_lives()
    ensures { SettlingsLeaveLives }
{}

/// After it the groups of each record that have not settled are counted again.
pub fn settlings_keep_counts()
    ensures { SettlingsKeepCounts }
{}

/// A record that comes to be is live with all its groups.
pub fn births_add_lives()
    ensures { BirthsAddLives }
{}

/// The launch of now of a launch out is told by the records with its numbers.
pub fn launches_are_told()
    ensures { LaunchesAreTold }
{}

/// The launch that takes from the front of the best unit's records is the one to open next.
pub fn bests_are_chosen()
    ensures { BestsAreChosen }
{
    groups_are_counted();
    only_units_are_needed();
}

/// Where no unit that waits in slots has room, it takes from the front of the entries, where their unit has.
pub fn entries_are_chosen()
    ensures { EntriesAreChosen }
{
    groups_are_counted();
    only_units_are_needed();
}

/// Where that has no room either, or nothing is left of the entries, there is none.
pub fn else_nothing_is_chosen()
    ensures { ElseNothingIsChosen }
{
    groups_are_counted();
}

/// Each record that the launch to open next takes has the launch's group next.
pub fn choices_are_next()
    ensures { ChoicesAreNext }
{
    groups_are_counted();
    unopened_is_whole();
}

/// What is seen of a keep that opens it is the core with one more launch out.
pub fn openings_are_seen()
    ensures { OpeningsAreSeen }
{
    groups_are_counted();
    unopened_is_whole();
    openings_place();
}

/// A keep that opens it is a keep.
pub fn openings_keep()
    ensures { OpeningsKeep }
{
    groups_are_counted();
    unopened_is_whole();
    openings_place();
}

/// A room that reserves for it is the room of that keep.
pub fn openings_keep_room()
    ensures { OpeningsKeepRoom }
{
    only_units_are_needed();
}

/// The launch of now of a launch that the bag allows is told by the records with its numbers.
pub fn allowed_are_told()
    ensures { AllowedAreTold }
{}

/// What is seen of a keep of which a launch settles is the core after the launch's step.
pub fn settlings_are_seen()
    ensures { SettlingsAreSeen }
{
    groups_are_counted();
    settlings_place();
}

/// A keep of which a launch settles is a keep.
pub fn settlings_keep()
    ensures { SettlingsKeep }
{
    groups_are_counted();
    settlings_place();
}

/// What is seen of a keep at the start of a script is the core there.
pub fn beginnings_are_seen()
    ensures { BeginningsAreSeen }
{
    beginnings_place();
}

/// It is a keep.
pub fn beginnings_keep()
    ensures { BeginningsKeep }
{
    groups_are_counted();
    beginnings_place();
}

/// An empty room of the plan's slots is its room.
pub fn beginnings_keep_room()
    ensures { BeginningsKeepRoom }
{
    beginnings_place();
}
