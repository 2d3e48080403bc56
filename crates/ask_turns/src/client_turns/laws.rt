//! Laws of what entries are told, each on a function that does nothing.
ghost use Rattle.std.specs.Prelude.{ℕ, List, length};
ghost use Rattle.rail_types.specs.declared.entries.Entry.{Entry as entry_type};
ghost use Rattle.rail_types.specs.declared.paths.Claim.{Claim as claim_type};
ghost use Rattle.rail_types.specs.Timetables.{Timetable};
ghost use Rattle.path_commit.specs.history.Live.{live_claims};
ghost use Rattle.path_commit.specs.history.Verdict.{verdict_on};
ghost use Rattle.path_commit.specs.Clashes.{IsLastClash};
ghost use Rattle.ask_turns.specs.Told.{Stands};

use path_commit::history::{live_claims_are_unfreed, verdicts_say_what_they_mean};

// Where an entry is kept, one stands at the position that is told.
pub(crate) fn kept_entries_stand()
    ensures { (timetable : Timetable) (entries : List entry_type) (entry : entry_type)
        → Stands entries (verdict_on timetable entries entry) }
{
    verdicts_say_what_they_mean();
}

// No entry stands from the front on, so none there clashes with anything.
pub(crate) fn none_clashes_behind()
    ensures { (timetable : Timetable) (entries : List entry_type) (claims : List claim_type)
        (at : ℕ)
        → ¬ IsLastClash (live_claims timetable entries) claims (length entries) at }
{
    live_claims_are_unfreed();
}
