//! Laws of journals that are carried, each on a function that does nothing.

ghost use Rattle.std.specs.Prelude.{◌≡◌, ℕ, List, Some, slice_get};
ghost use Rattle.rail_types.specs.declared.entries.Entry.{Entry as entry_type};
ghost use Rattle.rail_types.specs.Timetables.{Timetable};
ghost use Rattle.path_recover.specs.history.declared.verdicts.Verdict.TheVariants.{Kept};
ghost use Rattle.path_recover.specs.history.Content.{HaveSameContent};
ghost use Rattle.path_recover.specs.history.Meanings.{IsNumbered};
ghost use Rattle.path_recover.specs.history.Verdict.{verdict_on};
ghost use Rattle.path_recover.specs.Files.{TellsHistory};
ghost use Rattle.carry_command.specs.Carried.{IsCarriedTo};
ghost use Rattle.carry_command.specs.Unfinished.{IsUnfinished};
ghost use Rattle.carry_command.specs.declared.carried_history.reasons.LeftOut.{
  LeftOut as left_type,
};

use path_recover::history::verdicts_say_what_they_mean;

/// Bytes that are told from a journal by their first byte, or are at most one, are no journal of
/// any version, of any files, and so are refused by opening.
pub fn unfinished_journals_are_refused()
    ensures refused { (timetable other : Timetable) (network base file : List ℕ)
        (entries : List entry_type) (version : ℕ) (other_network other_base image : List ℕ)
        (others : List entry_type) →
        TellsHistory timetable 2 network base file entries → IsUnfinished file image →
        TellsHistory other version other_network other_base image others → ⊥ }
{}

/// A line that is sent again, with the owner, the number and the content of an entry that was
/// carried, is told `Kept` at the place at which the entry was carried.
pub fn carried_entries_are_kept()
    ensures kept { (timetable : Timetable) (old : List entry_type) (front : ℕ)
        (entries : List entry_type) (kept : List ℕ) (left : List left_type) (place : ℕ)
        (entry again : entry_type) →
        IsCarriedTo timetable old front entries kept left →
        slice_get entries place ≡ Some entry →
        IsNumbered again.owner again.number entry → HaveSameContent entry.deed again.deed →
        verdict_on timetable entries again ≡ Kept place }
{
    verdicts_say_what_they_mean();
}
