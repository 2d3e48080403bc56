//! Laws of files, on a function that does nothing.

ghost use Rattle.std.specs.Prelude.{◌≡◌, ◌+◌, ◌++◌, ◌<◌, ◌^◌, ℕ, List, drop, length};
ghost use Rattle.rail_types.specs.declared.entries.Entry.{Entry as entry_type};
ghost use Rattle.rail_types.specs.Timetables.{Timetable};
ghost use Rattle.path_recover.specs.declared.journal_reading.faults.OpenFault.{
  OpenFault as open_fault,
};
ghost use Rattle.path_recover.specs.Failing.{IsUnread};
ghost use Rattle.path_recover.specs.Files.{IsFound, IsRefused, TellsHistory};
ghost use Rattle.path_recover.specs.Pieces.{IsFrontOf};
ghost use Rattle.path_recover.specs.Served.{IsSeen, IsSeenWhole, IsServed, ToldOnce};

use byte_fields::one_form;
use entry_codec::one_entry;

/// What is found in a file is the history that it tells. A file tells one history at most; and one
/// that tells a history is refused for want of memory or for a fault of the disk alone.
pub fn one_reading()
    ensures found { (timetable : Timetable) (version : ℕ) (network base file : List ℕ)
        (entries : List entry_type) (gate : ℕ) →
        IsFound timetable version network base file entries gate →
        TellsHistory timetable version network base file entries }
    ensures once { (timetable : Timetable) (version : ℕ) (network base file : List ℕ)
        (a b : List entry_type) →
        TellsHistory timetable version network base file a →
        TellsHistory timetable version network base file b → a ≡ b }
    ensures whole { (timetable : Timetable) (version : ℕ) (network base file : List ℕ)
        (entries : List entry_type) (fault : open_fault) →
        version < 2 ^ 32 → length network ≡ 32 → length base ≡ 32 →
        TellsHistory timetable version network base file entries →
        IsRefused timetable version network base file fault → IsUnread fault }
{
    one_form();
    one_entry();
}

/// The file of a journal that a server writes to, read beside it. A piece that was read at one
/// moment is seen then, and pieces that are read one behind the other are seen together. What is
/// seen of the whole file tells the history of one moment of the reading; so it is refused for want
/// of memory or for a fault of the disk alone.
pub fn readers_see_one_moment()
    ensures piece { (file : ℕ → List ℕ) (at moment : ℕ) (piece : List ℕ) →
        IsFrontOf piece (drop at (file moment)) → IsSeen file at moment moment piece }
    ensures pieces { (file : ℕ → List ℕ) (at from between to : ℕ) (front piece : List ℕ) →
        IsSeen file at from between front →
        IsSeen file (at + length front) between to piece →
        IsSeen file at from to (front ++ piece) }
    ensures once { (timetable : Timetable) (version : ℕ) (network base : List ℕ) (from to : ℕ)
        (file : ℕ → List ℕ) (entries : ℕ → List entry_type) (seen : List ℕ) →
        IsServed timetable version network base from to file entries →
        IsSeenWhole file from to seen →
        ToldOnce timetable version network base from to entries seen }
    ensures whole { (timetable : Timetable) (version : ℕ) (network base : List ℕ) (from to : ℕ)
        (file : ℕ → List ℕ) (entries : ℕ → List entry_type) (seen : List ℕ)
        (fault : open_fault) →
        version < 2 ^ 32 → length network ≡ 32 → length base ≡ 32 →
        IsServed timetable version network base from to file entries →
        IsSeenWhole file from to seen →
        IsRefused timetable version network base seen fault → IsUnread fault }
{
    one_reading();
}
