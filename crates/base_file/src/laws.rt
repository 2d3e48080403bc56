//! Laws of overlaps and of bases, each on a function that does nothing.

ghost use Rattle.base_file.specs.Laws.{BasesMakeTimetables, FirstOverlapsAreOne};

/// One overlap at most is the first of a list of claims, and a base that was read has none.
pub fn first_overlaps_are_one()
    ensures { FirstOverlapsAreOne }
{}

/// A base that was read on the zones of a network without flaws makes a timetable with it:
/// a history can begin on both.
pub fn bases_make_timetables()
    ensures { BasesMakeTimetables }
{}
