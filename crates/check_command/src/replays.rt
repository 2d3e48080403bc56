//! A history that is gone through, forward and back, with a book of the claims
//! that are live where it stands.

ghost use Rattle.std.specs.Prelude.{◌≡◌, ◌≤◌, length, IfOk, OnOk};
ghost use Rattle.path_recover.specs.history.Legal.{IsLegal};
ghost use Rattle.check_command.specs.Replays.{IsUp, all_of, entries_of};

use no_memory::NoMemory;
use path_recover::claims::Occupations;
use path_recover::history::History;
use path_recover::history::copy_since::{bring_up, copy_of};
use rail_types::Entry;
use std::alloc::Global;

/// A history that stands at its first entries; those behind them, the last first; and a book of the
/// claims that are live at the first ones.
#[derive(Drop)]
pub(crate) struct Replay {
    pub(crate) history: History,
    pub(crate) ahead: Vec<Entry>,
    pub(crate) book: Occupations,
}

// Takes entries out until there are so many.
#[tactic(auto, using(crate::proofs::Replaying::moved))]
fn take_back(history: &mut History, ahead: &mut Vec<Entry>, front: u64) -> Result<(), NoMemory>
    ensures timetable { history.new.timetable ≡ history.old.timetable }
    ensures all { OnOk result
        (all_of history.new ahead.new.items ≡ all_of history.old ahead.old.items) }
    ensures front { OnOk result (front ≤ length history.old.entries
        → length history.new.entries ≡ front) }
{
    while history.front() > front {
        let Some(entry) = history.pop() else {
            unreachable!()
        };
        ahead.push(entry)?;
    }
    Ok(())
}

// Puts entries back until there are so many.
#[tactic(auto, using(crate::proofs::Replaying::moved))]
fn go_on(history: &mut History, ahead: &mut Vec<Entry>, front: u64) -> Result<(), NoMemory>
    requires legal { IsLegal history.old.timetable (all_of history.old ahead.old.items) }
    requires within { front ≤ length (all_of history.old ahead.old.items) }
    ensures timetable { history.new.timetable ≡ history.old.timetable }
    ensures all { OnOk result
        (all_of history.new ahead.new.items ≡ all_of history.old ahead.old.items) }
    ensures front { OnOk result (length history.old.entries ≤ front
        → length history.new.entries ≡ front) }
{
    while history.front() < front {
        let Some(entry) = ahead.pop() else {
            unreachable!()
        };
        history.reserve()?;
        history.push(entry);
    }
    Ok(())
}

/// A replay that stands before the first entry. Its work goes by the number of entries, which are
/// moved, and by the claims of the base timetable.
pub(crate) fn begin(alloc: Global, history: History) -> Result<Replay, NoMemory>
    ensures timetable { IfOk result (λ replay. replay.history.timetable ≡ history.timetable) }
    ensures all { IfOk result (λ replay. entries_of replay ≡ history.entries) }
    ensures up { IfOk result IsUp }
{
    let mut history = history;
    let mut ahead = Vec::new(alloc);
    take_back(&mut history, &mut ahead, 0)?;
    let book = copy_of(alloc, &history)?;
    Ok(Replay {
        history,
        ahead,
        book,
    })
}

// Goes back to so many entries, and makes the book anew.
fn go_back(alloc: Global, replay: &mut Replay, front: u64) -> Result<(), NoMemory>
    requires within { front ≤ length replay.old.history.entries }
    ensures timetable { replay.new.history.timetable ≡ replay.old.history.timetable }
    ensures all { OnOk result (entries_of replay.new ≡ entries_of replay.old) }
    ensures front { OnOk result (length replay.new.history.entries ≡ front) }
    ensures up { OnOk result (IsUp replay.new) }
{
    take_back(&mut replay.history, &mut replay.ahead, front)?;
    replay.book = copy_of(alloc, &replay.history)?;
    Ok(())
}

// Goes on to so many entries, and brings the book up by those that come.
fn go_ahead(alloc: Global, replay: &mut Replay, front: u64) -> Result<(), NoMemory>
    requires legal { IsLegal replay.old.history.timetable (entries_of replay.old) }
    requires within { front ≤ length (entries_of replay.old) }
    requires behind { length replay.old.history.entries ≤ front }
    requires up { IsUp replay.old }
    ensures timetable { replay.new.history.timetable ≡ replay.old.history.timetable }
    ensures all { OnOk result (entries_of replay.new ≡ entries_of replay.old) }
    ensures front { OnOk result (length replay.new.history.entries ≡ front) }
    ensures up { OnOk result (IsUp replay.new) }
{
    let stood = replay.history.front();
    go_on(&mut replay.history, &mut replay.ahead, front)?;
    bring_up(alloc, &replay.history, stood, &mut replay.book)?;
    Ok(())
}

/// Makes a replay stand at so many entries. Its work goes by the entries between where
/// it stood and where it stands then; and where it goes back, by all entries before,
/// since the book is made anew.
pub(crate) fn go_to(alloc: Global, replay: &mut Replay, front: u64) -> Result<(), NoMemory>
    requires legal { IsLegal replay.old.history.timetable (entries_of replay.old) }
    requires within { front ≤ length (entries_of replay.old) }
    requires up { IsUp replay.old }
    ensures timetable { replay.new.history.timetable ≡ replay.old.history.timetable }
    ensures all { OnOk result (entries_of replay.new ≡ entries_of replay.old) }
    ensures front { OnOk result (length replay.new.history.entries ≡ front) }
    ensures up { OnOk result (IsUp replay.new) }
{
    if front < replay.history.front() {
        go_back(alloc, replay, front)
    } else {
        go_ahead(alloc, replay, front)
    }
}
