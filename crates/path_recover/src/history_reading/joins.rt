ghost use Rattle.std.specs.Prelude.{◌≡◌, ◌⊎◌, ◌≤◌, ◌∷◌, ◌++◌, [], None, IfErr, IfOk, IsTrue, OnOk};
ghost use Rattle.std.specs.Prelude.{length};
ghost use Rattle.rail_types.specs.Limits.{IsEntryWithinLimits};
ghost use Rattle.occupation_book.specs.Held.{held};
ghost use Rattle.grant_log.specs.Changes.{IsChangeOf};
ghost use Rattle.grant_log.specs.Following.{AreLive};
ghost use Rattle.grant_log.specs.Legal.{IsInRange, Joins};
ghost use Rattle.grant_log.specs.Live.{claims_of as claims_of_deed};
ghost use Rattle.grant_log.specs.Verdict.{breaks};
ghost use Rattle.path_recover.specs.declared.journal_reading.faults.OpenFault.TheVariants.{
  Illegal,
  Memory,
};

use crate::journal_reading::{OpenFault, is_on};
use grant_log::copy_since::{Change, change_of, follow, reserve_change};
use grant_log::{History, Verdict, live_claims_follow, verdicts_say_what_they_mean};
use no_memory::NoMemory;
use occupation_book::Occupations;
use rail_types::{Claim, Deed, Entry};
use std::alloc::Global;

// The claims of an entry's deed, where its path breaks no rule.
fn claims_of(alloc: Global, history: &History, entry: &Entry) -> Result<Vec<Claim>, NoMemory>
    requires range { IsInRange history.now.timetable entry.now }
    ensures { IfOk result (λ claims. breaks history.now.timetable entry.now.deed ≡ None →
        claims.items ≡ claims_of_deed history.now.timetable entry.now.deed) }
{
    if history.breaks(&entry.deed).is_some() {
        return Ok(Vec::new(alloc));
    }
    history.claims_of(&entry.deed)
}

// Whether an entry with these claims joins a history, whose live claims the book holds.
fn joins(
    history: &History,
    book: &Occupations,
    entry: &Entry,
    claims: &[Claim],
) -> Result<bool, NoMemory>
    requires range { IsInRange history.now.timetable entry.now }
    requires claims { breaks history.now.timetable entry.now.deed ≡ None →
        claims.now ≡ claims_of_deed history.now.timetable entry.now.deed }
    requires zones { length book.now ≡ history.now.timetable.net.zones }
    requires live { AreLive history.now.timetable (held book.now) history.now.entries }
    ensures yes { IfOk result (λ yes. IsTrue yes →
        Joins history.now.timetable history.now.entries entry.now) }
    ensures stale { IfOk result (λ yes. Joins history.now.timetable history.now.entries entry.now →
        IsTrue yes) }
{
    let verdict = history.judge_by(book, entry, claims)?;
    Ok(matches!(verdict, Verdict::Fresh))
}

// Lets the live claims follow an entry that joins its history and makes this change.
fn follow_change(
    alloc: Global,
    history: &History,
    book: &mut Occupations,
    entry: &Entry,
    change: &Change,
) -> Result<(), NoMemory>
    requires joins { Joins history.now.timetable history.now.entries entry.now }
    requires change { IsChangeOf history.now.timetable history.now.entries entry.now.deed
        change.now }
    requires zones { length book.old ≡ history.now.timetable.net.zones }
    requires live { AreLive history.now.timetable (held book.old) history.now.entries }
    ensures zones { OnOk result (length book.new ≡ history.now.timetable.net.zones) }
    ensures live { OnOk result (AreLive history.now.timetable (held book.new)
        (history.now.entries ++ entry.now ∷ [])) }
{
    live_claims_follow();
    reserve_change(alloc, book, history, entry, change)?;
    follow(book, history, entry, change);
    Ok(())
}

// Lets the live claims follow an entry with these claims, which joins its history.
fn take(
    alloc: Global,
    history: &History,
    book: &mut Occupations,
    entry: &Entry,
    claims: &[Claim],
) -> Result<(), NoMemory>
    requires joins { Joins history.now.timetable history.now.entries entry.now }
    requires claims { breaks history.now.timetable entry.now.deed ≡ None →
        claims.now ≡ claims_of_deed history.now.timetable entry.now.deed }
    requires zones { length book.old ≡ history.now.timetable.net.zones }
    requires live { AreLive history.now.timetable (held book.old) history.now.entries }
    ensures zones { OnOk result (length book.new ≡ history.now.timetable.net.zones) }
    ensures live { OnOk result (AreLive history.now.timetable (held book.new)
        (history.now.entries ++ entry.now ∷ [])) }
{
    // What joins is fresh, and so breaks no rule.
    verdicts_say_what_they_mean();
    let change = change_of(alloc, history, entry, claims)?;
    follow_change(alloc, history, book, entry, &change)
}

// Lets the live claims follow an entry with these claims, where it joins its history. Answers
// whether it does.
fn take_fresh(
    alloc: Global,
    history: &History,
    book: &mut Occupations,
    entry: &Entry,
    claims: &[Claim],
) -> Result<bool, NoMemory>
    requires range { IsInRange history.now.timetable entry.now }
    requires claims { breaks history.now.timetable entry.now.deed ≡ None →
        claims.now ≡ claims_of_deed history.now.timetable entry.now.deed }
    requires zones { length book.old ≡ history.now.timetable.net.zones }
    requires live { AreLive history.now.timetable (held book.old) history.now.entries }
    ensures joined { IfOk result (λ yes. IsTrue yes →
        Joins history.now.timetable history.now.entries entry.now) }
    ensures zones { OnOk result (length book.new ≡ history.now.timetable.net.zones) }
    ensures live { IfOk result (λ yes. IsTrue yes → AreLive history.now.timetable (held book.new)
        (history.now.entries ++ entry.now ∷ [])) }
    ensures stale { IfOk result (λ yes. (¬ IsTrue yes) →
        ¬ Joins history.now.timetable history.now.entries entry.now) }
{
    if joins(history, book, entry, claims)? {
        take(alloc, history, book, entry, claims)?;
        Ok(true)
    } else {
        Ok(false)
    }
}

// The same of an entry whose claims have yet to be worked out.
fn take_on(
    alloc: Global,
    history: &History,
    book: &mut Occupations,
    entry: &Entry,
) -> Result<bool, NoMemory>
    requires range { IsInRange history.now.timetable entry.now }
    requires zones { length book.old ≡ history.now.timetable.net.zones }
    requires live { AreLive history.now.timetable (held book.old) history.now.entries }
    ensures joined { IfOk result (λ yes. IsTrue yes →
        Joins history.now.timetable history.now.entries entry.now) }
    ensures zones { OnOk result (length book.new ≡ history.now.timetable.net.zones) }
    ensures live { IfOk result (λ yes. IsTrue yes → AreLive history.now.timetable (held book.new)
        (history.now.entries ++ entry.now ∷ [])) }
    ensures stale { IfOk result (λ yes. (¬ IsTrue yes) →
        ¬ Joins history.now.timetable history.now.entries entry.now) }
{
    // The claims of a hold stand in its deed, so that none are worked out.
    if let Deed::Hold(claims, _) = &entry.deed {
        return take_fresh(alloc, history, book, entry, claims.as_slice());
    }
    let claims = claims_of(alloc, history, entry)?;
    take_fresh(alloc, history, book, entry, &claims)
}

// The same of an entry that need not be in range.
fn take_any(
    alloc: Global,
    history: &History,
    book: &mut Occupations,
    entry: &Entry,
) -> Result<bool, NoMemory>
    requires within { IsEntryWithinLimits entry.now }
    requires zones { length book.old ≡ history.now.timetable.net.zones }
    requires live { AreLive history.now.timetable (held book.old) history.now.entries }
    ensures joined { IfOk result (λ yes. IsTrue yes →
        Joins history.now.timetable history.now.entries entry.now) }
    ensures zones { OnOk result (length book.new ≡ history.now.timetable.net.zones) }
    ensures live { IfOk result (λ yes. IsTrue yes → AreLive history.now.timetable (held book.new)
        (history.now.entries ++ entry.now ∷ [])) }
    ensures stale { IfOk result (λ yes. (¬ IsTrue yes) →
        ¬ Joins history.now.timetable history.now.entries entry.now) }
{
    if is_on(history.net(), &entry.deed) {
        take_on(alloc, history, book, entry)
    } else {
        Ok(false)
    }
}

// Makes room for an entry behind its history, and lets the live claims follow, where it joins it.
// It is refused as the one at this position.
fn admit(
    alloc: Global,
    history: &mut History,
    book: &mut Occupations,
    entry: &Entry,
    position: u64,
) -> Result<(), OpenFault>
    requires within { IsEntryWithinLimits entry.now }
    requires zones { length book.old ≡ history.old.timetable.net.zones }
    requires live { AreLive history.old.timetable (held book.old) history.old.entries }
    ensures timetable { history.new.timetable ≡ history.old.timetable }
    ensures entries { history.new.entries ≡ history.old.entries }
    ensures room { OnOk result (1 ≤ history.new.spare) }
    ensures zones { OnOk result (length book.new ≡ history.old.timetable.net.zones) }
    ensures live { OnOk result (AreLive history.new.timetable (held book.new)
        (history.new.entries ++ entry.now ∷ [])) }
    ensures joins { OnOk result
        (Joins history.new.timetable history.new.entries entry.now) }
    ensures refused { IfErr result (λ fault. (fault ≡ Memory) ⊎ ((fault ≡ Illegal position)
        × (¬ Joins history.old.timetable history.old.entries entry.now))) }
{
    let Ok(()) = history.reserve() else {
        return Err(OpenFault::Memory);
    };
    match take_any(alloc, history, book, entry) {
        Ok(true) => Ok(()),
        Ok(false) => Err(OpenFault::Illegal { entry: position }),
        Err(NoMemory) => Err(OpenFault::Memory),
    }
}

// Puts an entry behind a history, where it joins it, and lets the live claims follow. It is
// refused as the one at this position.
pub(crate) fn join(
    alloc: Global,
    history: &mut History,
    book: &mut Occupations,
    entry: Entry,
    position: u64,
) -> Result<(), OpenFault>
    requires within { IsEntryWithinLimits entry }
    requires zones { length book.old ≡ history.old.timetable.net.zones }
    requires live { AreLive history.old.timetable (held book.old) history.old.entries }
    ensures timetable { history.new.timetable ≡ history.old.timetable }
    ensures zones { OnOk result (length book.new ≡ history.old.timetable.net.zones) }
    ensures live { OnOk result
        (AreLive history.new.timetable (held book.new) history.new.entries) }
    ensures joined { OnOk result (history.new.entries ≡ history.old.entries ++ entry ∷ []) }
    ensures refused { IfErr result (λ fault. (fault ≡ Memory) ⊎ ((fault ≡ Illegal position)
        × (¬ Joins history.old.timetable history.old.entries entry))) }
{
    admit(alloc, history, book, &entry, position)?;
    history.push(entry);
    Ok(())
}
