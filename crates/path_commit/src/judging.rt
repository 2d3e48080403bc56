//! What the history, with the claims that are held, says of a new entry.

ghost use Rattle.std.specs.Prelude.{◌≡◌, ◌≢◌, ◌↔◌, ◌<◌, All, IfErr, IfOk, IsTrue, None, OnOk};
ghost use Rattle.std.specs.Prelude.{length};
ghost use Rattle.rail_types.specs.Limits.{IsDeedWithinLimits};
ghost use Rattle.occupation_book.specs.Held.{held};
ghost use Rattle.grant_log.specs.declared.verdicts.Verdict.TheVariants.{Fresh};
ghost use Rattle.grant_log.specs.Following.{AreLive};
ghost use Rattle.grant_log.specs.Legal.{IsInRange};
ghost use Rattle.grant_log.specs.Live.{claims_of as claims_of_deed};
ghost use Rattle.grant_log.specs.Verdict.{breaks, verdict_on};
ghost use Rattle.path_commit.specs.Answers.{IsRefusal, IsTaken, IsTold};

use crate::answers::Committed;
use crate::clashes::last_clash;
use grant_log::{History, Verdict, claims_are_on_the_network, verdicts_say_what_they_mean};
use no_memory::NoMemory;
use occupation_book::Occupations;
use rail_types::{Claim, Entry};
use std::alloc::Global;

// Whether an entry is fresh that has these claims, or what it is told.
pub(crate) fn judge(
    alloc: Global,
    history: &History,
    book: &Occupations,
    entry: &Entry,
    claims: &[Claim],
    searched: u64,
) -> Result<(), Committed>
    requires range { IsInRange history.now.timetable entry.now }
    requires claims { breaks history.now.timetable entry.now.deed ≡ None →
        claims.now ≡ claims_of_deed history.now.timetable entry.now.deed }
    requires zones { length book.now ≡ history.now.timetable.net.zones }
    requires live { AreLive history.now.timetable (held book.now) history.now.entries }
    ensures fresh { OnOk result
        (verdict_on history.now.timetable history.now.entries entry.now ≡ Fresh) }
    ensures claims { OnOk result
        (claims.now ≡ claims_of_deed history.now.timetable entry.now.deed) }
    ensures told { IfErr result
        (IsTold history.now.timetable history.now.entries entry.now searched) }
    ensures refusal { IfErr result IsRefusal }
{
    verdicts_say_what_they_mean();
    match history.judge_by(book, entry, claims) {
        Ok(Verdict::Fresh) => Ok(()),
        Ok(verdict) => Err(refusal(alloc, history, entry, claims, verdict, searched)),
        Err(NoMemory) => Err(Committed::Memory),
    }
}

// The claims of an entry's deed, where its path breaks no rule.
pub(crate) fn claims_of(
    alloc: Global,
    history: &History,
    entry: &Entry,
) -> Result<Vec<Claim>, NoMemory>
    requires { IsInRange history.now.timetable entry.now }
    ensures { IfOk result (λ claims. breaks history.now.timetable entry.now.deed ≡ None →
        claims.items ≡ claims_of_deed history.now.timetable entry.now.deed) }
{
    if history.breaks(&entry.deed).is_some() {
        return Ok(Vec::new(alloc));
    }
    history.claims_of(&entry.deed)
}

// What an entry is told that is not fresh: where a claim is taken, the last entry from the
// searched front on that holds one.
fn refusal(
    alloc: Global,
    history: &History,
    entry: &Entry,
    claims: &[Claim],
    verdict: Verdict,
    searched: u64,
) -> Committed
    requires claims { breaks history.now.timetable entry.now.deed ≡ None →
        claims.now ≡ claims_of_deed history.now.timetable entry.now.deed }
    requires verdict { verdict ≡
        verdict_on history.now.timetable history.now.entries entry.now }
    requires stale { verdict ≢ Fresh }
    ensures told { IsTold history.now.timetable history.now.entries entry.now searched result }
    ensures refusal { IsRefusal result }
{
    verdicts_say_what_they_mean();
    if !is_taken(&verdict) {
        return Committed::Refused(verdict);
    }
    match last_clash(alloc, history, claims, searched) {
        Ok(Some(entry)) => Committed::Clash { entry },
        Ok(None) => Committed::Refused(verdict),
        Err(NoMemory) => Committed::Memory,
    }
}

fn is_taken(verdict: &Verdict) -> bool
    ensures { IsTrue result ↔ IsTaken verdict.now }
{
    matches!(verdict, Verdict::Taken(_, _))
}
