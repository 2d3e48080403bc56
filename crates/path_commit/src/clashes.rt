//! The last entry that stands in the way of new claims.

ghost use Rattle.std.specs.Prelude.{◌↔◌, Any, IfOk, IsTrue};
ghost use Rattle.rail_types.specs.Occupation.{Clash};
ghost use Rattle.grant_log.specs.Live.{live_claims};
ghost use Rattle.path_commit.specs.Clashes.{EntryClashes, EntryClashesFrom, IsGreatest};

use grant_log::copy_since::claims_at;
use grant_log::{History, live_claims_are_unfreed};
use no_memory::NoMemory;
use rail_types::Claim;
use std::alloc::Global;

// The last entry from a position on that holds a live claim which clashes with one of these. It
// looks at the entries from there on alone.
pub(crate) fn last_clash(
    alloc: Global,
    history: &History,
    claims: &[Claim],
    from: u64,
) -> Result<Option<u64>, NoMemory>
    ensures { IfOk result (IsGreatest (EntryClashesFrom
        (live_claims history.now.timetable history.now.entries) claims.now from)) }
{
    live_claims_are_unfreed();
    let mut last = None;
    for at in from..history.front() {
        if entry_clashes(alloc, history, claims, at)? {
            last = Some(at);
        }
    }
    Ok(last)
}

// Whether the entry at a position holds a live claim that clashes with one of these.
fn entry_clashes(
    alloc: Global,
    history: &History,
    claims: &[Claim],
    at: u64,
) -> Result<bool, NoMemory>
    ensures { IfOk result (λ answer. IsTrue answer ↔ EntryClashes
        (live_claims history.now.timetable history.now.entries) claims.now at) }
{
    live_claims_are_unfreed();
    if history.freed_by(at).is_some() {
        return Ok(false);
    }
    let own = claims_at(alloc, history, at)?;
    let answer = any_clashes(&own, claims);
    Ok(answer)
}

fn any_clashes(own: &[Claim], claims: &[Claim]) -> bool
    ensures { IsTrue result ↔ Any (λ mine. Any (λ claim. Clash mine claim) claims.now) own.now }
{
    own.iter().any(|mine| clashes_with(mine, claims))
}

fn clashes_with(mine: &Claim, claims: &[Claim]) -> bool
    ensures { IsTrue result ↔ Any (λ claim. Clash mine.now claim) claims.now }
{
    claims.iter().any(|claim| mine.clashes(claim))
}
