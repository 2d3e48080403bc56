//! A body passed over, for which no memory is taken: whether it is an entry's,
//! and where it is wrong if not.

ghost use Rattle.std.specs.Prelude.{◌≡◌};
ghost use Rattle.entry_codec.specs.Reading.{Passes, PassesAll, before_all, claims_field};
ghost use Rattle.entry_codec.specs.Reading.{reasoned_field, items_field, list_field, stop_field};
ghost use Rattle.entry_codec.specs.Reading.{run_field, asked_field, pinned_field, deed_field};
ghost use Rattle.entry_codec.specs.Reading.{entry_field, entry_at};

use crate::faults::Wrong;
use crate::finding::{
    find_claim, find_kind, find_limited, find_next_claim, find_number, find_owner, find_position,
    find_reason, find_run, find_stop, find_train, find_window,
};
use crate::kinds::Kind;
use byte_fields::Fields;
use rail_types::{Claim, MAX_HOLD_CLAIMS, MAX_PINNED_RUNS, MAX_STOPS, MAX_TICK, Span};

/// Ends before each claim that may be named.
pub(crate) fn before_all() -> Claim
    ensures { result ≡ before_all }
{
    let span = Span {
        from: -MAX_TICK - 1,
        to: -MAX_TICK - 1,
    };
    Claim { zone: 0, span }
}

fn pass_claims(fields: &mut Fields, count: u32) -> Result<(), Wrong>
    ensures { Passes fields.new result (claims_field count before_all fields.old) }
{
    let mut before = before_all();
    for _ in 0..count {
        before = find_next_claim(fields, &before)?;
    }
    Ok(())
}

fn pass_stop_items(fields: &mut Fields, count: u32) -> Result<(), Wrong>
    ensures { Passes fields.new result (items_field stop_field count fields.old) }
{
    for _ in 0..count {
        let _stop = find_stop(fields)?;
    }
    Ok(())
}

fn pass_run_items(fields: &mut Fields, count: u32) -> Result<(), Wrong>
    ensures { Passes fields.new result (items_field run_field count fields.old) }
{
    for _ in 0..count {
        let _run = find_run(fields)?;
    }
    Ok(())
}

#[tactic(auto, unfolding(crate::specs::Reading::list_field))]
fn pass_stops(fields: &mut Fields) -> Result<(), Wrong>
    ensures { Passes fields.new result (list_field 0 MAX_STOPS stop_field fields.old) }
{
    let count = find_limited(fields, 0, MAX_STOPS)?;
    pass_stop_items(fields, count)
}

#[tactic(auto, unfolding(crate::specs::Reading::list_field))]
fn pass_runs(fields: &mut Fields, most: u32) -> Result<(), Wrong>
    ensures { Passes fields.new result (list_field 1 most run_field fields.old) }
{
    let count = find_limited(fields, 1, most)?;
    pass_run_items(fields, count)
}

#[tactic(auto, unfolding(crate::specs::Reading::reasoned_field))]
fn pass_reasoned(fields: &mut Fields) -> Result<(), Wrong>
    ensures { Passes fields.new result (reasoned_field fields.old) }
{
    find_reason(fields)?;
    let count = find_limited(fields, 1, MAX_HOLD_CLAIMS)?;
    pass_claims(fields, count)
}

#[tactic(auto, unfolding(crate::specs::Reading::asked_field))]
fn pass_asked(fields: &mut Fields) -> Result<(), Wrong>
    ensures { Passes fields.new result (asked_field fields.old) }
{
    find_train(fields)?;
    find_number(fields)?;
    find_number(fields)?;
    find_window(fields)?;
    find_window(fields)?;
    pass_stops(fields)?;
    pass_runs(fields, u32::MAX)
}

#[tactic(auto, unfolding(crate::specs::Reading::pinned_field))]
fn pass_pinned(fields: &mut Fields) -> Result<(), Wrong>
    ensures { Passes fields.new result (pinned_field fields.old) }
{
    find_train(fields)?;
    pass_runs(fields, MAX_PINNED_RUNS)
}

#[tactic(auto, unfolding(crate::specs::Reading::deed_field))]
fn pass_deed(fields: &mut Fields, kind: Kind) -> Result<(), Wrong>
    ensures { Passes fields.new result (deed_field kind fields.old) }
{
    match kind {
        Kind::Hold => {
            find_claim(fields)?;
            Ok(())
        }
        Kind::Asked => pass_asked(fields),
        Kind::Pinned => pass_pinned(fields),
        Kind::Free => {
            find_position(fields)?;
            Ok(())
        }
        Kind::Reasoned => pass_reasoned(fields),
    }
}

#[tactic(auto, unfolding(crate::specs::Reading::entry_field))]
fn pass_entry(fields: &mut Fields) -> Result<(), Wrong>
    ensures { Passes fields.new result (entry_field fields.old) }
{
    let kind = find_kind(fields)?;
    find_position(fields)?;
    find_number(fields)?;
    find_owner(fields)?;
    pass_deed(fields, kind)
}

/// Nothing where the body is an entry's, else where the first wrong field begins.
#[tactic(auto, unfolding(crate::specs::Reading::entry_at))]
pub(crate) fn pass_all(body: &[u8]) -> Result<(), Wrong>
    ensures { PassesAll result (entry_at body.now) }
{
    let mut fields = Fields::new(body);
    pass_entry(&mut fields)?;
    fields.end()?;
    Ok(())
}
