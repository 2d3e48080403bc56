//! The fields that lines have in common, one by one and in groups.

ghost use Rattle.std.specs.Prelude.{◌≡◌};
ghost use Rattle.client_lines.specs.Lines.{end_before, least_zone, a_flag, a_point, a_position};
ghost use Rattle.client_lines.specs.Lines.{a_reason, a_train, a_window};
ghost use Rattle.client_lines.specs.Reading.{Gives, read};

use crate::cuts::Fields;
use crate::faults::LineFault;
use crate::groups::Group;
use crate::known::Known;
use rail_types::{
    Claim, MAX_DWELL, MAX_NUMBER, MAX_REASON_BYTES, Name, Run, Span, Stop, Tick, Train, Window,
};
use std::alloc::Global;

pub(crate) fn read_position(fields: &mut Fields<'_>) -> Result<u64, LineFault>
    ensures { Gives fields.new result (read a_position fields.old) }
{
    fields.number(0, MAX_NUMBER + 1)
}

fn read_flag(fields: &mut Fields<'_>) -> Result<bool, LineFault>
    ensures { Gives fields.new result (read a_flag fields.old) }
{
    let flag = fields.number(0, 2)?;
    Ok(flag == 1)
}

#[tactic(auto, using(crate::proofs::Passed::passed), unfolding(crate::specs::Lines::a_window))]
pub(crate) fn read_window(fields: &mut Fields<'_>) -> Result<Window, LineFault>
    ensures { Gives fields.new result (read a_window fields.old) }
{
    let from = fields.tick(&None)?;
    let to = fields.tick(&None)?;
    Ok(Window { from, to })
}

pub(crate) fn read_train(
    alloc: Global,
    fields: &mut Fields<'_>,
    known: &Known,
) -> Result<Train, LineFault>
    ensures { Gives fields.new result (read (a_train known.now) fields.old) }
{
    let at = fields.at();
    let Some(name) = fields.name(alloc)? else {
        return Err(LineFault::Bad { field: at });
    };
    let Some(train) = known.train(&name) else {
        return Err(LineFault::Bad { field: at });
    };
    Ok(train.copy(alloc)?)
}

pub(crate) fn read_point(
    alloc: Global,
    fields: &mut Fields<'_>,
    known: &Known,
) -> Result<u32, LineFault>
    ensures { Gives fields.new result (read (a_point known.now) fields.old) }
{
    let at = fields.at();
    let Some(name) = fields.name(alloc)? else {
        return Err(LineFault::Bad { field: at });
    };
    let Some(place) = known.stop(&name) else {
        return Err(LineFault::Bad { field: at });
    };
    Ok(place)
}

pub(crate) fn read_reason(alloc: Global, fields: &mut Fields<'_>) -> Result<Name, LineFault>
    ensures { Gives fields.new result (read a_reason fields.old) }
{
    let at = fields.at();
    let Some(name) = fields.name(alloc)? else {
        return Err(LineFault::Bad { field: at });
    };
    if name.len() <= MAX_REASON_BYTES {
        Ok(Name::from_bytes(alloc, &name)?)
    } else {
        Err(LineFault::Bad { field: at })
    }
}

fn least_zone(before: &Option<Claim>) -> u32
    ensures { result ≡ least_zone before.now }
{
    match before {
        Some(before) => before.zone,
        None => 0,
    }
}

fn end_before(before: &Option<Claim>, zone: u32) -> Option<Tick>
    ensures { result ≡ end_before before.now zone }
{
    match before {
        Some(before) if before.zone == zone => Some(before.span.to),
        _ => None,
    }
}

impl Group for Claim {
    ghost use Rattle.client_lines.specs.Lines.{a_claim};

    ghost form = { a_claim };

    #[tactic(auto, using(crate::proofs::Passed::passed), unfolding(crate::specs::Lines::a_claim))]
    fn read(
        _: Global,
        fields: &mut Fields<'_>,
        known: &Known,
        before: &Option<Claim>,
    ) -> Result<Claim, LineFault> {
        let zone = fields.small_number(least_zone(before), known.zones())?;
        let from = fields.tick(&end_before(before, zone))?;
        let to = fields.tick(&Some(from))?;
        let span = Span { from, to };
        Ok(Claim { zone, span })
    }
}

impl Group for Run {
    ghost use Rattle.client_lines.specs.Lines.{a_run};

    ghost form = { a_run };

    #[tactic(auto, using(crate::proofs::Passed::passed), unfolding(crate::specs::Lines::a_run))]
    fn read(
        _: Global,
        fields: &mut Fields<'_>,
        known: &Known,
        _: &Option<Run>,
    ) -> Result<Run, LineFault> {
        let block = fields.small_number(0, known.blocks())?;
        let enter = fields.tick(&None)?;
        let leave = fields.tick(&None)?;
        let stops = read_flag(fields)?;
        Ok(Run {
            block,
            enter,
            leave,
            stops,
        })
    }
}

impl Group for Stop {
    ghost use Rattle.client_lines.specs.Lines.{a_stop};

    ghost form = { a_stop };

    #[tactic(auto, unfolding(crate::specs::Lines::a_stop))]
    fn read(
        alloc: Global,
        fields: &mut Fields<'_>,
        known: &Known,
        _: &Option<Stop>,
    ) -> Result<Stop, LineFault> {
        let stop = read_point(alloc, fields, known)?;
        let dwell = fields.small_number(0, MAX_DWELL + 1)?;
        Ok(Stop { stop, dwell })
    }
}
