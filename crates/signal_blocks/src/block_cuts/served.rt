//! The operational points that a block serves.

ghost use Rattle.std.specs.Prelude.{◌≡◌, ◌++◌, OnOk, IfOk};
ghost use Rattle.signal_blocks.specs.Served.{lies_on, stops_in, stops_on, AreServed};

use crate::block_cuts::lines::StopPart;
use crate::block_cuts::rows::ByRow;
use no_memory::NoMemory;
use rail_types::List;
use route_walk::Stretch;
use std::alloc::Global;

/// Whether a part lies on a stretch, its ends included.
fn lies_on(part: &StopPart, stretch: &Stretch) -> bool
    ensures { result ≡ lies_on stretch.now part.now }
{
    part.part.track == stretch.track
        && stretch.low <= part.part.position
        && part.part.position <= stretch.high
}

fn add_stops(row: &[StopPart], stretch: &Stretch, stops: &mut Vec<u32>) -> Result<(), NoMemory>
    ensures ok { OnOk result (stops.new.items ≡ stops.old.items ++ stops_in row.now stretch.now) }
{
    'row: for part in row {
        if lies_on(part, stretch) {
            stops.push(part.stop)?;
        }
    }
    Ok(())
}

/// Adds the operational points of those parts that lie on a stretch, looked up by its track.
fn add_stops_at(
    parts: &ByRow<StopPart>,
    stretch: &Stretch,
    stops: &mut Vec<u32>,
) -> Result<(), NoMemory>
    ensures ok { OnOk result (stops.new.items ≡ stops.old.items ++ stops_in parts.now stretch.now) }
{
    add_stops(parts.in_row(stretch.track), stretch, stops)?;
    Ok(())
}

/// The operational points of the parts that lie on the stretches, as they come.
fn stops_on(
    alloc: Global,
    parts: &ByRow<StopPart>,
    stretches: &[Stretch],
) -> Result<Vec<u32>, NoMemory>
    ensures { IfOk result (λ stops. stops.items ≡ stops_on parts.now stretches.now) }
{
    let mut stops = Vec::new(alloc);
    'stretches: for stretch in stretches {
        add_stops_at(parts, stretch, &mut stops)?;
    }
    Ok(stops)
}

/// The operational points that are served on the stretches, ascending.
pub(crate) fn served(
    alloc: Global,
    parts: &ByRow<StopPart>,
    stretches: &[Stretch],
) -> Result<List<u32>, NoMemory>
    ensures { IfOk result (λ stops. AreServed parts.now stretches.now stops) }
{
    let mut stops = stops_on(alloc, parts, stretches)?;
    stops.sort_unstable();
    stops.dedup();
    Ok(List::from_vec(stops))
}
