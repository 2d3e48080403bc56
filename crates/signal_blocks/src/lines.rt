//! What lies along the tracks, by track.

ghost use Rattle.std.specs.Prelude.{◌≡◌, ◌++◌, ◌<◌, ◌^◌, length, OnOk, IfOk};
ghost use Rattle.signal_blocks.specs.Lines.{limited, speed_ranges, parts_of, stop_parts};

use crate::block_cuts::{SpeedRange, StopPart};
use no_memory::NoMemory;
use rail_types::List;
use rail_types::infra_types::{OperationalPoint, Range, SpeedSection};
use std::alloc::Global;

/// The ranges of the speed sections that set a limit.
pub(crate) fn speed_ranges(
    alloc: Global,
    sections: &[SpeedSection],
) -> Result<List<SpeedRange>, NoMemory>
    ensures { IfOk result (λ ranges. ranges ≡ speed_ranges sections.now) }
{
    let mut ranges = List::new(alloc);
    'sections: for section in sections {
        add_limited(section.limit, section.ranges.as_slice(), &mut ranges)?;
    }
    Ok(ranges)
}

fn add_limited(
    limit: Option<u32>,
    ranges: &[Range],
    to: &mut List<SpeedRange>,
) -> Result<(), NoMemory>
    ensures ok { OnOk result (to.new ≡ to.old ++ limited limit ranges.now) }
{
    let Some(limit) = limit else {
        return Ok(());
    };
    'limits: for range in ranges {
        to.push(SpeedRange {
            range: *range,
            limit,
        })?;
    }
    Ok(())
}

/// The parts of the operational points, numbered in their order.
pub(crate) fn stop_parts(
    alloc: Global,
    points: &[OperationalPoint],
) -> Result<List<StopPart>, NoMemory>
    requires { length points.now < 2 ^ 32 }
    ensures { IfOk result (λ parts. parts ≡ stop_parts points.now) }
{
    let mut parts = List::new(alloc);
    let mut stop = 0;
    'points: for point in points {
        add_parts(stop, point, &mut parts)?;
        stop += 1;
    }
    Ok(parts)
}

fn add_parts(stop: u32, point: &OperationalPoint, to: &mut List<StopPart>) -> Result<(), NoMemory>
    ensures ok { OnOk result (to.new ≡ to.old ++ parts_of stop point.now) }
{
    'parts: for part in point.parts.as_slice() {
        to.push(StopPart { stop, part: *part })?;
    }
    Ok(())
}
