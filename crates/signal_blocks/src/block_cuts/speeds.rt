//! The speed of a block.

ghost use Rattle.std.specs.Prelude.{◌≡◌, min};
ghost use Rattle.std.specs.List.{fold};
ghost use Rattle.signal_blocks.specs.Speeds.{applies_in, holds_on, limits_in, least_limit};

use crate::block_cuts::lines::SpeedRange;
use crate::block_cuts::rows::ByRow;
use rail_types::MAX_SPEED_MM_S;
use rail_types::infra_types::{Applies, Direction};
use route_walk::Stretch;

/// Whether a limit applies in a direction.
fn applies_in(applies: Applies, direction: Direction) -> bool
    ensures { result ≡ applies_in applies direction }
{
    match applies {
        Applies::Both => true,
        Applies::StartToStop => direction == Direction::StartToStop,
        Applies::StopToStart => direction == Direction::StopToStart,
    }
}

/// Whether a speed range shares a positive length with a stretch, in its direction.
fn holds_on(range: &SpeedRange, stretch: &Stretch) -> bool
    ensures { result ≡ holds_on stretch.now range.now }
{
    let begin = u64::from(range.range.begin).max(stretch.low);
    let end = u64::from(range.range.end).min(stretch.high);
    range.range.track == stretch.track
        && begin < end
        && applies_in(range.range.applies, stretch.direction)
}

/// The least of a speed and the limits of those ranges that hold on a stretch.
fn least_in(row: &[SpeedRange], stretch: &Stretch, speed: u32) -> u32
    ensures { result ≡ fold min speed (limits_in row.now stretch.now) }
{
    let mut least = speed;
    'row: for range in row {
        if holds_on(range, stretch) {
            least = least.min(range.limit);
        }
    }
    least
}

/// The least of a speed and the limits of those ranges that hold on a
/// stretch, looked up by its track.
fn least_at(ranges: &ByRow<SpeedRange>, stretch: &Stretch, speed: u32) -> u32
    ensures { result ≡ fold min speed (limits_in ranges.now stretch.now) }
{
    least_in(ranges.in_row(stretch.track), stretch, speed)
}

/// The least limit of any range that holds on the stretches, and the greatest speed without one.
#[tactic(auto, using(crate::proofs::Ranges::folds))]
pub(crate) fn least_limit(ranges: &ByRow<SpeedRange>, stretches: &[Stretch]) -> u32
    ensures { result ≡ least_limit ranges.now stretches.now }
{
    let mut least = MAX_SPEED_MM_S;
    'stretches: for stretch in stretches {
        least = least_at(ranges, stretch, least);
    }
    least
}
