//! Running times in ticks.

ghost use Rattle.std.specs.Prelude.{◌≡◌, ◌≤◌, ◌<◌, ◌^◌, pos, ◌<ℤ◌};
ghost use Rattle.rail_types.specs.declared.limits.TheConstants.{MAX_BLOCK_LENGTH_M, MAX_SPEED_MM_S};
ghost use Rattle.rail_types.specs.Limits.{IsBlockWithinLimits, IsTrainWithinLimits};
ghost use Rattle.rail_types.specs.Limits.{IsSettingsWithinLimits};
ghost use Rattle.running_time.specs.Limits.{IsEnterWithinLimits};
ghost use Rattle.running_time.specs.Times.{
  lesser_speed,
  rolling_seconds,
  change_seconds,
  entry_seconds,
  exit_seconds,
  ticks_of,
  part_ticks,
  run_ticks,
  sight_ticks,
};

use crate::{Edge, Enter};
use rail_types::{Block, Settings, Train};

/// The speed at which a train rolls through a block, in millimetres a second.
pub fn speed_in(block: &Block, train: &Train) -> u32
    ensures { result ≡ lesser_speed block.now train.now }
{
    train.speed.min(block.speed)
}

fn rolling(block: &Block, train: &Train, metres: u32) -> u64
    requires block { IsBlockWithinLimits block.now }
    requires train { IsTrainWithinLimits train.now }
    requires metres { metres ≤ MAX_BLOCK_LENGTH_M }
    ensures value { result ≡ rolling_seconds block.now train.now metres }
    ensures bound { result < 2 ^ 40 }
{
    let speed = u64::from(speed_in(block, train));
    (1000 * u64::from(metres) * (100 + u64::from(train.allowance))).div_ceil(100 * speed)
}

fn change(train: &Train, before: u32, now: u32) -> u64
    requires train { IsTrainWithinLimits train.now }
    requires before { (1 ≤ before) × (before ≤ MAX_SPEED_MM_S) }
    requires now { (1 ≤ now) × (now ≤ MAX_SPEED_MM_S) }
    ensures value { result ≡ change_seconds train.now before now }
    ensures bound { result < 2 ^ 40 }
{
    let (before, now) = (u64::from(before), u64::from(now));
    if before <= now {
        ((now - before) * (now - before)).div_ceil(2 * u64::from(train.accel) * now)
    } else {
        ((before - now) * (before - now)).div_ceil(2 * u64::from(train.brake) * before)
    }
}

fn lost_at_entry(block: &Block, train: &Train, settings: &Settings, entry: Enter) -> u64
    requires block { IsBlockWithinLimits block.now }
    requires train { IsTrainWithinLimits train.now }
    requires entry { IsEnterWithinLimits entry }
    ensures value { result ≡ entry_seconds block.now train.now settings.now entry }
    ensures bound { result < 2 ^ 40 }
{
    let speed = speed_in(block, train);
    match entry {
        Enter::Still => u64::from(speed).div_ceil(2 * u64::from(train.accel)),
        Enter::From(before) => {
            if settings.speed_loss {
                change(train, before, speed)
            } else {
                0
            }
        }
    }
}

fn lost_at_exit(block: &Block, train: &Train, exit: Edge) -> u64
    requires block { IsBlockWithinLimits block.now }
    requires train { IsTrainWithinLimits train.now }
    ensures value { result ≡ exit_seconds block.now train.now exit }
    ensures bound { result < 2 ^ 40 }
{
    match exit {
        Edge::Still => u64::from(speed_in(block, train)).div_ceil(2 * u64::from(train.brake)),
        Edge::Rolling => 0,
    }
}

fn in_ticks(settings: &Settings, seconds: u64) -> u64
    requires settings { IsSettingsWithinLimits settings.now }
    requires seconds { seconds < 2 ^ 42 }
    ensures value { result ≡ ticks_of settings.now seconds }
    ensures bound { result < 2 ^ 43 }
{
    seconds.div_ceil(u64::from(settings.tick_s)).max(1)
}

/// The ticks for the first `metres` of a block, from 1 to its length, with
/// the losses of the whole run.
#[tactic(auto, unfolding(crate::specs::Times::part_ticks))]
pub fn part(
    block: &Block,
    train: &Train,
    settings: &Settings,
    entry: Enter,
    exit: Edge,
    metres: u32,
) -> i64
    requires block { IsBlockWithinLimits block.now }
    requires train { IsTrainWithinLimits train.now }
    requires settings { IsSettingsWithinLimits settings.now }
    requires entry { IsEnterWithinLimits entry }
    requires metres { metres ≤ block.now.length_m }
    ensures value { result ≡ pos (part_ticks block.now train.now settings.now entry exit metres) }
    ensures bound { result <ℤ pos (2 ^ 43) }
{
    let seconds = rolling(block, train, metres)
        + lost_at_entry(block, train, settings, entry)
        + lost_at_exit(block, train, exit);
    in_ticks(settings, seconds) as i64
}

/// The ticks for a whole block.
pub fn run(block: &Block, train: &Train, settings: &Settings, entry: Enter, exit: Edge) -> i64
    requires block { IsBlockWithinLimits block.now }
    requires train { IsTrainWithinLimits train.now }
    requires settings { IsSettingsWithinLimits settings.now }
    requires entry { IsEnterWithinLimits entry }
    ensures value { result ≡ pos (run_ticks block.now train.now settings.now entry exit) }
    ensures bound { result <ℤ pos (2 ^ 43) }
{
    part(block, train, settings, entry, exit, block.length_m)
}

/// The ticks in which a rolling train passes the sight distance of a block.
#[tactic(auto, unfolding(crate::specs::Times::sight_ticks))]
pub fn sight(block: &Block, train: &Train, settings: &Settings) -> i64
    requires block { IsBlockWithinLimits block.now }
    requires train { IsTrainWithinLimits train.now }
    requires settings { IsSettingsWithinLimits settings.now }
    ensures value { result ≡ pos (sight_ticks block.now train.now settings.now) }
    ensures bound { result <ℤ pos (2 ^ 43) }
{
    if block.sight_m == 0 {
        0
    } else {
        in_ticks(settings, rolling(block, train, block.sight_m)) as i64
    }
}
