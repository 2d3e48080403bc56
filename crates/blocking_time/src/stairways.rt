//! The stairway of a path.

ghost use Rattle.std.specs.Prelude.{◌≡◌, ◌+◌, ◌<◌, ◌≤◌, ◌^◌, ◌++◌, ◌-◌, pos, ◌-ℤ◌, ◌<ℤ◌, neg_ℤ};
ghost use Rattle.std.specs.Prelude.{length, IfOk, OnOk};
ghost use Rattle.running_time.specs.Limits.{IsEnterWithinLimits};
ghost use Rattle.running_time.specs.Times.{sight_ticks};
ghost use Rattle.rail_types.specs.Limits.{
  IsBlockWithinLimits,
  IsRunWithinLimits,
  IsTrainWithinLimits,
  IsSettingsWithinLimits,
};
ghost use Rattle.blocking_time.specs.Runs.{
  block_of,
  entry_at,
  entry_behind,
  exit_of,
  is_from_stand as begins_from_stand,
  reached_at,
  run_at,
};
ghost use Rattle.blocking_time.specs.Paths.{IsPathIn, IsPathOf};
ghost use Rattle.blocking_time.specs.Rules.{KeepsRunRules};
ghost use Rattle.blocking_time.specs.Stairway.{blocked_from as begin_at, gone_at, claim_at};
ghost use Rattle.blocking_time.specs.Stairway.{claims_of_path, claims_of_run};
ghost use Rattle.blocking_time.specs.Indexed.{IsCursor, gone_behind};

use crate::Passage;
use no_memory::NoMemory;
use rail_types::{
    Block, Cell, Claim, MAX_BLOCK_LENGTH_M, Network, Path, Run, Settings, Span, Tick, Train,
};
use running_time::{Edge, Enter, part, sight, speed_in};
use std::alloc::Global;

/// How a train that stops, or passes, leaves a block.
pub fn edge_where(stops: bool) -> Edge
    ensures { result ≡ exit_of stops }
{
    if stops { Edge::Still } else { Edge::Rolling }
}

/// How a train enters the block behind this one, at whose end it stopped or passed.
pub fn entry_after(block: &Block, train: &Train, stops: bool) -> Enter
    ensures { result ≡ entry_behind train.now block.now stops }
{
    if stops {
        Enter::Still
    } else {
        Enter::From(speed_in(block, train))
    }
}

pub(crate) fn run_block<'a>(
    net: &'a Network,
    settings: &Settings,
    path: &Path,
    index: usize,
) -> &'a Block
    requires path { IsPathOf net.now settings.now path.now }
    requires index { index < length path.now.runs }
    ensures value { result.now ≡ block_of net.now path.now index }
    ensures limits { IsBlockWithinLimits result.now }
{
    let number = path.runs.as_slice()[index].block;
    &net.blocks.as_slice()[number as usize]
}

fn run_entry(net: &Network, settings: &Settings, path: &Path, index: usize) -> Enter
    requires path { IsPathOf net.now settings.now path.now }
    requires index { index < length path.now.runs }
    ensures value { result ≡ entry_at net.now path.now index }
    ensures limits { IsEnterWithinLimits result }
{
    if index == 0 {
        return Enter::Still;
    }
    let block = run_block(net, settings, path, index - 1);
    let stops = path.runs.as_slice()[index - 1].stops;
    entry_after(block, &path.train, stops)
}

// The tick at which the head has gone so many metres into a run's block.
pub(crate) fn reaches(
    net: &Network,
    settings: &Settings,
    path: &Path,
    index: usize,
    metres: u32,
) -> Tick
    requires path { IsPathOf net.now settings.now path.now }
    requires index { index < length path.now.runs }
    requires metres { metres ≤ (block_of net.now path.now index).length_m }
    ensures value { result ≡ reached_at net.now settings.now path.now index metres }
    ensures low { neg_ℤ (pos (2 ^ 50)) <ℤ result }
    ensures high { result <ℤ pos (2 ^ 50) }
{
    let block = run_block(net, settings, path, index);
    let entry = run_entry(net, settings, path, index);
    let run = path.runs.as_slice()[index];
    let ticks = part(
        block,
        &path.train,
        settings,
        entry,
        edge_where(run.stops),
        metres,
    );
    run.enter + ticks
}

// Whether a run begins from stand.
fn is_from_stand(path: &Path, index: usize) -> bool
    requires index { index < length path.now.runs }
    ensures { result ≡ begins_from_stand path.now index }
{
    index == 0 || path.runs.as_slice()[index - 1].stops
}

// When the route behind a block is set for a train that has rolled into it.
fn set_before_sight(block: &Block, train: &Train, settings: &Settings, run: &Run) -> Tick
    requires block { IsBlockWithinLimits block.now }
    requires train { IsTrainWithinLimits train.now }
    requires settings { IsSettingsWithinLimits settings.now }
    requires run { IsRunWithinLimits run.now }
    ensures { result
        ≡ run.now.enter -ℤ pos settings.now.setting
        -ℤ pos (sight_ticks block.now train.now settings.now) }
{
    run.enter - i64::from(settings.setting) - sight(block, train, settings)
}

// The tick from which a run's zones are blocked.
fn blocked_from(net: &Network, settings: &Settings, path: &Path, index: usize) -> Tick
    requires path { IsPathOf net.now settings.now path.now }
    requires index { index < length path.now.runs }
    ensures { result ≡ begin_at net.now settings.now path.now index }
{
    let runs = path.runs.as_slice();
    if is_from_stand(path, index) {
        runs[index].enter - i64::from(settings.setting)
    } else if is_from_stand(path, index - 1) {
        runs[index - 1].enter - i64::from(settings.setting)
    } else {
        let block = run_block(net, settings, path, index - 1);
        set_before_sight(block, &path.train, settings, &runs[index - 1])
    }
}

// The tick at which the head has gone so many metres from a run's
// beginning, or leaves the last run.
fn gone_from(net: &Network, settings: &Settings, path: &Path, index: usize, metres: u32) -> Tick
    requires path { IsPathOf net.now settings.now path.now }
    requires some { 0 < length path.now.runs }
    requires index { index ≤ length path.now.runs }
    ensures value { result ≡ gone_behind net.now settings.now path.now index metres }
    ensures low { neg_ℤ (pos (2 ^ 50)) <ℤ result }
    ensures high { result <ℤ pos (2 ^ 50) }
{
    let runs = path.runs.as_slice();
    let mut left = metres;
    for at in index..runs.len() {
        let block = run_block(net, settings, path, at);
        if left <= block.length_m {
            return reaches(net, settings, path, at, left);
        }
        left -= block.length_m;
    }
    runs[runs.len() - 1].leave
}

// A run, and the metres to its beginning from that of the run whose cells are looked at. Where
// release points do not fall, as in each network without flaws, the run in which a train clears
// cells only goes on, and the path is walked through once.
#[derive(Clone, Copy, Debug)]
struct Cursor {
    run: usize,
    metres: u32,
}

// The cursor for the cells of a run when that for those of the run before stood here.
fn for_next_run(
    net: &Network,
    settings: &Settings,
    path: &Path,
    index: usize,
    cursor: Cursor,
) -> Cursor
    requires path { IsPathOf net.now settings.now path.now }
    requires index { index < length path.now.runs }
    requires count { length path.now.runs < 2 ^ 64 }
    requires cursor { IsCursor net.now settings.now path.now index cursor }
    ensures { IsCursor net.now settings.now path.now (index + 1) result }
{
    let long = run_block(net, settings, path, index).length_m;
    if long <= cursor.metres {
        Cursor {
            run: cursor.run,
            metres: cursor.metres - long,
        }
    } else {
        Cursor {
            run: index + 1,
            metres: 0,
        }
    }
}

// The cursor at the run in which the head has gone so many metres from a run's beginning.
fn moved_to(
    net: &Network,
    settings: &Settings,
    path: &Path,
    index: usize,
    cursor: Cursor,
    metres: u32,
) -> Cursor
    requires path { IsPathOf net.now settings.now path.now }
    requires index { index < length path.now.runs }
    requires cursor { IsCursor net.now settings.now path.now index cursor }
    requires metres { 0 < metres }
    ensures cursor { IsCursor net.now settings.now path.now index result }
    ensures metres { result.metres < metres }
{
    let mut at = if cursor.metres < metres {
        cursor
    } else {
        Cursor {
            run: index,
            metres: 0,
        }
    };
    while at.run < path.runs.len() {
        let long = run_block(net, settings, path, at.run).length_m;
        if metres - at.metres <= long {
            return at;
        }
        at = Cursor {
            run: at.run + 1,
            metres: at.metres + long,
        };
    }
    at
}

// The tick at which the head has gone so many metres from a run's beginning; the cursor follows it.
fn cleared(
    net: &Network,
    settings: &Settings,
    path: &Path,
    index: usize,
    metres: u32,
    cursor: &mut Cursor,
) -> Tick
    requires path { IsPathOf net.now settings.now path.now }
    requires index { index < length path.now.runs }
    requires metres { 0 < metres }
    requires cursor { IsCursor net.now settings.now path.now index cursor.old }
    ensures value { result ≡ gone_at net.now settings.now path.now index metres }
    ensures low { neg_ℤ (pos (2 ^ 50)) <ℤ result }
    ensures high { result <ℤ pos (2 ^ 50) }
    ensures cursor { IsCursor net.now settings.now path.now index cursor.new }
{
    *cursor = moved_to(net, settings, path, index, *cursor, metres);
    gone_from(net, settings, path, cursor.run, metres - cursor.metres)
}

// The claim of one cell of a run's block.
fn claim_of(
    net: &Network,
    settings: &Settings,
    path: &Path,
    index: usize,
    cell: &Cell,
    cursor: &mut Cursor,
) -> Claim
    requires path { IsPathOf net.now settings.now path.now }
    requires index { index < length path.now.runs }
    requires cell { cell.now.release_m ≤ MAX_BLOCK_LENGTH_M }
    requires cursor { IsCursor net.now settings.now path.now index cursor.old }
    ensures claim { result ≡ claim_at net.now settings.now path.now index cell.now }
    ensures cursor { IsCursor net.now settings.now path.now index cursor.new }
{
    let metres = Passage::of(&path.train, cell).metres;
    let cleared = cleared(net, settings, path, index, metres, cursor);
    Claim {
        zone: cell.zone,
        span: Span {
            from: blocked_from(net, settings, path, index),
            to: cleared + i64::from(settings.release),
        },
    }
}

// Puts the claims of one run behind the others.
fn push_claims(
    claims: &mut Vec<Claim>,
    net: &Network,
    settings: &Settings,
    path: &Path,
    index: usize,
    cursor: &mut Cursor,
) -> Result<(), NoMemory>
    requires path { IsPathOf net.now settings.now path.now }
    requires index { index < length path.now.runs }
    requires cursor { IsCursor net.now settings.now path.now index cursor.old }
    ensures claims { OnOk result
        (claims.new.items ≡ claims.old.items ++ claims_of_run net.now settings.now path.now index) }
    ensures cursor { OnOk result (IsCursor net.now settings.now path.now index cursor.new) }
{
    let block = run_block(net, settings, path, index);
    for cell in block.cells.as_slice() {
        claims.push(claim_of(net, settings, path, index, cell, cursor))?;
    }
    Ok(())
}

fn stairway_of(
    alloc: Global,
    net: &Network,
    settings: &Settings,
    path: &Path,
) -> Result<Vec<Claim>, NoMemory>
    requires path { IsPathOf net.now settings.now path.now }
    ensures { IfOk result (λ claims. claims.items ≡ claims_of_path net.now settings.now path.now) }
{
    let mut claims = Vec::new(alloc);
    let mut cursor = Cursor { run: 0, metres: 0 };
    for index in 0..path.runs.len() {
        push_claims(&mut claims, net, settings, path, index, &mut cursor)?;
        cursor = for_next_run(net, settings, path, index, cursor);
    }
    Ok(claims)
}

/// The claims of a path that keeps the rules of runs, by run, then cell: how long each zone is
/// blocked for it (Pachl, Railway Operation and Control: blocking time).
pub fn stairway(
    alloc: Global,
    net: &Network,
    settings: &Settings,
    path: &Path,
) -> Result<Vec<Claim>, NoMemory>
    requires path { IsPathIn net.now settings.now path.now }
    requires keeps { KeepsRunRules net.now settings.now path.now }
    ensures { IfOk result (λ claims. claims.items ≡ claims_of_path net.now settings.now path.now) }
{
    stairway_of(alloc, net, settings, path)
}
