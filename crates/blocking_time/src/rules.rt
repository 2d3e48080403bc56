//! The first rule that a path breaks.

ghost use Rattle.std.specs.Prelude.{◌≡◌, ◌↔◌, ◌+◌, ◌-◌, ◌<◌, ◌≤◌, ◌^◌, length, find, int_lt, pos};
ghost use Rattle.std.specs.Prelude.{◌+ℤ◌, None};
ghost use Rattle.rail_types.specs.Limits.{IsRunWithinLimits};
ghost use Rattle.blocking_time.specs.Paths.{IsPathOf};
ghost use Rattle.blocking_time.specs.Runs.{run_at, run_numbers};
ghost use Rattle.blocking_time.specs.Rules.{
  rule_1,
  rule_2,
  rule_3,
  rule_5,
  rule_6,
  rule_11,
  stops_before,
};
ghost use Rattle.blocking_time.specs.Broken.{
  breaks,
  breaks_request,
  broken,
  broken_request,
  broken_run,
  is_outside as is_none_of,
  makes_other_stops,
  rule_of_run,
  serves as does_serve,
  stops_wrongly,
};
ghost use Rattle.blocking_time.specs.Firsts.{Keeps};

use crate::stairways::{reaches, run_block};
use rail_types::{Network, Path, Request, Run, Settings, Stop, Wanted};

/// The run that breaks a rule, by its number from 0, and the rule, from 1.
#[derive(Clone, Copy, Debug, PartialEq, Eq)]
pub struct Broken {
    pub run: u32,
    pub rule: u8,
}

fn does_not_follow(net: &Network, settings: &Settings, path: &Path, index: usize) -> bool
    requires path { IsPathOf net.now settings.now path.now }
    requires index { index < length path.now.runs }
    ensures { result ≡ breaks net.now settings.now path.now rule_1 index }
{
    if index == 0 {
        return false;
    }
    let before = run_block(net, settings, path, index - 1);
    run_block(net, settings, path, index).from_point != before.to_point
}

fn is_not_timed(net: &Network, settings: &Settings, path: &Path, index: usize) -> bool
    requires path { IsPathOf net.now settings.now path.now }
    requires index { index < length path.now.runs }
    ensures { result ≡ breaks net.now settings.now path.now rule_2 index }
{
    let length_m = run_block(net, settings, path, index).length_m;
    path.runs.as_slice()[index].leave != reaches(net, settings, path, index, length_m)
}

fn enters_wrongly(net: &Network, settings: &Settings, path: &Path, index: usize) -> bool
    requires path { IsPathOf net.now settings.now path.now }
    requires index { index < length path.now.runs }
    ensures { result ≡ breaks net.now settings.now path.now rule_3 index }
{
    if index == 0 {
        return false;
    }
    let before = path.runs.as_slice()[index - 1];
    let run = path.runs.as_slice()[index];
    if before.stops {
        run.enter < before.leave
    } else {
        run.enter != before.leave
    }
}

fn lies_outside(net: &Network, settings: &Settings, path: &Path, index: usize) -> bool
    requires path { IsPathOf net.now settings.now path.now }
    requires index { index < length path.now.runs }
    ensures { result ≡ breaks net.now settings.now path.now rule_5 index }
{
    let run = path.runs.as_slice()[index];
    run.enter < 0 || i64::from(settings.horizon) < run.leave
}

fn stops_nowhere(net: &Network, settings: &Settings, path: &Path, index: usize) -> bool
    requires path { IsPathOf net.now settings.now path.now }
    requires index { index < length path.now.runs }
    ensures { result ≡ breaks net.now settings.now path.now rule_6 index }
{
    let count = path.runs.len();
    index + 1 < count
        && path.runs.as_slice()[index].stops
        && run_block(net, settings, path, index).serves.is_empty()
}

// The first rule of runs that a run breaks.
fn first_of_run(net: &Network, settings: &Settings, path: &Path, index: usize) -> Option<u8>
    requires path { IsPathOf net.now settings.now path.now }
    requires index { index < length path.now.runs }
    ensures { result ≡ rule_of_run net.now settings.now path.now index }
{
    let count = path.runs.len();
    let last = index + 1 == count;
    if does_not_follow(net, settings, path, index) {
        Some(1)
    } else if is_not_timed(net, settings, path, index) {
        Some(2)
    } else if enters_wrongly(net, settings, path, index) {
        Some(3)
    } else if last && !path.runs.as_slice()[index].stops {
        Some(4)
    } else if lies_outside(net, settings, path, index) {
        Some(5)
    } else if stops_nowhere(net, settings, path, index) {
        Some(6)
    } else {
        None
    }
}

fn first_of_runs(net: &Network, settings: &Settings, path: &Path) -> Option<Broken>
    requires path { IsPathOf net.now settings.now path.now }
    requires count { length path.now.runs < 2 ^ 32 }
    ensures { result ≡ broken_run net.now settings.now path.now }
{
    for index in 0..path.runs.len() {
        if let Some(rule) = first_of_run(net, settings, path, index) {
            return Some(Broken {
                run: index as u32,
                rule,
            });
        }
    }
    None
}

fn serves(net: &Network, settings: &Settings, path: &Path, index: usize, stop: u32) -> bool
    requires path { IsPathOf net.now settings.now path.now }
    requires index { index < length path.now.runs }
    ensures { result ≡ does_serve net.now path.now index stop }
{
    run_block(net, settings, path, index)
        .serves
        .as_slice()
        .contains(&stop)
}

// Whether the first run is entered outside the window in which the train may depart.
fn departs_outside(path: &Path, request: &Request) -> bool
    requires { 1 ≤ length path.now.runs }
    ensures { result ≡ is_none_of request.now.depart (run_at path.now 0).enter }
{
    let enter = path.runs.as_slice()[0].enter;
    enter < request.depart.from || request.depart.to < enter
}

// Whether the last run is left outside the window in which the train may arrive.
fn arrives_outside(path: &Path, request: &Request) -> bool
    requires { 1 ≤ length path.now.runs }
    ensures { result ≡
        is_none_of request.now.arrive (run_at path.now (length path.now.runs - 1)).leave }
{
    let leave = path.runs.as_slice()[path.runs.len() - 1].leave;
    leave < request.arrive.from || request.arrive.to < leave
}

// Whether the train goes on from a stop before its dwell.
fn leaves_early(stop: &Stop, run: &Run, next: &Run) -> bool
    requires { IsRunWithinLimits run.now }
    ensures { result ≡ int_lt next.now.enter (run.now.leave +ℤ pos stop.now.dwell) }
{
    next.enter < run.leave + i64::from(stop.dwell)
}

// Whether the stop of that number, at the end of a run before the last, is not the one named there,
// or is left before its dwell.
fn stops_otherwise(
    net: &Network,
    settings: &Settings,
    path: &Path,
    request: &Request,
    index: usize,
    made: usize,
) -> bool
    requires path { IsPathOf net.now settings.now path.now }
    requires index { index + 1 < length path.now.runs }
    ensures { result ≡ stops_wrongly net.now request.now path.now index made }
{
    let stops = request.stops.as_slice();
    let runs = path.runs.as_slice();
    made >= stops.len()
        || !serves(net, settings, path, index, stops[made].stop)
        || leaves_early(&stops[made], &runs[index], &runs[index + 1])
}

// Whether a run is the first to show that other stops are made than those that are named, as many
// of which were made before it.
fn differs(
    net: &Network,
    settings: &Settings,
    path: &Path,
    request: &Request,
    index: usize,
    made: usize,
) -> bool
    requires path { IsPathOf net.now settings.now path.now }
    requires index { index < length path.now.runs }
    requires made { made ≡ stops_before path.now index }
    ensures { result ≡ makes_other_stops net.now request.now path.now index }
{
    let count = path.runs.len();
    if index + 1 == count {
        made < request.stops.len()
    } else {
        path.runs.as_slice()[index].stops
            && stops_otherwise(net, settings, path, request, index, made)
    }
}

// The first run that ends with another stop than the one named, or leaves it before its dwell; or
// the last run where stops are missing.
fn first_other_stop(
    net: &Network,
    settings: &Settings,
    path: &Path,
    request: &Request,
) -> Option<u32>
    requires path { IsPathOf net.now settings.now path.now }
    requires count { length path.now.runs < 2 ^ 32 }
    ensures { result ≡
        find (breaks_request net.now request.now path.now rule_11) (run_numbers path.now) }
{
    let mut made = 0usize;
    for index in 0..path.runs.len() {
        if differs(net, settings, path, request, index, made) {
            return Some(index as u32);
        }
        if path.runs.as_slice()[index].stops {
            made += 1;
        }
    }
    None
}

fn first_of_request(
    net: &Network,
    settings: &Settings,
    path: &Path,
    request: &Request,
) -> Option<Broken>
    requires path { IsPathOf net.now settings.now path.now }
    requires some { 1 ≤ length path.now.runs }
    requires count { length path.now.runs < 2 ^ 32 }
    ensures { result ≡ broken_request net.now request.now path.now }
{
    let last = path.runs.len() - 1;
    if !serves(net, settings, path, 0, request.origin) {
        return Some(Broken { run: 0, rule: 7 });
    }
    if !serves(net, settings, path, last, request.destination) {
        return Some(Broken {
            run: last as u32,
            rule: 8,
        });
    }
    if departs_outside(path, request) {
        return Some(Broken { run: 0, rule: 9 });
    }
    if arrives_outside(path, request) {
        return Some(Broken {
            run: last as u32,
            rule: 10,
        });
    }
    if let Some(run) = first_other_stop(net, settings, path, request) {
        return Some(Broken { run, rule: 11 });
    }
    if !path.train.is_same(&request.train) {
        return Some(Broken { run: 0, rule: 12 });
    }
    None
}

/// The run that breaks a rule, and the rule; None where the path keeps all that it is held to.
/// Run by run, each path is held to rules 1 to 6: a block follows the one before (1), a run
/// takes its running time (2), the train enters when it leaves the block before, or later where
/// it stopped there (3), the last run stops (4), no run is entered before tick 0 or left behind
/// the horizon (5), others stop only where an operational point is served (6). Then a path that
/// was asked for is held to rules 7 to 12: its ends serve origin (7) and destination (8), it
/// departs (9) and arrives (10) in the windows, it makes the named stops in their order and no
/// others before its last run, and leaves none before its dwell (11), with the train asked for
/// (12). Of 7, 9 and 12 the first run is told, of 8 and 10 the last, and of 11 the first with a
/// stop that is wrong, or else the last.
pub fn keeps(net: &Network, settings: &Settings, path: &Path, wanted: &Wanted) -> Option<Broken>
    requires path { IsPathOf net.now settings.now path.now }
    requires some { 1 ≤ length path.now.runs }
    requires count { length path.now.runs < 2 ^ 32 }
    ensures value { result ≡ broken net.now settings.now path.now wanted.now }
    ensures keeps { (result ≡ None) ↔ Keeps net.now settings.now path.now wanted.now }
{
    if let Some(broken) = first_of_runs(net, settings, path) {
        return Some(broken);
    }
    match wanted {
        Wanted::Asked(request) => first_of_request(net, settings, path, request.get()),
        Wanted::Pinned => None,
    }
}
