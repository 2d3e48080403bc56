//! Whether the numbers of an entry are within their limits.

ghost use Rattle.std.specs.Prelude.{◌≡◌, ◌↔◌, ◌≤◌, All, AllPairs, IsTrue};
ghost use Rattle.rail_types.specs.declared.entries.Wanted.TheVariants.{Asked};
ghost use Rattle.rail_types.specs.declared.limits.TheConstants.{MAX_DWELL};
ghost use Rattle.rail_types.specs.Limits.{
  IsClaimWithinLimits,
  IsDeedWithinLimits,
  IsEntryWithinLimits,
  IsGrantWithinLimits,
  IsHoldWithinLimits,
  IsPathWithinLimits,
  IsRequestWithinLimits,
  IsRunWithinLimits,
  IsTrainWithinLimits,
  IsWindowWithinLimits,
};
ghost use Rattle.rail_types.specs.Occupation.{AreJoined, EndsBefore, HasTicks};

use rail_types::{
    Claim, Deed, Entry, MAX_ACCEL_MM_S2, MAX_ALLOWANCE_PERCENT, MAX_DWELL, MAX_HOLD_CLAIMS,
    MAX_NUMBER, MAX_PINNED_RUNS, MAX_REASON_BYTES, MAX_SPEED_MM_S, MAX_STOPS, MAX_TRAIN_LENGTH_M,
    MAX_TRAIN_NAME_BYTES, Name, Path, Request, Run, Stop, Train, Wanted, Window, is_client_name,
    is_tick,
};
use std::str;

// Whether the numbers of an entry are within their limits, whatever the network has.
pub(crate) fn is_within_limits(entry: &Entry) -> bool
    ensures { IsTrue result ↔ IsEntryWithinLimits entry.now }
{
    is_client_name(entry.owner.as_bytes()) && entry.number <= MAX_NUMBER && is_deed(&entry.deed)
}

fn is_deed(deed: &Deed) -> bool
    ensures { IsTrue result ↔ IsDeedWithinLimits deed.now }
{
    match deed {
        Deed::Hold(claims, reason) => is_hold(claims.as_slice(), reason),
        Deed::Grant(wanted, path) => is_grant(wanted, path),
        Deed::Free(at) => *at <= MAX_NUMBER,
    }
}

fn is_hold(claims: &[Claim], reason: &Name) -> bool
    ensures { IsTrue result ↔ IsHoldWithinLimits claims.now reason.now }
{
    let reason_bytes = reason.as_bytes().len();
    are_claims(claims)
        && !claims.is_empty()
        && claims.len() <= MAX_HOLD_CLAIMS as usize
        && are_joined(claims)
        && reason_bytes <= MAX_REASON_BYTES as usize
        && (0 < reason_bytes || claims.len() == 1)
}

fn is_claim(claim: &Claim) -> bool
    ensures { IsTrue result ↔ IsClaimWithinLimits claim.now }
{
    is_tick(&claim.span.from) && is_tick(&claim.span.to) && claim.span.from < claim.span.to
}

fn are_claims(claims: &[Claim]) -> bool
    ensures { IsTrue result ↔ All IsClaimWithinLimits claims.now }
{
    claims.iter().all(|claim| is_claim(claim))
}

fn are_joined(claims: &[Claim]) -> bool
    ensures { IsTrue result ↔ AreJoined claims.now }
{
    have_ticks(claims) && are_apart(claims)
}

fn have_ticks(claims: &[Claim]) -> bool
    ensures { IsTrue result ↔ All (λ claim. HasTicks claim.span) claims.now }
{
    claims.iter().all(|claim| claim.span.from < claim.span.to)
}

fn ends_before(one: &Claim, later: &Claim) -> bool
    ensures { IsTrue result ↔ EndsBefore one.now later.now }
{
    one.zone < later.zone || (one.zone == later.zone && one.span.to < later.span.from)
}

fn are_before(claims: &[Claim], later: &Claim) -> bool
    ensures { IsTrue result ↔ All (λ one. EndsBefore one later.now) claims.now }
{
    claims.iter().all(|one| ends_before(one, later))
}

fn are_apart(claims: &[Claim]) -> bool
    ensures { IsTrue result ↔ AllPairs EndsBefore claims.now }
{
    for at in 0..claims.len() {
        let (before, _) = claims.split_at(at);
        if !are_before(before, &claims[at]) {
            return false;
        }
    }
    true
}

fn is_asked(request: &Request, path: &Path) -> bool
    ensures { IsTrue result ↔ IsGrantWithinLimits (Asked request.now) path.now }
{
    is_request(request) && request.train.is_same(&path.train) && is_path(path, u32::MAX)
}

fn is_grant(wanted: &Wanted, path: &Path) -> bool
    ensures { IsTrue result ↔ IsGrantWithinLimits wanted.now path.now }
{
    match wanted {
        Wanted::Asked(request) => is_asked(request.get(), path),
        Wanted::Pinned => is_path(path, MAX_PINNED_RUNS),
    }
}

fn is_path(path: &Path, most: u32) -> bool
    ensures { IsTrue result ↔ IsPathWithinLimits most path.now }
{
    is_train(&path.train)
        && !path.runs.is_empty()
        && path.runs.len() <= most as usize
        && are_runs(path.runs.as_slice())
}

fn is_run(run: &Run) -> bool
    ensures { IsTrue result ↔ IsRunWithinLimits run.now }
{
    is_tick(&run.enter) && is_tick(&run.leave)
}

fn are_runs(runs: &[Run]) -> bool
    ensures { IsTrue result ↔ All IsRunWithinLimits runs.now }
{
    runs.iter().all(|run| is_run(run))
}

fn is_train(train: &Train) -> bool
    ensures { IsTrue result ↔ IsTrainWithinLimits train.now }
{
    let name = train.name.as_bytes();
    !name.is_empty()
        && name.len() <= MAX_TRAIN_NAME_BYTES as usize
        && str::from_utf8(name).is_ok()
        && 1 <= train.length_m
        && train.length_m <= MAX_TRAIN_LENGTH_M
        && 1 <= train.speed
        && train.speed <= MAX_SPEED_MM_S
        && 1 <= train.accel
        && train.accel <= MAX_ACCEL_MM_S2
        && 1 <= train.brake
        && train.brake <= MAX_ACCEL_MM_S2
        && train.allowance <= MAX_ALLOWANCE_PERCENT
}

fn is_window(window: &Window) -> bool
    ensures { IsTrue result ↔ IsWindowWithinLimits window.now }
{
    is_tick(&window.from) && is_tick(&window.to)
}

fn are_dwells(stops: &[Stop]) -> bool
    ensures { IsTrue result ↔ All (λ stop. stop.dwell ≤ MAX_DWELL) stops.now }
{
    stops.iter().all(|stop| stop.dwell <= MAX_DWELL)
}

fn is_request(request: &Request) -> bool
    ensures { IsTrue result ↔ IsRequestWithinLimits request.now }
{
    is_train(&request.train)
        && is_window(&request.depart)
        && is_window(&request.arrive)
        && request.stops.len() <= MAX_STOPS as usize
        && are_dwells(request.stops.as_slice())
}
