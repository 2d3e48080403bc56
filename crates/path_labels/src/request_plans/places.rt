//! A place of a request with what its waits and moves take.

ghost use Rattle.std.specs.Prelude.{◌≡◌, ◌<◌, ◌^◌, ◌++◌, pos, ◌+ℤ◌, length, map, All, IfOk, OnOk};
ghost use Rattle.std.specs.Int.{int_min};
ghost use Rattle.running_time.specs.Limits.{IsEnterWithinLimits};
ghost use Rattle.stair_pieces.specs.Places.{place_after};
ghost use Rattle.stair_pieces.specs.Pieces.{kept};
ghost use Rattle.stair_pieces.specs.Steps.{IsPlaceIn, IsTailIn};
ghost use Rattle.path_labels.specs.Plans.{
  IsNumberOf,
  dwell_at,
  move_in,
  place_in,
  target_of as planned_target,
  ticks_in,
  ticks_of_step,
};

use label_search::{Move as PlannedMove, Place as PlannedPlace, Target};
use no_memory::NoMemory;
use rail_types::{Claim, List, Network, Request, Settings, Span, Tick, Train};
use running_time::run;
use stair_pieces::{Place, Step, pieces, standing};
use std::alloc::Global;
use tail_states::{Move, Next};

fn target_of(next: Next) -> Target
    requires { IsNumberOf next }
    ensures { result ≡ planned_target next }
{
    match next {
        Next::End => Target::End,
        Next::At(number) => Target::Place(number + 1),
    }
}

// The ticks of a run, one more than there are where it cannot end by the horizon.
fn cut_behind_the_horizon(settings: &Settings, ticks: Tick) -> Tick
    ensures { result ≡ int_min ticks (pos settings.now.horizon +ℤ pos 1) }
{
    ticks.min(i64::from(settings.horizon) + 1)
}

// The ticks of a step of a train from a place.
pub(crate) fn ticks_of(
    net: &Network,
    settings: &Settings,
    train: &Train,
    place: &Place,
    step: Step,
    after: &Place,
) -> Tick
    requires place { IsPlaceIn net.now settings.now train.now place.now }
    requires step { step.block < length net.now.blocks }
    requires after { after.now ≡ place_after net.now train.now place.now step }
    requires entered { IsEnterWithinLimits after.now.entered }
    ensures { result ≡ ticks_in net.now settings.now train.now place.now step }
{
    let block = &net.blocks.as_slice()[step.block as usize];
    let ticks = run(block, train, settings, after.entered, step.exit);
    cut_behind_the_horizon(settings, ticks)
}

// Puts zones that are kept over a span behind the claims.
pub(crate) fn push_kept(claims: &mut Vec<Claim>, zones: &[u32], span: &Span) -> Result<(), NoMemory>
    ensures { OnOk result (claims.new.items
        ≡ claims.old.items ++ kept zones.now span.now.from span.now.to) }
{
    if span.from >= span.to {
        return Ok(());
    }
    for zone in zones {
        claims.push(Claim {
            zone: *zone,
            span: *span,
        })?;
    }
    Ok(())
}

fn claims_of(
    alloc: Global,
    net: &Network,
    settings: &Settings,
    request: &Request,
    place: &Place,
    one: &Move,
    after: &Place,
    ticks: Tick,
) -> Result<Vec<Claim>, NoMemory>
    requires place { IsPlaceIn net.now settings.now request.now.train place.now }
    requires step { one.now.step.block < length net.now.blocks }
    requires after { after.now ≡ place_after net.now request.now.train place.now one.now.step }
    requires tail { IsTailIn net.now request.now.train after.now.tail }
    requires ticks { ticks ≡ ticks_of_step net.now settings.now request.now place.now one.now.step }
    ensures { IfOk result (λ claims. claims.items
        ≡ (move_in net.now settings.now request.now place.now one.now).pieces) }
{
    let mut claims = pieces(alloc, net, settings, &request.train, place, one.step)?;
    if one.next == Next::End {
        let zones = standing(alloc, net, &request.train, after)?;
        let release = Span {
            from: ticks,
            to: ticks + i64::from(settings.release),
        };
        push_kept(&mut claims, zones.as_slice(), &release)?;
    }
    Ok(claims)
}

fn planned_move(
    alloc: Global,
    net: &Network,
    settings: &Settings,
    request: &Request,
    place: &Place,
    one: &Move,
) -> Result<PlannedMove, NoMemory>
    requires place { IsPlaceIn net.now settings.now request.now.train place.now }
    requires made { place.now.made < 2 ^ 31 }
    requires step { one.now.step.block < length net.now.blocks }
    requires next { IsNumberOf one.now.next }
    ensures { IfOk result (λ planned.
        planned ≡ move_in net.now settings.now request.now place.now one.now) }
{
    let after = place.after(alloc, net, &request.train, one.step)?;
    let ticks = ticks_of(net, settings, &request.train, place, one.step, &after);
    let claims = claims_of(alloc, net, settings, request, place, one, &after, ticks)?;
    Ok(PlannedMove {
        target: target_of(one.next),
        run: ticks,
        pieces: List::from_vec(claims),
    })
}

fn planned_moves(
    alloc: Global,
    net: &Network,
    settings: &Settings,
    request: &Request,
    place: &Place,
    moves: &[Move],
) -> Result<List<PlannedMove>, NoMemory>
    requires place { IsPlaceIn net.now settings.now request.now.train place.now }
    requires made { place.now.made < 2 ^ 31 }
    requires steps { All (λ one. one.step.block < length net.now.blocks) moves.now }
    requires nexts { All (λ one. IsNumberOf one.next) moves.now }
    ensures { IfOk result (λ planned.
        planned ≡ map (move_in net.now settings.now request.now place.now) moves.now) }
{
    let mut planned = List::new(alloc);
    for one in moves {
        planned.push(planned_move(alloc, net, settings, request, place, one)?)?;
    }
    Ok(planned)
}

// The dwell of the stop that was made last of so many, where the train stands.
pub(crate) fn dwell_after(request: &Request, made: u32, standing: bool) -> Tick
    ensures { result ≡ dwell_at request.now made standing }
{
    if !standing {
        return 0;
    }
    match request.stops.get(made.saturating_sub(1) as usize) {
        Some(stop) => i64::from(stop.dwell),
        None => 0,
    }
}

/// A place of a request with these moves as it stands in the plan: the zones that are kept while
/// the train waits there, and for each move its ticks, its target and its pieces.
pub fn planned_place(
    alloc: Global,
    net: &Network,
    settings: &Settings,
    request: &Request,
    place: &Place,
    moves: &[Move],
) -> Result<PlannedPlace, NoMemory>
    requires place { IsPlaceIn net.now settings.now request.now.train place.now }
    requires made { place.now.made < 2 ^ 31 }
    requires steps { All (λ one. one.step.block < length net.now.blocks) moves.now }
    requires nexts { All (λ one. IsNumberOf one.next) moves.now }
    ensures { IfOk result (λ planned.
        planned ≡ place_in net.now settings.now request.now place.now moves.now) }
{
    let zones = standing(alloc, net, &request.train, place)?;
    let mut waits = Vec::new(alloc);
    push_kept(&mut waits, zones.as_slice(), &Span { from: 0, to: 1 })?;
    Ok(PlannedPlace {
        standing: place.standing,
        dwell: dwell_after(request, place.made, place.standing),
        waits: List::from_vec(waits),
        moves: planned_moves(alloc, net, settings, request, place, moves)?,
    })
}
