//! The search as the rules say it: every place with every tick, one by one, by running times,
//! places and claims that are worked out here once more. It is slow, and shares nothing with the
//! search but the types that it is asked in.

use no_memory::NoMemory;
use rail_types::{Block, Claim, List, Network, Request, Settings, Span, Train, Window};
use std::alloc::Global;

/// What the search should answer: the earliest last leave, and how many pairs of
/// place and tick a train can reach.
#[derive(Debug, Drop)]
pub struct Expected {
    pub leave: Option<u32>,
    pub pairs: u64,
    pub places: usize,
}

// A place of the train: the blocks under it, the lesser speed of the block before the last of them,
// 0 where that was entered from stand, whether it stands, and the stops that it made.
#[derive(Drop)]
struct Spot {
    tail: Vec<u32>,
    entered: u32,
    standing: bool,
    made: usize,
}

// A move: the number of the place behind it, none behind an end, its
// ticks, and its claims at tick 0.
#[derive(Drop)]
struct Going {
    to: Option<usize>,
    run: u32,
    claims: Vec<Claim>,
}

// A zone that is not cleared until the head has gone so many metres more.
#[derive(Clone, Copy)]
struct Left {
    zone: u32,
    metres: u32,
}

fn ceil(whole: u64, part: u64) -> u64 {
    whole.div_ceil(part.max(1))
}

fn square(number: u32) -> u64 {
    u64::from(number).saturating_mul(u64::from(number))
}

// The seconds of rolling so many metres.
fn rolling(block: &Block, train: &Train, metres: u32) -> u64 {
    let percent = 100u64.saturating_add(u64::from(train.allowance));
    let speed = u64::from(train.speed.min(block.speed));
    let way = 1_000u64.saturating_mul(u64::from(metres));
    ceil(way.saturating_mul(percent), speed.saturating_mul(100))
}

// The seconds lost in a block that is entered with another speed, 0 being
// that of a train that stands.
fn entry_loss(block: &Block, train: &Train, settings: &Settings, entered: u32) -> u64 {
    let speed = train.speed.min(block.speed);
    let gain = u64::from(train.accel).saturating_mul(2);
    let lose = u64::from(train.brake).saturating_mul(2);
    if entered == 0 {
        return ceil(u64::from(speed), gain);
    }
    if !settings.speed_loss {
        return 0;
    }
    let faster = speed.saturating_sub(entered);
    let slower = entered.saturating_sub(speed);
    ceil(square(faster), gain.saturating_mul(u64::from(speed))).saturating_add(ceil(
        square(slower),
        lose.saturating_mul(u64::from(entered)),
    ))
}

fn in_ticks(settings: &Settings, seconds: u64) -> u32 {
    ceil(seconds, u64::from(settings.tick_s))
        .max(1)
        .min(1_000_000) as u32
}

// The ticks of a run through a block, or through its first metres.
fn ticks(
    block: &Block,
    train: &Train,
    settings: &Settings,
    entered: u32,
    halts: bool,
    metres: u32,
) -> u32 {
    let speed = u64::from(train.speed.min(block.speed));
    let lose = u64::from(train.brake).saturating_mul(2);
    let stop = if halts { ceil(speed, lose) } else { 0 };
    let seconds = rolling(block, train, metres)
        .saturating_add(entry_loss(block, train, settings, entered))
        .saturating_add(stop);
    in_ticks(settings, seconds)
}

fn sight(block: &Block, train: &Train, settings: &Settings) -> u32 {
    if block.sight_m == 0 {
        return 0;
    }
    in_ticks(settings, rolling(block, train, block.sight_m))
}

// The length of blocks one behind the other.
fn metres(net: &Network, blocks: &[u32]) -> u32 {
    let mut sum = 0u32;
    for number in blocks {
        if let Some(block) = net.blocks.get(*number as usize) {
            sum = sum.saturating_add(block.length_m);
        }
    }
    sum
}

// The longest end of these blocks in which those behind the first are shorter than the train.
fn under(
    alloc: Global,
    net: &Network,
    train: &Train,
    blocks: &[u32],
) -> Result<Vec<u32>, NoMemory> {
    let mut rest = blocks;
    for _ in 0..blocks.len() {
        let Some((_, behind)) = rest.split_first() else {
            break;
        };
        if metres(net, behind) < train.length_m {
            break;
        }
        rest = behind;
    }
    Ok(Vec::from_slice(alloc, rest)?)
}

// The zones under a train that are not cleared.
fn uncleared(
    alloc: Global,
    net: &Network,
    train: &Train,
    tail: &[u32],
) -> Result<Vec<Left>, NoMemory> {
    let mut left = Vec::new(alloc);
    for at in 0..tail.len() {
        let (_, rest) = tail.split_at(at);
        let Some(block) = net.blocks.get(tail[at] as usize) else {
            continue;
        };
        push_left(&mut left, train, block, metres(net, rest))?;
    }
    Ok(left)
}

// The zones of a block that are not cleared when the head has gone so
// many metres from its beginning.
fn push_left(
    left: &mut Vec<Left>,
    train: &Train,
    block: &Block,
    gone: u32,
) -> Result<(), NoMemory> {
    for cell in block.cells.as_slice() {
        let clear = cell.release_m.saturating_add(train.length_m);
        if clear > gone {
            left.push(Left {
                zone: cell.zone,
                metres: clear.saturating_sub(gone),
            })?;
        }
    }
    Ok(())
}

fn last_block<'a>(net: &'a Network, spot: &Spot) -> Option<&'a Block> {
    match spot.tail.last() {
        Some(number) => net.blocks.get(*number as usize),
        None => None,
    }
}

// The speed with which a train goes on from a place, 0 where it stands.
fn speed_from(net: &Network, train: &Train, spot: &Spot) -> u32 {
    if spot.standing {
        return 0;
    }
    match last_block(net, spot) {
        Some(block) => train.speed.min(block.speed),
        None => 0,
    }
}

// When the zones of the next block are set, which is entered at tick 0.
fn set_at(net: &Network, train: &Train, settings: &Settings, spot: &Spot) -> i64 {
    let setting = i64::from(settings.setting);
    let Some(before) = last_block(net, spot) else {
        return 0i64.saturating_sub(setting);
    };
    if spot.standing {
        return 0i64.saturating_sub(setting);
    }
    let run = ticks(
        before,
        train,
        settings,
        spot.entered,
        false,
        before.length_m,
    );
    let seen = if spot.entered == 0 {
        0
    } else {
        sight(before, train, settings)
    };
    0i64.saturating_sub(i64::from(run))
        .saturating_sub(setting)
        .saturating_sub(i64::from(seen))
}

// A block that is run through next, and whether the train halts at its end.
#[derive(Clone, Copy)]
struct Step {
    block: u32,
    halts: bool,
}

// The claims of a step, its head entering the block at tick 0: of its own zones, then of
// those still under the train.
fn claims_of(
    alloc: Global,
    net: &Network,
    settings: &Settings,
    train: &Train,
    spot: &Spot,
    step: &Step,
) -> Result<Vec<Claim>, NoMemory> {
    let mut claims = Vec::new(alloc);
    let Some(block) = net.blocks.get(step.block as usize) else {
        return Ok(claims);
    };
    claim_own(alloc, net, settings, train, spot, step, block, &mut claims)?;
    claim_tail(alloc, net, settings, train, spot, step, block, &mut claims)?;
    Ok(claims)
}

// Puts the claims of a step on the zones of its own block behind others.
fn claim_own(
    alloc: Global,
    net: &Network,
    settings: &Settings,
    train: &Train,
    spot: &Spot,
    step: &Step,
    block: &Block,
    claims: &mut Vec<Claim>,
) -> Result<(), NoMemory> {
    let mut own = Vec::new(alloc);
    push_left(&mut own, train, block, 0)?;
    let set = set_at(net, train, settings, spot);
    let entered = speed_from(net, train, spot);
    push_claims(
        claims,
        own.as_slice(),
        set,
        block,
        train,
        settings,
        entered,
        step.halts,
    )
}

// Puts the claims of a step on the zones that are still under the train behind others.
fn claim_tail(
    alloc: Global,
    net: &Network,
    settings: &Settings,
    train: &Train,
    spot: &Spot,
    step: &Step,
    block: &Block,
    claims: &mut Vec<Claim>,
) -> Result<(), NoMemory> {
    let left = uncleared(alloc, net, train, spot.tail.as_slice())?;
    let entered = speed_from(net, train, spot);
    push_claims(
        claims,
        left.as_slice(),
        0,
        block,
        train,
        settings,
        entered,
        step.halts,
    )
}

// Puts a claim from a tick on behind others for each zone that is cleared in a block or behind it.
fn push_claims(
    claims: &mut Vec<Claim>,
    left: &[Left],
    from: i64,
    block: &Block,
    train: &Train,
    settings: &Settings,
    entered: u32,
    halts: bool,
) -> Result<(), NoMemory> {
    for one in left {
        let until = cleared(block, train, settings, entered, halts, one.metres);
        claims.push(held(one.zone, from, until))?;
    }
    Ok(())
}

fn held(zone: u32, from: i64, to: u32) -> Claim {
    Claim {
        zone,
        span: Span {
            from,
            to: i64::from(to),
        },
    }
}

// When a zone is free again that is cleared after so many metres of a block, or not in that block.
fn cleared(
    block: &Block,
    train: &Train,
    settings: &Settings,
    entered: u32,
    halts: bool,
    metres: u32,
) -> u32 {
    if metres > block.length_m {
        return ticks(block, train, settings, entered, halts, block.length_m);
    }
    ticks(block, train, settings, entered, halts, metres).saturating_add(settings.release)
}

fn spot_behind(
    alloc: Global,
    net: &Network,
    train: &Train,
    spot: &Spot,
    step: &Step,
) -> Result<Spot, NoMemory> {
    let mut blocks = Vec::from_slice(alloc, spot.tail.as_slice())?;
    blocks.push(step.block)?;
    Ok(Spot {
        tail: under(alloc, net, train, blocks.as_slice())?,
        entered: speed_from(net, train, spot),
        standing: step.halts,
        made: if step.halts {
            spot.made.saturating_add(1)
        } else {
            spot.made
        },
    })
}

fn is_same(one: &Spot, other: &Spot) -> bool {
    one.tail.as_slice() == other.tail.as_slice()
        && one.entered == other.entered
        && one.standing == other.standing
        && one.made == other.made
}

// The number of a place among those that are known, behind which it is put where it is new.
fn number_of(spots: &mut Vec<Spot>, spot: Spot) -> Result<usize, NoMemory> {
    for number in 0..spots.len() {
        if is_same(&spots[number], &spot) {
            return Ok(number);
        }
    }
    let number = spots.len();
    spots.push(spot)?;
    Ok(number)
}

fn ticks_of(net: &Network, settings: &Settings, train: &Train, spot: &Spot, step: &Step) -> u32 {
    let Some(block) = net.blocks.get(step.block as usize) else {
        return 1;
    };
    let entered = speed_from(net, train, spot);
    ticks(block, train, settings, entered, step.halts, block.length_m)
}

// A move by a step; behind an end the zones under the train are kept through their release.
fn move_by(
    alloc: Global,
    net: &Network,
    settings: &Settings,
    request: &Request,
    spots: &mut Vec<Spot>,
    spot: &Spot,
    step: &Step,
) -> Result<Going, NoMemory> {
    let run = ticks_of(net, settings, &request.train, spot, step);
    let mut claims = claims_of(alloc, net, settings, &request.train, spot, step)?;
    let behind = spot_behind(alloc, net, &request.train, spot, step)?;
    let to = if !step.halts || spot.made < request.stops.len() {
        Some(number_of(spots, behind)?)
    } else {
        let until = run.saturating_add(settings.release);
        claim_end(alloc, net, &request.train, behind, run, until, &mut claims)?;
        None
    };
    Ok(Going { to, run, claims })
}

// Puts the claims behind others of the zones under a train that has ended its way.
fn claim_end(
    alloc: Global,
    net: &Network,
    train: &Train,
    end: Spot,
    from: u32,
    until: u32,
    claims: &mut Vec<Claim>,
) -> Result<(), NoMemory> {
    for one in uncleared(alloc, net, train, end.tail.as_slice())?.as_slice() {
        claims.push(held(one.zone, i64::from(from), until))?;
    }
    Ok(())
}

// Whether a train may go on into a block from a place.
fn reaches(net: &Network, request: &Request, spot: &Spot, block: &Block) -> bool {
    match last_block(net, spot) {
        Some(before) => before.to_point == block.from_point,
        None => block.serves.as_slice().contains(&request.origin),
    }
}

// Whether a train that made so many stops may halt at the end of a block.
fn may_halt(request: &Request, made: usize, block: &Block) -> bool {
    match request.stops.get(made) {
        Some(stop) => block.serves.as_slice().contains(&stop.stop),
        None => block.serves.as_slice().contains(&request.destination),
    }
}

// The steps that a train can take from a place, in the order of their blocks.
fn steps_from(
    alloc: Global,
    net: &Network,
    request: &Request,
    spot: &Spot,
) -> Result<Vec<Step>, NoMemory> {
    let mut steps = Vec::new(alloc);
    let mut number = 0u32;
    for block in net.blocks.as_slice() {
        if reaches(net, request, spot, block) {
            push_steps(&mut steps, number, may_halt(request, spot.made, block))?;
        }
        number = number.saturating_add(1);
    }
    Ok(steps)
}

// Puts the steps into a block behind others: through it, and to a halt at its end where it may be.
fn push_steps(steps: &mut Vec<Step>, block: u32, may_halt: bool) -> Result<(), NoMemory> {
    steps.push(Step {
        block,
        halts: false,
    })?;
    if may_halt {
        steps.push(Step { block, halts: true })?;
    }
    Ok(())
}

fn goings_from(
    alloc: Global,
    net: &Network,
    settings: &Settings,
    request: &Request,
    spots: &mut Vec<Spot>,
    spot: &Spot,
) -> Result<Vec<Going>, NoMemory> {
    let steps = steps_from(alloc, net, request, spot)?;
    let mut goings = Vec::new(alloc);
    for step in steps.as_slice() {
        goings.push(move_by(alloc, net, settings, request, spots, spot, step)?)?;
    }
    Ok(goings)
}

// The places of a request and the moves between them.
#[derive(Drop)]
struct Graph {
    spots: Vec<Spot>,
    starts: Vec<Going>,
    goings: Vec<Vec<Going>>,
}

// None where there are more places than so many.
fn graph_of(
    alloc: Global,
    net: &Network,
    settings: &Settings,
    request: &Request,
    most: usize,
) -> Result<Option<Graph>, NoMemory> {
    let mut graph = begun(alloc, net, settings, request)?;
    for at in 0..most {
        if graph.spots.len() <= at {
            return Ok(Some(graph));
        }
        add_goings(alloc, net, settings, request, &mut graph, at)?;
    }
    Ok(None)
}

// The moves from where a train begins, and the places behind these.
fn begun(
    alloc: Global,
    net: &Network,
    settings: &Settings,
    request: &Request,
) -> Result<Graph, NoMemory> {
    let begin = Spot {
        tail: Vec::new(alloc),
        entered: 0,
        standing: true,
        made: 0,
    };
    let mut spots = Vec::new(alloc);
    let starts = goings_from(alloc, net, settings, request, &mut spots, &begin)?;
    Ok(Graph {
        spots,
        starts,
        goings: Vec::new(alloc),
    })
}

// Adds the moves from the place of a number, where it is known.
fn add_goings(
    alloc: Global,
    net: &Network,
    settings: &Settings,
    request: &Request,
    graph: &mut Graph,
    at: usize,
) -> Result<(), NoMemory> {
    let Some(spot) = graph.spots.get(at) else {
        return Ok(());
    };
    let here = same_spot(alloc, spot)?;
    let goings = goings_from(alloc, net, settings, request, &mut graph.spots, &here)?;
    graph.goings.push(goings)?;
    Ok(())
}

fn same_spot(alloc: Global, spot: &Spot) -> Result<Spot, NoMemory> {
    Ok(Spot {
        tail: Vec::from_slice(alloc, spot.tail.as_slice())?,
        entered: spot.entered,
        standing: spot.standing,
        made: spot.made,
    })
}

// Pairs of place and tick that are marked.
#[derive(Drop)]
struct Marks {
    rows: Vec<Vec<bool>>,
}

impl Marks {
    fn new(alloc: Global, places: usize, horizon: u32) -> Result<Marks, NoMemory> {
        let mut rows = Vec::new(alloc);
        for _ in 0..places {
            rows.push(row(alloc, horizon)?)?;
        }
        Ok(Marks { rows })
    }

    fn has(&self, place: usize, tick: u32) -> bool {
        match self.rows.get(place) {
            Some(row) => row.get(tick as usize) == Some(&true),
            None => false,
        }
    }

    fn set(&mut self, place: usize, tick: u32) {
        if let Some(row) = self.rows.get_mut(place) {
            if let Some(mark) = row.get_mut(tick as usize) {
                *mark = true;
            }
        }
    }

    fn count(&self) -> u64 {
        let mut count = 0u64;
        for row in &self.rows {
            for mark in row {
                if *mark {
                    count = count.saturating_add(1);
                }
            }
        }
        count
    }
}

fn row(alloc: Global, horizon: u32) -> Result<Vec<bool>, NoMemory> {
    let mut row = Vec::new(alloc);
    for _ in 0..=horizon {
        row.push(false)?;
    }
    Ok(row)
}

// Whether claims that stand for tick 0 clash with none of those that are taken
// when they are moved to a tick.
fn is_free(taken: &[Claim], claims: &[Claim], tick: u32) -> bool {
    for claim in claims {
        let span = Span {
            from: claim.span.from.saturating_add(i64::from(tick)),
            to: claim.span.to.saturating_add(i64::from(tick)),
        };
        if clashes(
            taken,
            &Claim {
                zone: claim.zone,
                span,
            },
        ) {
            return false;
        }
    }
    true
}

fn clashes(taken: &[Claim], claim: &Claim) -> bool {
    for one in taken {
        let meet = one.span.from < claim.span.to && claim.span.from < one.span.to;
        if one.zone == claim.zone && meet && claim.span.from < claim.span.to {
            return true;
        }
    }
    false
}

fn holds(window: &Window, tick: u32) -> bool {
    window.from <= i64::from(tick) && i64::from(tick) <= window.to
}

// What is reached: the ticks of arrival and those at which a train that stands may go on,
// and the earliest last leave.
#[derive(Drop)]
struct Walk {
    arrived: Marks,
    ready: Marks,
    leave: Option<u32>,
}

impl Walk {
    fn new(alloc: Global, places: usize, horizon: u32) -> Result<Walk, NoMemory> {
        let arrived = Marks::new(alloc, places, horizon)?;
        let ready = Marks::new(alloc, places, horizon)?;
        Ok(Walk {
            arrived,
            ready,
            leave: None,
        })
    }
}

// Takes each move of a place that is free at a tick.
fn go(
    walk: &mut Walk,
    goings: &[Going],
    tick: u32,
    settings: &Settings,
    request: &Request,
    taken: &[Claim],
) {
    for going in goings {
        let leave = tick.saturating_add(going.run);
        if leave > settings.horizon || !is_free(taken, going.claims.as_slice(), tick) {
            continue;
        }
        match going.to {
            Some(place) => walk.arrived.set(place, leave),
            None => arrive(walk, request, leave),
        }
    }
}

fn arrive(walk: &mut Walk, request: &Request, leave: u32) {
    if !holds(&request.arrive, leave) {
        return;
    }
    match walk.leave {
        Some(earlier) if earlier <= leave => {}
        _ => walk.leave = Some(leave),
    }
}

// Marks the ticks at which a train may go on that came to a place at a tick and stands there.
fn wait(
    walk: &mut Walk,
    place: usize,
    came: u32,
    dwell: u32,
    settings: &Settings,
    taken: &[Claim],
    kept: &[Claim],
) {
    for tick in came..=settings.horizon {
        if tick >= came.saturating_add(dwell) {
            walk.ready.set(place, tick);
        }
        if !is_free(taken, kept, tick) {
            return;
        }
    }
}

// The claims of one tick of standing at a place.
fn kept_at(
    alloc: Global,
    net: &Network,
    train: &Train,
    spot: &Spot,
) -> Result<Vec<Claim>, NoMemory> {
    let mut kept = Vec::new(alloc);
    for one in uncleared(alloc, net, train, spot.tail.as_slice())?.as_slice() {
        kept.push(held(one.zone, 0, 1))?;
    }
    Ok(kept)
}

fn dwell_at(request: &Request, spot: &Spot) -> u32 {
    match request.stops.get(spot.made.saturating_sub(1)) {
        Some(stop) => stop.dwell,
        None => 0,
    }
}

// A tick at a place.
#[derive(Clone, Copy)]
struct Moment {
    place: usize,
    tick: u32,
}

// What a train can do at a tick of a place, where it is there.
fn visit(
    alloc: Global,
    net: &Network,
    settings: &Settings,
    request: &Request,
    taken: &[Claim],
    graph: &Graph,
    walk: &mut Walk,
    moment: Moment,
) -> Result<(), NoMemory> {
    let Moment { place, tick } = moment;
    let Some(spot) = graph.spots.get(place) else {
        return Ok(());
    };
    let Some(goings) = graph.goings.get(place) else {
        return Ok(());
    };
    let came = walk.arrived.has(place, tick);
    if came && spot.standing {
        let kept = kept_at(alloc, net, &request.train, spot)?;
        wait(
            walk,
            place,
            tick,
            dwell_at(request, spot),
            settings,
            taken,
            kept.as_slice(),
        );
    }
    let goes = if spot.standing {
        walk.ready.has(place, tick)
    } else {
        came
    };
    if goes {
        go(walk, goings.as_slice(), tick, settings, request, taken);
    }
    Ok(())
}

// What a train can do at a tick, at any place or where it begins.
fn visit_all(
    alloc: Global,
    net: &Network,
    settings: &Settings,
    request: &Request,
    taken: &[Claim],
    graph: &Graph,
    walk: &mut Walk,
    tick: u32,
) -> Result<(), NoMemory> {
    if holds(&request.depart, tick) {
        go(
            walk,
            graph.starts.as_slice(),
            tick,
            settings,
            request,
            taken,
        );
    }
    for place in 0..graph.spots.len() {
        let moment = Moment { place, tick };
        visit(alloc, net, settings, request, taken, graph, walk, moment)?;
    }
    Ok(())
}

// What is reached, tick by tick.
fn walked(
    alloc: Global,
    net: &Network,
    settings: &Settings,
    request: &Request,
    taken: &[Claim],
    graph: &Graph,
) -> Result<Walk, NoMemory> {
    let mut walk = Walk::new(alloc, graph.spots.len(), settings.horizon)?;
    for tick in 0..=settings.horizon {
        visit_all(alloc, net, settings, request, taken, graph, &mut walk, tick)?;
    }
    Ok(walk)
}

/// What the search should answer beside claims that are taken; None where the request
/// has more places than so many.
pub fn expect(
    alloc: Global,
    net: &Network,
    settings: &Settings,
    request: &Request,
    taken: &[Claim],
    most: usize,
) -> Result<Option<Expected>, NoMemory> {
    let Some(graph) = graph_of(alloc, net, settings, request, most)? else {
        return Ok(None);
    };
    let walk = walked(alloc, net, settings, request, taken, &graph)?;
    Ok(Some(Expected {
        leave: walk.leave,
        pairs: walk.arrived.count(),
        places: graph.spots.len(),
    }))
}
