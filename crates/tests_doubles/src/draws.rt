//! Small networks, trains, requests and claims that are drawn by a count, the same at each run.

ghost use Rattle.std.specs.Prelude.{IfOk, IfSome};
ghost use Rattle.rail_types.specs.Limits.{IsRequestWithinLimits};

use crate::made::{Trip, block, claim, request, train};
use no_memory::NoMemory;
use rail_types::{Block, Claim, List, Network, Request, Stop};
use std::alloc::Global;

/// Numbers that look as if drawn by lot.
#[derive(Drop)]
pub struct Draw {
    pub state: u64,
}

impl Draw {
    /// The next number, less than this one.
    pub fn below(&mut self, most: u32) -> u32 {
        self.state = self
            .state
            .wrapping_mul(6_364_136_223_846_793_005)
            .wrapping_add(1_442_695_040_888_963_407);
        let high = (self.state / 4_294_967_296) as u32;
        high % most.max(1)
    }

    // From one number on, so many.
    fn from(&mut self, least: u32, many: u32) -> u32 {
        least.saturating_add(self.below(many))
    }
}

const POINTS: u32 = 3;

// The operational points that a block serves, that of a number among them.
fn serves(alloc: Global, draw: &mut Draw, always: u32) -> Result<Vec<u32>, NoMemory> {
    let mut serves = Vec::new(alloc);
    for point in 0..POINTS {
        if point == always || draw.below(4) == 0 {
            serves.push(point)?;
        }
    }
    Ok(serves)
}

// One passage or two: mostly of the zone of the block's own number, else of any.
fn cells(
    alloc: Global,
    draw: &mut Draw,
    own: u32,
    zones: u32,
    length_m: u32,
) -> Result<Vec<(u32, u32)>, NoMemory> {
    let mut cells = Vec::new(alloc);
    if draw.below(3) == 0 {
        cells.push((draw.below(zones), draw.below(length_m)))?;
    }
    let zone = if draw.below(5) == 0 {
        draw.below(zones)
    } else {
        own
    };
    cells.push((zone, length_m))?;
    Ok(cells)
}

fn drawn_block(
    alloc: Global,
    draw: &mut Draw,
    own: u32,
    zones: u32,
    ends: (u32, u32),
    always: u32,
) -> Result<Block, NoMemory> {
    let length_m = draw.from(2, 5).saturating_mul(100);
    let speed = [5_000, 10_000, 20_000, 20_000][draw.below(4).min(3) as usize];
    let sight_m = draw.below(5).saturating_mul(100);
    let cells = cells(alloc, draw, own, zones, length_m)?;
    let serves = serves(alloc, draw, always)?;
    let sizes = [length_m, speed, sight_m];
    block(alloc, sizes, cells.as_slice(), ends, serves.as_slice())
}

/// A line of blocks from operational point 0 to point 1, and some blocks
/// more between any of its points.
pub fn network(alloc: Global, draw: &mut Draw) -> Result<Network, NoMemory> {
    let long = draw.from(2, 4);
    let more = draw.below(4);
    let points = long.saturating_add(1);
    let zones = long.saturating_add(more);
    let mut blocks = List::new(alloc);
    for number in 0..zones {
        let ends = if number < long {
            (number, number.saturating_add(1))
        } else {
            (draw.below(points), draw.below(points))
        };
        let always = if number == 0 {
            0
        } else if number.saturating_add(1) == long {
            1
        } else {
            POINTS
        };
        blocks.push(drawn_block(alloc, draw, number, zones, ends, always)?)?;
    }
    Ok(Network {
        zones,
        points,
        stops: POINTS,
        blocks,
    })
}

fn stops(alloc: Global, draw: &mut Draw) -> Result<Vec<Stop>, NoMemory> {
    let mut stops = Vec::new(alloc);
    for _ in 0..draw.below(3) {
        stops.push(Stop {
            stop: draw.below(POINTS),
            dwell: draw.below(5),
        })?;
    }
    Ok(stops)
}

fn window(draw: &mut Draw, most: u32, long: u32) -> (u32, u32) {
    let from = draw.below(most);
    (from, from.saturating_add(draw.below(long)))
}

/// A train of one to nine hundred metres that asks for a path from operational point 0 to point 1.
pub fn asked(alloc: Global, draw: &mut Draw) -> Result<Option<Request>, NoMemory>
    ensures { IfOk result (λ made. IfSome made IsRequestWithinLimits) }
{
    let speed = if draw.below(2) == 0 { 10_000 } else { 20_000 };
    let train = train(alloc, draw.from(1, 9).saturating_mul(100), speed)?;
    let depart = window(draw, 20, 10);
    let arrive = if draw.below(3) == 0 {
        window(draw, 40, 20)
    } else {
        (0, 1_000)
    };
    let trip = Trip {
        origin: 0,
        destination: 1,
        depart,
        arrive,
    };
    let stops = stops(alloc, draw)?;
    let asked = request(alloc, &train, &trip, stops.as_slice())?;
    Ok(asked)
}

/// Claims on zones of a network.
pub fn claims(alloc: Global, draw: &mut Draw, zones: u32) -> Result<Vec<Claim>, NoMemory> {
    let mut claims = Vec::new(alloc);
    for _ in 0..draw.below(10) {
        let from = draw.below(60);
        let until = from.saturating_add(draw.from(1, 12));
        let zone = draw.below(zones);
        claims.push(claim(zone, i64::from(from), i64::from(until)))?;
    }
    Ok(claims)
}
