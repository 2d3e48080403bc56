//! Comparisons of networks that are drawn, and how many there were of each kind.

ghost use Rattle.rail_types.specs.Limits.{IsRequestWithinLimits};

use crate::comparisons::{Compared, compare};
use crate::draws::{Draw, asked, claims, network};
use crate::made::settings;
use no_memory::NoMemory;
use rail_types::{Network, Path, Request, Settings};
use std::alloc::Global;

/// How many asks were compared: in all, in networks with a ring, and with loss of speed; and of
/// those that were granted all, those whose train waits on its way, and those whose train is
/// longer than its first block.
#[derive(Debug, Drop)]
pub struct Tally {
    pub asks: u32,
    pub rings: u32,
    pub losses: u32,
    pub granted: u32,
    pub waited: u32,
    pub long: u32,
}

impl Tally {
    /// None.
    pub fn new() -> Tally {
        Tally {
            asks: 0,
            rings: 0,
            losses: 0,
            granted: 0,
            waited: 0,
            long: 0,
        }
    }

    /// Whether there were as many of each kind as these.
    pub fn is_as_many(&self, least: &Tally) -> bool {
        self.asks >= least.asks
            && self.rings >= least.rings
            && self.losses >= least.losses
            && self.granted >= least.granted
            && self.waited >= least.waited
            && self.long >= least.long
    }
}

fn waits(path: &Path) -> bool {
    let runs = path.runs.as_slice();
    for at in 1..runs.len() {
        if runs[at].enter > runs[at - 1].leave {
            return true;
        }
    }
    false
}

// Whether a block ends at the point where it begins, or at one of those before it.
fn has_ring(net: &Network) -> bool {
    for block in net.blocks.as_slice() {
        if block.to_point <= block.from_point {
            return true;
        }
    }
    false
}

fn is_long(net: &Network, path: &Path) -> bool {
    let Some(run) = path.runs.get(0) else {
        return false;
    };
    match net.blocks.get(run.block as usize) {
        Some(block) => block.length_m < path.train.length_m,
        None => false,
    }
}

fn add(count: &mut u32, one: bool) {
    if one {
        *count = count.saturating_add(1);
    }
}

fn count(tally: &mut Tally, net: &Network, settings: &Settings, path: &Option<Path>) {
    add(&mut tally.asks, true);
    add(&mut tally.rings, has_ring(net));
    add(&mut tally.losses, settings.speed_loss);
    if let Some(path) = path {
        add(&mut tally.granted, true);
        add(&mut tally.waited, waits(path));
        add(&mut tally.long, is_long(net, path));
    }
}

/// Compares what is drawn by a number, and counts it where it was asked.
pub fn draw_and_compare(
    alloc: Global,
    number: u32,
    tally: &mut Tally,
) -> Result<Compared, NoMemory> {
    let mut draw = Draw {
        state: u64::from(number),
    };
    draw.below(2);
    let net = network(alloc, &mut draw)?;
    match asked(alloc, &mut draw)? {
        Some(request) => ask_and_compare(alloc, &mut draw, &net, &request, tally),
        None => Ok(Compared::NotAsked),
    }
}

// Compares what is answered to a request beside claims that are drawn, and counts it.
fn ask_and_compare(
    alloc: Global,
    draw: &mut Draw,
    net: &Network,
    request: &Request,
    tally: &mut Tally,
) -> Result<Compared, NoMemory>
    requires { IsRequestWithinLimits request.now }
{
    let claims = claims(alloc, draw, net.zones)?;
    let settings = settings(draw.below(3), draw.below(3), 60, draw.below(2) == 0);
    let told = compare(alloc, net, &settings, claims.as_slice(), request)?;
    if let Compared::Same(got) = &told {
        count(tally, net, &settings, &got.path);
    }
    Ok(told)
}
