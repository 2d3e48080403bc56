//! The line of three blocks on which the world's clients ask for paths.

ghost use Rattle.std.specs.Prelude.{◌≡◌, [], IsTrue};
ghost use Rattle.rail_types.specs.Limits.{IsSettingsWithinLimits};
ghost use Rattle.rail_types.specs.Timetables.{IsTimetable, timetable_of};

use no_memory::NoMemory;
use plan_core::World;
use rail_types::{
    Base, Block, Cell, KeptRequest, List, MAX_HORIZON, MAX_JOURNAL_BYTES, MAX_RELEASE, MAX_SETTING,
    MAX_TICK_S, MIN_JOURNAL_BYTES, Name, Network, Path, Request, Run, Settings, Train, Wanted,
    Window,
};
use std::alloc::Global;

// A block of 2000 m with the zone and the operational point of its number.
fn block(alloc: Global, number: u32, sight_m: u32, ends: (u32, u32)) -> Result<Block, NoMemory> {
    let cell = Cell {
        zone: number,
        release_m: 2000,
    };
    let cells = List::from_vec(Vec::from_slice(alloc, &[cell])?);
    let serves = List::from_vec(Vec::from_slice(alloc, &[number])?);
    Ok(Block {
        length_m: 2000,
        speed: 200_000,
        sight_m,
        cells,
        from_point: ends.0,
        to_point: ends.1,
        serves,
    })
}

// Puts such a block behind others.
fn push_block(
    alloc: Global,
    blocks: &mut List<Block>,
    number: u32,
    sight_m: u32,
    ends: (u32, u32),
) -> Result<(), NoMemory> {
    blocks.push(block(alloc, number, sight_m, ends)?)?;
    Ok(())
}

fn line_of_three(alloc: Global) -> Result<Network, NoMemory> {
    let mut blocks = List::new(alloc);
    push_block(alloc, &mut blocks, 0, 0, (4, 0))?;
    push_block(alloc, &mut blocks, 1, 400, (0, 2))?;
    push_block(alloc, &mut blocks, 2, 400, (2, 6))?;
    Ok(Network {
        zones: 3,
        points: 8,
        stops: 3,
        blocks,
    })
}

fn is_settings(settings: &Settings) -> bool
    ensures { IsTrue result → IsSettingsWithinLimits settings.now }
{
    1 <= settings.tick_s
        && settings.tick_s <= MAX_TICK_S
        && settings.setting <= MAX_SETTING
        && settings.release <= MAX_RELEASE
        && 1 <= settings.horizon
        && settings.horizon <= MAX_HORIZON
        && MIN_JOURNAL_BYTES <= settings.journal_bytes
        && settings.journal_bytes <= MAX_JOURNAL_BYTES
}

// Whether the network has no flaw, the settings are within their limits, and nothing is planned.
fn is_timetable(net: &Network, base: &Base) -> bool
    ensures { IsTrue result → IsTimetable (timetable_of net.now base.now) }
{
    net.check().is_none() && is_settings(&base.settings) && base.claims.is_empty()
}

/// The world of so many clients at its beginning.
pub fn first_world(alloc: Global, clients: u32) -> Result<Option<World>, NoMemory> {
    let settings = Settings {
        tick_s: 10,
        setting: 1,
        release: 1,
        horizon: 17_280,
        journal_bytes: 268_435_456,
        speed_loss: false,
    };
    let claims = List::new(alloc);
    let base = Base { settings, claims };
    let net = line_of_three(alloc)?;
    if !is_timetable(&net, &base) {
        return Ok(None);
    }
    Ok(Some(World::new(alloc, net, base, clients)?))
}

fn train(alloc: Global) -> Result<Train, NoMemory> {
    Ok(Train {
        name: Name::from_bytes(alloc, b"F1")?,
        length_m: 400,
        speed: 20_000,
        accel: 200,
        brake: 250,
        allowance: 0,
    })
}

/// The path of the train from end to end that departs at this tick: 15, 10 and 14 ticks.
pub fn path(alloc: Global, depart: i64) -> Result<Path, NoMemory> {
    let mut runs = List::new(alloc);
    let mut enter = depart;
    for (block, ticks) in [(0u32, 15i64), (1, 10), (2, 14)] {
        let leave = enter.saturating_add(ticks);
        runs.push(Run {
            block,
            enter,
            leave,
            stops: block == 2,
        })?;
        enter = leave;
    }
    let train = train(alloc)?;
    Ok(Path { train, runs })
}

/// The request of the train for such a path.
pub fn asked(alloc: Global, depart: i64) -> Result<Wanted, NoMemory> {
    let request = Request {
        train: train(alloc)?,
        origin: 0,
        destination: 2,
        depart: Window {
            from: depart,
            to: depart,
        },
        arrive: Window {
            from: 0,
            to: 17_280,
        },
        stops: List::new(alloc),
    };
    Ok(Wanted::Asked(KeptRequest::new(alloc, request)?))
}
