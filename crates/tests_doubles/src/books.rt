//! Books on disks in memory, over a line of three blocks.

ghost use Rattle.std.specs.Prelude.{IfSome, IsTrue};
ghost use Rattle.grant_log.specs.Legal.{IsDeedOn};
ghost use Rattle.rail_types.specs.Limits.{IsEntryWithinLimits, IsSettingsWithinLimits};
ghost use Rattle.rail_types.specs.Timetables.{IsTimetable, timetable_of};

use crate::made::block;
use entry_codec::read;
use no_memory::NoMemory;
use outside_io::MemDisk;
use path_commit::{Book, Sent};
use path_recover::journal_reading::{init, is_on};
use path_recover::open;
use rail_types::{
    Base, Block, List, MAX_HORIZON, MAX_JOURNAL_BYTES, MAX_RELEASE, MAX_SETTING, MAX_TICK_S,
    MIN_JOURNAL_BYTES, Network, Settings,
};
use std::alloc::Global;

const NETWORK: [u8; 32] = [7; 32];

const BASE: [u8; 32] = [9; 32];

// Three blocks of 2000 m one behind the other, each with one zone and one operational point.
fn line_of_three(alloc: Global) -> Result<Network, NoMemory> {
    let mut blocks = List::new(alloc);
    push_block(alloc, &mut blocks, 0, 0, (4, 0))?;
    push_block(alloc, &mut blocks, 1, 400, (0, 2))?;
    push_block(alloc, &mut blocks, 2, 400, (2, 6))?;
    Ok(Network {
        zones: 3,
        points: 8,
        stops: 3,
        blocks,
    })
}

// Puts a block of a number behind others.
fn push_block(
    alloc: Global,
    blocks: &mut List<Block>,
    number: u32,
    sight_m: u32,
    ends: (u32, u32),
) -> Result<(), NoMemory> {
    let sizes = [2000, 200_000, sight_m];
    blocks.push(block(alloc, sizes, &[(number, 2000)], ends, &[number])?)?;
    Ok(())
}

fn no_trains(alloc: Global) -> Base {
    let settings = Settings {
        tick_s: 10,
        setting: 1,
        release: 1,
        horizon: 17_280,
        journal_bytes: 268_435_456,
        speed_loss: false,
    };
    Base {
        settings,
        claims: List::new(alloc),
    }
}

fn is_settings(settings: &Settings) -> bool
    ensures { IsTrue result → IsSettingsWithinLimits settings.now }
{
    1 <= settings.tick_s
        && settings.tick_s <= MAX_TICK_S
        && settings.setting <= MAX_SETTING
        && settings.release <= MAX_RELEASE
        && 1 <= settings.horizon
        && settings.horizon <= MAX_HORIZON
        && MIN_JOURNAL_BYTES <= settings.journal_bytes
        && settings.journal_bytes <= MAX_JOURNAL_BYTES
}

fn is_timetable(net: &Network, base: &Base) -> bool
    ensures { IsTrue result → IsTimetable (timetable_of net.now base.now) }
{
    net.check().is_none() && is_settings(&base.settings) && base.claims.is_empty()
}

// The line of three and a timetable without trains.
fn files(alloc: Global) -> Option<(Network, Base)>
    ensures { IfSome result (λ files. IsTimetable (timetable_of files.0 files.1)) }
{
    let Ok(net) = line_of_three(alloc) else {
        return None;
    };
    let base = no_trains(alloc);
    if !is_timetable(&net, &base) {
        return None;
    }
    Some((net, base))
}

/// The book of a journal that is begun on a disk in memory with so much room.
pub fn empty_book(alloc: Global, room: usize) -> Option<Book<MemDisk>> {
    match begun_disk(alloc, room) {
        Some(disk) => opened(alloc, disk),
        None => None,
    }
}

// A disk in memory with so much room, on which a journal is begun.
fn begun_disk(alloc: Global, room: usize) -> Option<MemDisk> {
    let Ok(mut disk) = MemDisk::new(alloc, Vec::new(alloc), room, Vec::new(alloc)) else {
        return None;
    };
    if init(&mut disk, &NETWORK, &BASE).is_err() {
        return None;
    }
    Some(disk)
}

fn opened(alloc: Global, disk: MemDisk) -> Option<Book<MemDisk>> {
    match files(alloc) {
        Some((net, base)) => open(alloc, disk, &net, base, &NETWORK, &BASE).ok(),
        None => None,
    }
}

/// The entry of a body, if it is on a network.
pub fn sent_on(alloc: Global, net: &Network, body: &[u8]) -> Option<Sent>
    ensures { IfSome result (λ sent. IsEntryWithinLimits sent.entry
        × IsDeedOn net.now sent.entry.deed) }
{
    let Ok(entry) = read(alloc, body) else {
        return None;
    };
    if !is_on(net, &entry.deed) {
        return None;
    }
    Some(Sent {
        entry,
        searched: u64::MAX,
    })
}
