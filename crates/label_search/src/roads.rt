//! The ways of a chart by where they lead, by which it is found how near a train is to its calls.

use crate::charts::{Chart, ChartSpot, ChartWay};
use crate::distances::{Entries, Entry};
use crate::limits::Ahead;
use no_memory::NoMemory;
use std::alloc::Global;

/// The ways by which a train rolls on into each spot of a chart, and those by which it halts at the
/// end of each block.
#[derive(Drop)]
pub struct Roads {
    rolling: Entries,
    halting: Entries,
}

impl Roads {
    /// The roads of a chart. `NoMemory` alone is refused.
    pub fn of(alloc: Global, chart: &Chart) -> Result<Roads, NoMemory> {
        let spots = chart.spots.as_slice();
        let mut rolling = Entries::none(alloc, spots.len())?;
        let mut halting = Entries::none(alloc, blocks_of(spots))?;
        for spot in spots {
            count_ways(&mut rolling, &mut halting, spot);
        }
        rolling.make_room()?;
        halting.make_room()?;
        for (from, spot) in spots.iter().enumerate() {
            put_ways(&mut rolling, &mut halting, from, spot);
        }
        Ok(Roads { rolling, halting })
    }

    /// The least ticks from each spot until the train halts at the end of one of these blocks.
    pub(crate) fn ticks_to(&self, alloc: Global, blocks: &[u32]) -> Result<Vec<Ahead>, NoMemory> {
        let mut lasts = Vec::new(alloc);
        for block in blocks {
            for entry in self.halting.moves_into(*block as usize) {
                lasts.push(*entry)?;
            }
        }
        self.rolling.distances(alloc, lasts.as_slice())
    }
}

// A number that is greater than that of each block on a way.
fn blocks_of(spots: &[ChartSpot]) -> usize {
    let mut count = 0usize;
    for spot in spots {
        for way in spot.ways.as_slice() {
            count = count.max((way.block as usize).saturating_add(1));
        }
    }
    count
}

fn count_ways(rolling: &mut Entries, halting: &mut Entries, spot: &ChartSpot) {
    for way in spot.ways.as_slice() {
        if way.halts {
            halting.count(way.block as usize);
        } else {
            rolling.count(way.next as usize);
        }
    }
}

fn put_ways(rolling: &mut Entries, halting: &mut Entries, from: usize, spot: &ChartSpot) {
    for way in spot.ways.as_slice() {
        let entry = entry_of(from, way);
        if way.halts {
            halting.put(way.block as usize, &entry);
        } else {
            rolling.put(way.next as usize, &entry);
        }
    }
}

fn entry_of(from: usize, way: &ChartWay) -> Entry {
    Entry {
        from,
        ticks: way.run,
    }
}
