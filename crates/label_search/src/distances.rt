//! The least ticks from each of some places to an end, by the moves into each. They are found
//! without proof, for others to test.

use crate::limits::Ahead;
use no_memory::NoMemory;
use rail_types::{FAR_TICK, Tick};
use std::alloc::Global;
use std::mem;

/// A move into a place: where from, and its ticks with the wait before it.
#[derive(Clone, Copy)]
pub(crate) struct Entry {
    pub(crate) from: usize,
    pub(crate) ticks: Tick,
}

/// The moves into each place: those into one stand together, from its first on.
#[derive(Drop)]
pub(crate) struct Entries {
    firsts: Vec<usize>,
    entries: Vec<Entry>,
}

impl Entries {
    /// None into so many places.
    pub(crate) fn none(alloc: Global, places: usize) -> Result<Entries, NoMemory> {
        Ok(Entries {
            firsts: vec![in alloc; 0; places]?,
            entries: Vec::new(alloc),
        })
    }

    /// Counts a move into a place; all are counted before any is put in.
    pub(crate) fn count(&mut self, to: usize) {
        if let Some(count) = self.firsts.get_mut(to) {
            *count = count.saturating_add(1);
        }
    }

    /// Makes room for the moves that are counted.
    pub(crate) fn make_room(&mut self) -> Result<(), NoMemory> {
        let count = sum_up(self.firsts.as_mut_slice());
        self.entries.resize(count, Entry { from: 0, ticks: 0 })?;
        Ok(())
    }

    /// Puts a move before those that stand at its place already.
    pub(crate) fn put(&mut self, to: usize, entry: &Entry) {
        let Some(first) = self.firsts.get_mut(to) else {
            return;
        };
        let at = first.saturating_sub(1);
        *first = at;
        if let Some(place) = self.entries.get_mut(at) {
            *place = *entry;
        }
    }

    /// The least ticks from each place to an end, which is so far from where these moves begin.
    pub(crate) fn distances(&self, alloc: Global, lasts: &[Entry]) -> Result<Vec<Ahead>, NoMemory> {
        let mut ahead = vec![in alloc; Ahead { ticks: FAR_TICK }; self.firsts.len()]?;
        let mut open = Vec::new(alloc);
        come_nearer(ahead.as_mut_slice(), lasts, &Ahead { ticks: 0 }, &mut open)?;
        let mut nearer = Vec::new(alloc);
        for _ in 0..self.firsts.len() {
            for place in open.as_slice() {
                self.come_nearer_to(*place, ahead.as_mut_slice(), &mut nearer)?;
            }
            mem::swap(&mut open, &mut nearer);
            nearer.clear();
            if open.is_empty() {
                return Ok(ahead);
            }
        }
        Ok(ahead)
    }

    // Adds the places that come nearer by a move into this one.
    fn come_nearer_to(
        &self,
        place: usize,
        ahead: &mut [Ahead],
        nearer: &mut Vec<usize>,
    ) -> Result<(), NoMemory> {
        let Some(there) = ahead.get(place) else {
            return Ok(());
        };
        let there = *there;
        come_nearer(ahead, self.moves_into(place), &there, nearer)
    }

    /// The moves into a place.
    pub(crate) fn moves_into(&self, place: usize) -> &[Entry] {
        let first = self.first(place);
        match self.entries.get(first..self.first(place.saturating_add(1))) {
            Some(entries) => entries,
            None => &[],
        }
    }

    // The number of the first move into a place, or of what stands behind all.
    fn first(&self, place: usize) -> usize {
        match self.firsts.get(place) {
            Some(first) => *first,
            None => self.entries.len(),
        }
    }
}

// Of each place how many there are up to it, and of all.
fn sum_up(counts: &mut [usize]) -> usize {
    let mut sum = 0usize;
    for count in counts.iter_mut() {
        sum = sum.saturating_add(*count);
        *count = sum;
    }
    sum
}

// Adds the places that come nearer by moves to where it is so far.
fn come_nearer(
    ahead: &mut [Ahead],
    entries: &[Entry],
    there: &Ahead,
    nearer: &mut Vec<usize>,
) -> Result<(), NoMemory> {
    for entry in entries {
        if comes_nearer(ahead, entry, there) {
            nearer.push(entry.from)?;
        }
    }
    Ok(())
}

fn comes_nearer(ahead: &mut [Ahead], entry: &Entry, there: &Ahead) -> bool {
    let ticks = there.ticks.saturating_add(entry.ticks);
    let Some(here) = ahead.get_mut(entry.from) else {
        return false;
    };
    if here.ticks <= ticks {
        return false;
    }
    here.ticks = ticks;
    true
}
