//! Sources whose lines wait, sinks whose replies are counted, and pauses between searches.

ghost use Rattle.std.specs.Prelude.{◌≡◌, ◌≤◌, length, None};

use crate::signals::{Awaited, Signals, Whose};
use outside_io::{Between, Failed, MemSink, Sink, Source};
use std::alloc::Global;
use std::sync::Arc;
use std::time::Clock;

/// A source of lines, each of which waits. A line that waits in vain is a fault. It
/// tells only its count of faults.
#[derive(Drop)]
pub struct Paced {
    pub rt: HostRuntime,
    pub signals: Arc<Signals, Global>,
    pub bytes: Vec<u8>,
    pub waits: Vec<Awaited>,
    pub at: usize,
    pub lines: usize,
    pub faults: u64,
}

/// A sink in memory whose replies are counted. It tells only its count of faults.
#[derive(Drop)]
pub struct Heard {
    pub inside: MemSink,
    pub whose: Whose,
    pub signals: Arc<Signals, Global>,
    pub faults: u64,
}

/// What happens behind the searches of a client that found a path. Each search of A tells of
/// itself, and waits for so many replies to B. Each search of a worker tells of itself, and waits
/// until so many searches of workers have.
#[derive(Drop)]
pub enum Pause {
    ForReplies {
        rt: HostRuntime,
        signals: Arc<Signals, Global>,
        replies: Vec<u64>,
    },
    ForWorkers {
        rt: HostRuntime,
        signals: Arc<Signals, Global>,
        searches: u64,
    },
    Nothing,
}

// The line in front, with its end, and as much of it as there is room for.
fn line_in_front(bytes: &[u8], room: usize) -> &[u8] {
    let end = match bytes.iter().position(|byte| *byte == b'\n') {
        Some(at) => at.saturating_add(1),
        None => bytes.len(),
    };
    match bytes.split_at_checked(end.min(room)) {
        Some((front, _)) => front,
        None => bytes,
    }
}

impl Paced {
    // Whether the line that comes next has what it waits for.
    fn may_go_on(&self) -> bool {
        match self.waits.get(self.lines) {
            Some(awaited) => self.signals.wait(&self.rt, awaited),
            None => true,
        }
    }

    fn left(&self) -> &[u8] {
        match self.bytes.as_slice().split_at_checked(self.at) {
            Some((_, left)) => left,
            None => &[],
        }
    }
}

// Copies a line to the front of a buffer, as much as fits, and tells how much.
fn copy_line(line: &[u8], into: &mut [u8]) -> usize
    ensures count { result ≤ length into.new }
    ensures room { length into.new ≡ length into.old }
{
    let count = line.len().min(into.len());
    into[..count].copy_from_slice(&line[..count]);
    count
}

impl Source for Paced {
    ghost left = { λ _. None };

    ghost faults = { λ s. s.faults };

    fn read(&mut self, into: &mut [u8]) -> Result<usize, Failed> {
        if !self.left().is_empty() && !self.may_go_on() {
            self.faults = self.faults.saturating_add(1);
            return Err(Failed);
        }
        let line = line_in_front(self.left(), into.len());
        let is_ended = line.last() == Some(&b'\n');
        let count = copy_line(line, into);
        self.at = self.at.saturating_add(count);
        if is_ended {
            self.lines = self.lines.saturating_add(1);
        }
        Ok(count)
    }
}

// How many lines end in these bytes.
fn ends_in(bytes: &[u8]) -> u64 {
    let mut ends = 0u64;
    for byte in bytes {
        if *byte == b'\n' {
            ends = ends.saturating_add(1);
        }
    }
    ends
}

impl Sink for Heard {
    ghost held = { λ _. None };

    ghost faults = { λ s. s.faults };

    fn write(&mut self, piece: &[u8]) -> Result<usize, Failed> {
        let Ok(count) = self.inside.write(piece) else {
            self.faults = self.faults.saturating_add(1);
            return Err(Failed);
        };
        if count == piece.len() {
            self.signals.count(self.whose, ends_in(piece));
        }
        Ok(count)
    }
}

// Tells that a search of A has found a path, and waits for the replies
// to B that stand at its number.
fn wait_for_replies<R: Clock>(
    rt: &R,
    signals: &Arc<Signals, Global>,
    search: u32,
    replies: &[u64],
) {
    signals.found(u64::from(search));
    let Some(replies) = replies.get((search as usize).saturating_sub(1)) else {
        return;
    };
    let awaited = Awaited {
        of_a: 0,
        of_b: *replies,
        searches: 0,
        of_workers: 0,
    };
    signals.hold(rt, &awaited);
}

// Tells that a search of a worker has found a path, and waits until so many have.
fn wait_for_workers<R: Clock>(rt: &R, signals: &Arc<Signals, Global>, searches: u64) {
    signals.found_by_worker();
    let awaited = Awaited {
        of_a: 0,
        of_b: 0,
        searches: 0,
        of_workers: searches,
    };
    signals.hold(rt, &awaited);
}

impl Between for Pause {
    fn between(&mut self, search: u32) {
        match &*self {
            Pause::ForReplies {
                rt,
                signals,
                replies,
            } => wait_for_replies(rt, signals, search, replies),
            Pause::ForWorkers {
                rt,
                signals,
                searches,
            } => wait_for_workers(rt, signals, *searches),
            Pause::Nothing => {}
        }
    }
}
