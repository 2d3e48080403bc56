//! Work that a search has still to do, by the tick at which it is due.

ghost use Rattle.std.specs.Prelude.{◌≡◌, ◌⊎◌, ◌<◌, ◌≤◌, ◌∷◌, ◌++◌, [], ◌+ℤ◌, ◌<ℤ◌, ◌≤ℤ◌, pos, ℕ};
ghost use Rattle.std.specs.Prelude.{length, IfNone, IfSome, OnErr, OnOk, slice_set};
ghost use Rattle.std.specs.List.{slice_index_or};
ghost use Rattle.label_search.specs.Queues.{AreDueFrom, Waits};
ghost use Rattle.label_search.specs.declared.queues.Due.{Due as due_type};

use many_stacks::Stacks;
use no_memory::NoMemory;
use rail_types::Tick;
use std::alloc::Global;
use std::marker::Model;

// The last bucket; work that is due later than that is in it too.
const LAST_BUCKET: usize = 131_072;

// How much work room is made for at once: room that is not used is never touched and takes
// no memory, where a list that grows is copied.
const FIRST_WORK: usize = 32_768;

/// What is to be looked at from a label on.
#[derive(Clone, Copy)]
pub(crate) enum Work {
    /// All moves of the label, or the waits there.
    Leave,
    /// The waits of those that came at a tick or later.
    Wait { from: Tick },
    /// A move from a tick on.
    Move { number: usize, from: Tick },
}

/// Work of a label.
#[derive(Clone, Copy)]
pub(crate) struct Task {
    pub(crate) label: usize,
    pub(crate) work: Work,
}

/// Work with the least tick at which what it leads to can arrive.
#[derive(Clone, Copy)]
pub(crate) struct Due {
    pub(crate) tick: Tick,
    pub(crate) task: Task,
}

/// Work by the tick at which it is due: buckets for the ticks from a first one on,
/// where nothing waits before one.
#[derive(Drop)]
pub(crate) struct Queue {
    buckets: Stacks<Due>,
    first: usize,
    start: Tick,
}

impl Model for Queue {
    ghost use Rattle.label_search.specs.Queues.{IsQueue, Pending};

    ghost Value = { Pending };

    ghost view = { λ a. record { buckets = a.buckets; start = a.start } };

    ghost invariant = { λ a. IsQueue a.buckets a.first a.start };
}

impl Queue {
    // Nothing waits.
    pub(crate) fn new(alloc: Global) -> Queue
        ensures { result.buckets ≡ [] }
    {
        Queue {
            buckets: Stacks::with_room(alloc, FIRST_WORK),
            first: 0,
            start: 0,
        }
    }

    /// Adds work.
    #[inline(always)]
    pub(crate) fn push(&mut self, due: &Due) -> Result<(), NoMemory>
        ensures added { OnOk result (Waits self.new due.now) }
        ensures kept { (one : due_type) → Waits self.old one → Waits self.new one }
    {
        self.begin(due);
        let at = self.bucket_of(due);
        self.reach(at)?;
        self.put(at, due)
    }

    /// Takes out work that is due, or none where nothing is due before a tick.
    pub(crate) fn pop_before(&mut self, stop: &Tick) -> Option<Due>
        ensures some { IfSome result (λ due. (one : due_type) → Waits self.old one
            → Waits self.new one ⊎ (one ≡ due)) }
        ensures none { IfNone result (AreDueFrom self.old stop.now) }
    {
        let end = ticks_before(&self.start, stop).max(1);
        while self.first < self.buckets.len() && self.first < end {
            if let Some(due) = self.buckets.pop(self.first) {
                return Some(due);
            }
            self.first += 1;
        }
        None
    }

    // Where there are no buckets yet the first one is for this work.
    fn begin(&mut self, due: &Due)
        ensures { self.new.buckets ≡ self.old.buckets }
    {
        if self.buckets.len() == 0 {
            self.start = due.tick.max(0);
        }
    }

    fn bucket_of(&self, due: &Due) -> usize
        ensures { 0 < result → (self.now.start +ℤ pos result) ≤ℤ due.now.tick }
    {
        ticks_before(&self.start, &due.tick).min(LAST_BUCKET)
    }

    // Makes buckets up to a number; nothing else changes.
    fn reach(&mut self, at: usize) -> Result<(), NoMemory>
        ensures room { OnOk result (at < length self.new.buckets) }
        ensures start { self.new.start ≡ self.old.start }
        ensures kept { (one : ℕ) → slice_index_or self.new.buckets one []
            ≡ slice_index_or self.old.buckets one [] }
    {
        self.buckets.reach(at)
    }

    fn put(&mut self, at: usize, due: &Due) -> Result<(), NoMemory>
        requires room { at < length self.old.buckets }
        requires behind { 0 < at → (self.old.start +ℤ pos at) ≤ℤ due.now.tick }
        ensures added { OnOk result (self.new.buckets ≡ slice_set self.old.buckets at
            (slice_index_or self.old.buckets at [] ++ due.now ∷ [])) }
        ensures err { OnErr result (self.new.buckets ≡ self.old.buckets) }
    {
        self.buckets.push(at, *due)?;
        self.first = self.first.min(at);
        Ok(())
    }
}

// How many ticks lie before a tick from a start on.
fn ticks_before(start: &Tick, tick: &Tick) -> usize
    requires { pos 0 ≤ℤ start.now }
    ensures some { 0 < result → (start.now +ℤ pos result) ≡ tick.now }
    ensures none { result ≡ 0 → tick.now ≤ℤ start.now }
{
    if *tick <= *start {
        return 0;
    }
    (*tick - *start) as usize
}
