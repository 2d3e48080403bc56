//! What clients and workers have come to, told between their threads.

use std::alloc::{AllocError, Global};
use std::sync::Arc;
use std::sync::atomic::{AtomicU64, Ordering};
use std::thread;
use std::time::{Clock, Duration};

// How often one looks for what one waits for.
const LOOKS: u64 = 10_000_000;

// After so many looks the others are let run for a while.
const LOOKS_BEFORE_A_REST: u64 = 5_000;

/// How many replies were written to A and to B, the number of A's last search that found a path,
/// the numbers of all of these in turn, a decimal digit each, how many searches of workers found
/// one, and how many searches waited in vain.
#[derive(Drop)]
pub struct Signals {
    of_a: AtomicU64,
    of_b: AtomicU64,
    searches: AtomicU64,
    numbers: AtomicU64,
    of_workers: AtomicU64,
    in_vain: AtomicU64,
}

/// What is waited for: so many replies to A, to B, and so many searches of A and of workers.
#[derive(Clone, Copy, Debug)]
pub struct Awaited {
    pub of_a: u64,
    pub of_b: u64,
    pub searches: u64,
    pub of_workers: u64,
}

/// Whose replies are counted.
#[derive(Clone, Copy, Debug, PartialEq, Eq)]
pub enum Whose {
    OfA,
    OfB,
    Nobodys,
}

impl Signals {
    /// Nothing has come yet.
    pub fn new(alloc: Global) -> Result<Arc<Signals, Global>, AllocError> {
        let signals = Signals {
            of_a: AtomicU64::new(0),
            of_b: AtomicU64::new(0),
            searches: AtomicU64::new(0),
            numbers: AtomicU64::new(0),
            of_workers: AtomicU64::new(0),
            in_vain: AtomicU64::new(0),
        };
        Ok(Arc::new(alloc, signals)?)
    }

    /// Counts replies.
    pub fn count(&self, whose: Whose, replies: u64) {
        match whose {
            Whose::OfA => {
                self.of_a.fetch_add(replies, Ordering::SeqCst);
            }
            Whose::OfB => {
                self.of_b.fetch_add(replies, Ordering::SeqCst);
            }
            Whose::Nobodys => {}
        }
    }

    /// Tells that A's search of this number found a path.
    pub fn found(&self, search: u64) {
        let before = self.numbers.load(Ordering::SeqCst);
        let numbers = before.saturating_mul(10).saturating_add(search);
        self.numbers.store(numbers, Ordering::SeqCst);
        self.searches.store(search, Ordering::SeqCst);
    }

    /// The numbers of A's searches that found a path, in turn, a decimal digit each.
    pub fn numbers(&self) -> u64 {
        self.numbers.load(Ordering::SeqCst)
    }

    /// Tells that one more search of a worker found a path.
    pub fn found_by_worker(&self) {
        self.of_workers.fetch_add(1, Ordering::SeqCst);
    }

    /// How many searches of workers found a path.
    pub fn of_workers(&self) -> u64 {
        self.of_workers.load(Ordering::SeqCst)
    }

    /// How many searches waited in vain.
    pub fn in_vain(&self) -> u64 {
        self.in_vain.load(Ordering::SeqCst)
    }

    fn have_come(&self, awaited: &Awaited) -> bool {
        self.of_a.load(Ordering::SeqCst) >= awaited.of_a
            && self.of_b.load(Ordering::SeqCst) >= awaited.of_b
            && self.searches.load(Ordering::SeqCst) >= awaited.searches
            && self.of_workers.load(Ordering::SeqCst) >= awaited.of_workers
    }

    /// Waits until all has come that is awaited. False where one has looked for it in vain.
    pub fn wait<R: Clock>(&self, rt: &R, awaited: &Awaited) -> bool {
        for look in 0..LOOKS {
            if self.have_come(awaited) {
                return true;
            }
            if look % LOOKS_BEFORE_A_REST == LOOKS_BEFORE_A_REST - 1 {
                thread::sleep(rt, Duration::from_millis(1));
            }
        }
        false
    }

    /// Waits behind a search until all has come that is awaited, and counts a wait that is in vain.
    pub fn hold<R: Clock>(&self, rt: &R, awaited: &Awaited) {
        if !self.wait(rt, awaited) {
            self.in_vain.fetch_add(1, Ordering::SeqCst);
        }
    }
}
