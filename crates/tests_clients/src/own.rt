//! A rule of the table's own, which is watched.

ghost use Rattle.admission_rules.specs.Senses.{numbers_of};
ghost use Rattle.tests_clients.specs.Own.{allows_nothing};

use admission_rules::rule_names::RuleName;
use admission_rules::{Rule, Tally, Wish};
use rail_types::Window;
use std::alloc::{AllocError, Global};
use std::sync::Arc;
use std::sync::atomic::{AtomicI64, AtomicU32, AtomicU64, Ordering};

/// How often a rule's tally was read, how often the rule was dropped, how often its tally had been
/// read by then, and the wish that it was asked of last.
#[derive(Drop)]
pub struct Watched {
    tallies: AtomicU64,
    drops: AtomicU64,
    tallies_at_drop: AtomicU64,
    // 0 where it was asked of none
    length_m: AtomicU32,
    depart: Ticks,
    arrive: Ticks,
}

// The first and the last tick of a window.
#[derive(Drop)]
struct Ticks {
    from: AtomicI64,
    to: AtomicI64,
}

impl Ticks {
    fn new() -> Ticks {
        Ticks {
            from: AtomicI64::new(0),
            to: AtomicI64::new(0),
        }
    }

    fn note(&self, window: &Window) {
        self.from.store(window.from, Ordering::SeqCst);
        self.to.store(window.to, Ordering::SeqCst);
    }

    fn window(&self) -> Window {
        Window {
            from: self.from.load(Ordering::SeqCst),
            to: self.to.load(Ordering::SeqCst),
        }
    }
}

impl Watched {
    /// Nothing was done with the rule yet.
    pub fn new(alloc: Global) -> Result<Arc<Watched, Global>, AllocError> {
        let watched = Watched {
            tallies: AtomicU64::new(0),
            drops: AtomicU64::new(0),
            tallies_at_drop: AtomicU64::new(0),
            length_m: AtomicU32::new(0),
            depart: Ticks::new(),
            arrive: Ticks::new(),
        };
        Ok(Arc::new(alloc, watched)?)
    }

    /// How often the tally was read.
    pub fn tallies(&self) -> u64 {
        self.tallies.load(Ordering::SeqCst)
    }

    /// How often the rule was dropped.
    pub fn drops(&self) -> u64 {
        self.drops.load(Ordering::SeqCst)
    }

    /// How often the tally had been read when the rule was dropped last.
    pub fn tallies_at_drop(&self) -> u64 {
        self.tallies_at_drop.load(Ordering::SeqCst)
    }

    /// The wish that the rule was asked of last, if it was asked.
    pub fn wish(&self) -> Option<Wish> {
        let length_m = self.length_m.load(Ordering::SeqCst);
        if length_m == 0 {
            return None;
        }
        Some(Wish {
            length_m,
            depart: self.depart.window(),
            arrive: self.arrive.window(),
        })
    }

    fn note(&self, wish: &Wish) {
        self.length_m.store(wish.length_m, Ordering::SeqCst);
        self.depart.note(&wish.depart);
        self.arrive.note(&wish.arrive);
    }

    fn count_tally(&self) {
        self.tallies.fetch_add(1, Ordering::SeqCst);
    }

    fn count_drop(&self) {
        self.drops.fetch_add(1, Ordering::SeqCst);
        self.tallies_at_drop
            .store(self.tallies.load(Ordering::SeqCst), Ordering::SeqCst);
    }
}

/// The rule `own-7`, which allows nothing. It tells what it is asked, when its tally is read, and
/// when it is dropped.
pub struct Own {
    watched: Arc<Watched, Global>,
    tally: Tally,
}

impl Own {
    /// A rule that was told of no path.
    pub fn new(watched: Arc<Watched, Global>) -> Own {
        let tally = Tally {
            granted: 0,
            freed: 0,
        };
        Own { watched, tally }
    }
}

impl Drop for Own {
    fn drop(self) {
        let Own {
            watched,
            tally: _tally,
        } = self;
        watched.count_drop();
    }
}

impl Rule for Own {
    ghost sense = { λ _. allows_nothing };

    ghost numbers = { λ rule. numbers_of rule.tally };

    fn name(&self) -> RuleName {
        RuleName::Own(7)
    }

    fn allows(&self, wish: &Wish) -> bool {
        self.watched.note(wish);
        false
    }

    fn granted(&mut self, _wish: &Wish) {
        self.tally.granted = self.tally.granted.saturating_add(1);
    }

    fn freed(&mut self, _wish: &Wish) {
        self.tally.freed = self.tally.freed.saturating_add(1);
    }

    fn tally(&self) -> Tally {
        self.watched.count_tally();
        self.tally
    }
}
