//! How many spots trains have, which bounds how many places their requests have.

ghost use Rattle.std.specs.Prelude.{◌≡◌, ◌<◌, ◌≤◌, [], None, length, All, Contains, IfSome, IsTrue};
ghost use Rattle.rail_types.specs.declared.limits.TheConstants.{MAX_PLACES};
ghost use Rattle.rail_types.specs.Flaws.{first_flaw};
ghost use Rattle.rail_types.specs.Limits.{IsRequestWithinLimits};
ghost use Rattle.refusal_proof.specs.tails.Following.{AreFollowers};
ghost use Rattle.refusal_proof.specs.tails.Listed.{HasMoreThan};
ghost use Rattle.refusal_proof.specs.tails.Spots.{MayRun};
ghost use Rattle.check_command.specs.declared.counts.TheConstants.{MAX_COUNTS};
ghost use Rattle.check_command.specs.Counts.{AreCounted, HasSpots, IsAddedAlone};

use rail_types::{MAX_PLACES, Network, Request, Train};
use refusal_proof::tails::{
    Followers, list_spots, sound_networks_are_asked, sound_networks_are_run, spots_bound_places,
};
use std::alloc::Global;

// Greatest number of trains of which it is kept how many spots they have.
const MAX_COUNTS: usize = 64;

/// A train, and how many spots it has; None where they were not listed, since they are too many
/// or the memory was not there.
#[derive(Drop)]
pub(crate) struct TrainCount {
    pub(crate) train: Train,
    pub(crate) spots: Option<usize>,
}

/// How many spots trains have, the one behind the others that was counted last; at most
/// `MAX_COUNTS` are kept.
#[derive(Drop)]
pub(crate) struct SpotCounts {
    pub(crate) kept: Vec<TrainCount>,
}

// How many spots a train has, None where they are not listed.
fn count_spots(alloc: Global, net: &Network, followers: &Followers, train: &Train) -> Option<usize>
    requires may { MayRun net.now train.now }
    requires followers { AreFollowers net.now followers.now }
    ensures { IfSome result (HasSpots net.now train.now) }
{
    let Ok(spots) = list_spots(alloc, net, followers, train) else {
        return None;
    };
    Some(spots.count())
}

// What is kept of a train.
fn kept_of<'a>(counts: &'a [TrainCount], train: &Train) -> Option<&'a TrainCount>
    ensures among { IfSome result (λ one. Contains counts.now one.now) }
    ensures train { IfSome result (λ one. one.now.train ≡ train.now) }
{
    for one in counts {
        if one.train.is_same(train) {
            return Some(one);
        }
    }
    None
}

// Lets the first one go where no more are kept.
fn make_room(counts: &mut Vec<TrainCount>)
    ensures among { All (Contains counts.old.items) counts.new.items }
    ensures room { length counts.old.items ≤ MAX_COUNTS → length counts.new.items < MAX_COUNTS }
{
    if counts.len() >= MAX_COUNTS {
        counts.remove(0);
    }
}

impl SpotCounts {
    /// None yet.
    pub(crate) fn new(alloc: Global) -> SpotCounts
        ensures { result.kept.items ≡ [] }
    {
        SpotCounts {
            kept: Vec::new(alloc),
        }
    }

    // Keeps one behind the others, where there is memory for it.
    fn keep(&mut self, one: TrainCount)
        requires few { length self.old.kept.items ≤ MAX_COUNTS }
        ensures alone { IsAddedAlone one self.old.kept.items self.new.kept.items }
        ensures few { length self.new.kept.items ≤ MAX_COUNTS }
    {
        make_room(&mut self.kept);
        let _kept = self.kept.push(one);
    }

    // How many spots a train has, which is counted where it is not kept.
    fn spots_of(
        &mut self,
        alloc: Global,
        net: &Network,
        followers: &Followers,
        train: &Train,
    ) -> Option<usize>
        requires may { MayRun net.now train.now }
        requires followers { AreFollowers net.now followers.now }
        requires counts { AreCounted net.now self.old.kept.items }
        ensures counts { AreCounted net.now self.new.kept.items }
        ensures spots { IfSome result (HasSpots net.now train.now) }
    {
        if let Some(one) = kept_of(self.kept.as_slice(), train) {
            return one.spots;
        }
        let spots = count_spots(alloc, net, followers, train);
        if let Ok(train) = train.copy(alloc) {
            self.keep(TrainCount { train, spots });
        }
        spots
    }

    /// Whether the spots of its train are so few that a request has no more places than are listed.
    /// They are counted at the first request of a train, and again where others were counted
    /// meanwhile, so many as are kept.
    pub(crate) fn are_few(
        &mut self,
        alloc: Global,
        net: &Network,
        followers: &Followers,
        request: &Request,
    ) -> bool
        requires flawless { first_flaw net.now ≡ None }
        requires request { IsRequestWithinLimits request.now }
        requires followers { AreFollowers net.now followers.now }
        requires counts { AreCounted net.now self.old.kept.items }
        ensures counts { AreCounted net.now self.new.kept.items }
        ensures narrow { IsTrue result → ¬ HasMoreThan MAX_PLACES net.now request.now }
    {
        sound_networks_are_asked();
        sound_networks_are_run();
        spots_bound_places();
        match self.spots_of(alloc, net, followers, &request.train) {
            Some(spots) => spots * (request.stops.len() + 1) <= MAX_PLACES as usize,
            None => false,
        }
    }
}
