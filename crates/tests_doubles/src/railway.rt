//! A network and a request, as the lines of a table make them.

ghost use Rattle.std.specs.Prelude.{IfOk, IfSome};
ghost use Rattle.rail_types.specs.Limits.{IsRequestWithinLimits, IsSettingsWithinLimits};

use crate::comparisons::{Compared, compare, counted, labels};
use crate::made::{Trip, block, request, settings, train};
use no_memory::NoMemory;
use rail_types::{Claim, List, Network, Request, Settings, Stop};
use std::alloc::Global;
use tail_states::PlacesFault;

/// What is asked: a train, from where to where and when, and beside which claims.
#[derive(Drop)]
pub struct Railway {
    pub net: Network,
    pub length_m: u32,
    pub speed: u32,
    pub setting: u32,
    pub release: u32,
    pub horizon: u32,
    pub has_loss: bool,
    pub trip: Trip,
    pub stops: Vec<Stop>,
    pub claims: Vec<Claim>,
}

impl Railway {
    /// No blocks, and this many operational points.
    pub fn new(alloc: Global, stops: u32) -> Railway {
        Railway {
            net: Network {
                zones: 0,
                points: 1,
                stops,
                blocks: List::new(alloc),
            },
            length_m: 400,
            speed: 20_000,
            setting: 1,
            release: 1,
            horizon: 17_280,
            has_loss: false,
            trip: Trip {
                origin: 0,
                destination: 0,
                depart: (0, 0),
                arrive: (0, 0),
            },
            stops: Vec::new(alloc),
            claims: Vec::new(alloc),
        }
    }

    /// Puts blocks behind the last, side by side, each with a zone of its own.
    pub fn add_blocks(
        &mut self,
        alloc: Global,
        count: u32,
        sizes: [u32; 3],
        serves: &[u32],
    ) -> Result<(), NoMemory> {
        let point = self.net.points.saturating_sub(1);
        for _ in 0..count {
            let cells = [(self.net.zones, sizes[0])];
            let ends = (point, self.net.points);
            let added = block(alloc, sizes, &cells, ends, serves)?;
            self.net.blocks.push(added)?;
            self.net.zones = self.net.zones.saturating_add(1);
        }
        self.net.points = self.net.points.saturating_add(1);
        Ok(())
    }

    // The settings.
    fn settings(&self) -> Settings
        ensures { IsSettingsWithinLimits result }
    {
        settings(self.setting, self.release, self.horizon, self.has_loss)
    }

    // The request. None where its stops are past their limits.
    fn request(&self, alloc: Global) -> Result<Option<Request>, NoMemory>
        ensures { IfOk result (λ made. IfSome made IsRequestWithinLimits) }
    {
        let train = train(alloc, self.length_m, self.speed)?;
        request(alloc, &train, &self.trip, self.stops.as_slice())
    }

    /// Asks the search and its double.
    pub fn compare(&self, alloc: Global) -> Result<Compared, NoMemory> {
        let Some(request) = self.request(alloc)? else {
            return Ok(Compared::NotAsked);
        };
        let settings = self.settings();
        compare(
            alloc,
            &self.net,
            &settings,
            self.claims.as_slice(),
            &request,
        )
    }

    /// How many labels the search keeps beside no claims. None where it is not asked.
    pub fn count_labels(&self, alloc: Global) -> Result<Option<u64>, NoMemory> {
        let Some(request) = self.request(alloc)? else {
            return Ok(None);
        };
        labels(alloc, &self.net, &self.settings(), &request)
    }

    /// How many places the request has, or why they are not listed. None where it is not asked.
    pub fn count_places(
        &self,
        alloc: Global,
    ) -> Result<Option<Result<usize, PlacesFault>>, NoMemory> {
        let Some(request) = self.request(alloc)? else {
            return Ok(None);
        };
        Ok(counted(alloc, &self.net, &request))
    }
}
