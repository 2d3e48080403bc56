//! The chart of a train: its spots, with what each way between them takes.

ghost use Rattle.std.specs.Prelude.{◌≡◌, ◌↔◌, ◌<◌, ◌≤◌, ◌^◌, ◌++◌, [], false, true};
ghost use Rattle.std.specs.Prelude.{All, IfOk, IsTrue, None, length, map};
ghost use Rattle.rail_types.specs.Flaws.{first_flaw};
ghost use Rattle.rail_types.specs.Limits.{IsSettingsWithinLimits, IsTrainWithinLimits};
ghost use Rattle.stair_pieces.specs.Pieces.{kept};
ghost use Rattle.stair_pieces.specs.Places.{standing_zones};
ghost use Rattle.stair_pieces.specs.Steps.{IsPlaceIn, IsTailIn};
ghost use Rattle.tail_states.specs.declared.listed_spots.TheConstants.{MAX_SPOTS};
ghost use Rattle.tail_states.specs.Following.{AreFollowers};
ghost use Rattle.tail_states.specs.Spots.{AreFewEnough, AreSpots};
ghost use Rattle.label_search.specs.Nearing.{HaveShortRuns};
ghost use Rattle.path_labels.specs.declared.kept_nears.TheConstants.{MAX_NEARS};
ghost use Rattle.path_labels.specs.KeptNears.{AreNearAt, GoOn, IsNearKept};
ghost use Rattle.path_labels.specs.TrainCharts.{AreCharted, IsChartOf, IsChartedAt};
ghost use Rattle.path_labels.specs.TrainCharts.{spot_in, way_in};

use crate::kept_nears::Nears;
use crate::paths::is_still;
use crate::request_plans::{push_kept, ticks_of};
use label_search::{Chart, ChartCall, ChartSpot, ChartWay, Roads};
use no_memory::NoMemory;
use rail_types::{Claim, List, Network, Request, Settings, Span, Train};
use stair_pieces::{Place, pieces, standing};
use std::alloc::Global;
use tail_states::{Followers, Spots, SpotsFault, Way, list_spots, sound_networks_are_run};

/// A train, its spots on a network, what their ways take, and how near the train is from each of
/// them to calls that were asked for.
#[derive(Drop)]
pub struct TrainChart {
    pub(crate) train: Train,
    pub(crate) spots: Spots,
    pub(crate) chart: Chart,
    pub(crate) roads: Roads,
    pub(crate) nears: Nears,
}

impl TrainChart {
    /// The chart of a train. Where it has more spots than are listed, it is `TooMany`.
    pub fn of(
        alloc: Global,
        net: &Network,
        settings: &Settings,
        followers: &Followers,
        train: &Train,
    ) -> Result<TrainChart, SpotsFault>
        requires flawless { first_flaw net.now ≡ None }
        requires settings { IsSettingsWithinLimits settings.now }
        requires followers { AreFollowers net.now followers.now }
        requires train { IsTrainWithinLimits train.now }
        ensures { IfOk result (IsChartOf net.now settings.now train.now) }
    {
        sound_networks_are_run();
        let spots = list_spots(alloc, net, followers, train)?;
        let chart = chart_of(alloc, net, settings, train, &spots)?;
        let roads = Roads::of(alloc, &chart)?;
        Ok(TrainChart {
            train: train.copy(alloc)?,
            spots,
            chart,
            roads,
            nears: Nears::new(alloc),
        })
    }

    /// Whether it is the chart of a train.
    pub fn is_of(&self, train: &Train) -> bool
        ensures { IsTrue result ↔ (self.now.train ≡ train.now) }
    {
        self.train.is_same(train)
    }

    /// Whether its spots are so few that the request has no more places than are searched.
    pub fn is_narrow(&self, request: &Request) -> bool
        ensures { IsTrue result → AreFewEnough request.now self.now.spots }
    {
        self.spots.are_few_enough(request)
    }

    /// Where it stands among what is kept how near the train is to each of these calls; what is not
    /// kept is worked out. `NoMemory` alone is refused.
    pub(crate) fn numbers_of_calls(
        &mut self,
        alloc: Global,
        calls: &[ChartCall],
    ) -> Result<Vec<usize>, NoMemory>
        requires runs { HaveShortRuns self.old.chart.spots }
        requires few { length calls.now ≤ MAX_NEARS }
        requires kept { All (IsNearKept self.old.chart.spots) self.old.nears }
        ensures train { self.new.train ≡ self.old.train }
        ensures spots { self.new.spots ≡ self.old.spots }
        ensures chart { self.new.chart ≡ self.old.chart }
        ensures kept { All (IsNearKept self.old.chart.spots) self.new.nears }
        ensures on { GoOn self.old.nears (length calls.now) self.new.nears }
        ensures numbers { IfOk result (λ numbers.
            AreNearAt self.new.nears calls.now numbers.items) }
    {
        let numbers = self
            .nears
            .numbers_of_calls(alloc, &self.chart, &self.roads, calls)?;
        Ok(numbers)
    }
}

// The chart of the spots of a train.
fn chart_of(
    alloc: Global,
    net: &Network,
    settings: &Settings,
    train: &Train,
    spots: &Spots,
) -> Result<Chart, NoMemory>
    requires settings { IsSettingsWithinLimits settings.now }
    requires spots { AreSpots net.now train.now spots.now }
    requires few { length spots.now.spots ≤ MAX_SPOTS }
    ensures { IfOk result (AreCharted net.now settings.now train.now spots.now) }
{
    let mut charted = List::new(alloc);
    for number in 0..spots.count() {
        charted.push(listed_spot(alloc, net, settings, train, spots, number as u32)?)?;
    }
    Ok(Chart { spots: charted })
}

fn listed_spot(
    alloc: Global,
    net: &Network,
    settings: &Settings,
    train: &Train,
    spots: &Spots,
    number: u32,
) -> Result<ChartSpot, NoMemory>
    requires settings { IsSettingsWithinLimits settings.now }
    requires spots { AreSpots net.now train.now spots.now }
    requires number { number < length spots.now.spots }
    ensures { IfOk result (IsChartedAt net.now settings.now train.now spots.now number) }
{
    let spot = spots.spot(number);
    let ways = spots.ways(number);
    let charted = charted_spot(alloc, net, settings, train, spot, ways)?;
    Ok(charted)
}

fn charted_spot(
    alloc: Global,
    net: &Network,
    settings: &Settings,
    train: &Train,
    spot: &Place,
    ways: &[Way],
) -> Result<ChartSpot, NoMemory>
    requires spot { IsPlaceIn net.now settings.now train.now spot.now }
    requires made { spot.now.made < 2 ^ 31 }
    requires steps { All (λ way. way.step.block < length net.now.blocks) ways.now }
    ensures { IfOk result (λ charted.
        charted ≡ spot_in net.now settings.now train.now spot.now ways.now) }
{
    let zones = standing(alloc, net, train, spot)?;
    let mut waits = Vec::new(alloc);
    push_kept(&mut waits, zones.as_slice(), &Span { from: 0, to: 1 })?;
    Ok(ChartSpot {
        standing: spot.standing,
        waits: List::from_vec(waits),
        ways: charted_ways(alloc, net, settings, train, spot, ways)?,
    })
}

fn charted_ways(
    alloc: Global,
    net: &Network,
    settings: &Settings,
    train: &Train,
    spot: &Place,
    ways: &[Way],
) -> Result<List<ChartWay>, NoMemory>
    requires spot { IsPlaceIn net.now settings.now train.now spot.now }
    requires made { spot.now.made < 2 ^ 31 }
    requires steps { All (λ way. way.step.block < length net.now.blocks) ways.now }
    ensures { IfOk result (λ charted.
        charted ≡ map (way_in net.now settings.now train.now spot.now) ways.now) }
{
    let mut charted = List::new(alloc);
    for way in ways {
        charted.push(charted_way(alloc, net, settings, train, spot, way)?)?;
    }
    Ok(charted)
}

/// A way of a train with what it takes.
pub(crate) fn charted_way(
    alloc: Global,
    net: &Network,
    settings: &Settings,
    train: &Train,
    spot: &Place,
    way: &Way,
) -> Result<ChartWay, NoMemory>
    requires spot { IsPlaceIn net.now settings.now train.now spot.now }
    requires made { spot.now.made < 2 ^ 31 }
    requires step { way.now.step.block < length net.now.blocks }
    ensures { IfOk result (λ charted.
        charted ≡ way_in net.now settings.now train.now spot.now way.now) }
{
    let after = spot.after(alloc, net, train, way.step)?;
    let ticks = ticks_of(net, settings, train, spot, way.step, &after);
    let claims = pieces(alloc, net, settings, train, spot, way.step)?;
    let halts = is_still(way.step.exit);
    let release = Span {
        from: ticks,
        to: ticks + i64::from(settings.release),
    };
    let ending = ending_of(
        alloc,
        net,
        train,
        halts,
        &after,
        claims.as_slice(),
        &release,
    )?;
    Ok(ChartWay {
        block: way.step.block,
        halts,
        next: way.next,
        run: ticks,
        pieces: List::from_vec(claims),
        ending: List::from_vec(ending),
    })
}

// What a train claims with a step where it halts and the path ends, its zones through their
// release; nothing is told of a step where it rolls on.
fn ending_of(
    alloc: Global,
    net: &Network,
    train: &Train,
    halts: bool,
    after: &Place,
    claims: &[Claim],
    release: &Span,
) -> Result<Vec<Claim>, NoMemory>
    requires tail { IsTailIn net.now train.now after.now.tail }
    ensures halted { IfOk result (λ ending. halts ≡ true → ending.items ≡ claims.now
        ++ kept (standing_zones net.now train.now after.now) release.now.from release.now.to) }
    ensures rolling { IfOk result (λ ending. halts ≡ false → ending.items ≡ []) }
{
    if !halts {
        return Ok(Vec::new(alloc));
    }
    let mut ending = Vec::from_slice(alloc, claims)?;
    let zones = standing(alloc, net, train, after)?;
    push_kept(&mut ending, zones.as_slice(), release)?;
    Ok(ending)
}
