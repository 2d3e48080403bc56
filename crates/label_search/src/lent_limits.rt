//! What a search may leave out as it looks at it: what is ahead of each place is listed, or is a
//! sum over a chart that is worked out when it is looked at. Contracts see the whole list.

ghost use Rattle.std.specs.Prelude.{◌≡◌, All, map};
ghost use Rattle.label_search.specs.Limits.{IsAhead, ahead_at as place_ahead};
ghost use Rattle.label_search.specs.Limits.{ahead_to as next_ahead};
ghost use Rattle.label_search.specs.Nearing.{
  AreNears,
  AreRests,
  HaveShortDwells,
  IsConsistentOver,
  aheads_over,
};

use crate::charts::{Chart, ChartCall};
use crate::laws::aheads_are_consistent;
use crate::lent::LentMove;
use crate::limits::{Ahead, Limits, ahead_at};
use crate::nearing::{Near, sum_of_place};
use crate::plans::Target;
use crate::sum_loans::Summed;
use rail_types::{List, Tick};
use std::marker::Model;

#[derive(Clone, Copy)]
enum AheadLender<'a> {
    Listed(&'a List<Ahead>),
    Summed(Summed<'a>),
}

/// What is ahead of each place, nothing where there is none, that is lent.
#[derive(Drop)]
pub struct Aheads<'a> {
    lender: AheadLender<'a>,
}

impl<'a> Model for Aheads<'a> {
    ghost use Rattle.std.specs.Prelude.{List as list_of};
    ghost use Rattle.label_search.specs.declared.limits.Ahead.{Ahead as ahead_type};

    ghost Value = { list_of ahead_type };

    ghost use Rattle.label_search.specs.LentLimits.{aheads_lent};

    ghost view = { λ a. aheads_lent a.lender };
}

/// What a search may leave out, that is lent.
#[derive(Drop)]
pub(crate) struct LentLimits<'a> {
    pub(crate) ahead: Aheads<'a>,
    pub(crate) below: Tick,
}

impl<'a> Model for LentLimits<'a> {
    ghost use Rattle.label_search.specs.declared.limits.Limits.{Limits as limits_type};

    ghost Value = { limits_type };

    ghost view = { λ a. record { ahead = a.ahead; below = a.below } };
}

impl<'a> Aheads<'a> {
    /// What is ahead by a list.
    pub fn listed(ahead: &'a List<Ahead>) -> Aheads<'a>
        ensures { result ≡ ahead.now }
    {
        Aheads {
            lender: AheadLender::Listed(ahead),
        }
    }

    /// What is ahead at each place of calls over a chart, by how near the train is to each of them
    /// and what is left behind each: its dwell where it stands, the way to its next call, and what
    /// is left behind that.
    pub fn summed(
        chart: &'a Chart,
        calls: &'a List<ChartCall>,
        nears: &'a [&'a Near],
        rests: &'a List<Ahead>,
    ) -> Aheads<'a>
        requires dwells { HaveShortDwells calls.now }
        requires nears { AreNears chart.now.spots calls.now (map (λ near. near.now) nears.now) }
        requires rests { AreRests chart.now.spots calls.now (map (λ near. near.now) nears.now)
            rests.now }
        ensures sums { result ≡ aheads_over chart.now.spots calls.now
            (map (λ near. near.now) nears.now) rests.now }
        ensures ahead { All IsAhead result }
        ensures consistent { IsConsistentOver chart.now.spots calls.now result }
    {
        aheads_are_consistent();
        Aheads {
            lender: AheadLender::Summed(Summed {
                chart,
                calls,
                nears,
                rests,
            }),
        }
    }

    // The same, lent once more.
    pub(crate) fn again(&self) -> Aheads<'a>
        ensures { result ≡ self.now }
    {
        Aheads {
            lender: self.lender,
        }
    }

    // What is ahead of a place.
    fn at(&self, place: usize) -> Ahead
        requires { All IsAhead self.now }
        ensures value { result ≡ place_ahead self.now place }
        ensures ahead { IsAhead result }
    {
        match &self.lender {
            AheadLender::Listed(ahead) => ahead_at(ahead, place),
            AheadLender::Summed(summed) => sum_of_place(
                summed.chart,
                summed.calls,
                summed.nears,
                summed.rests,
                place,
            ),
        }
    }
}

impl<'a> LentLimits<'a> {
    // Limits by what they list.
    pub(crate) fn listed(limits: &'a Limits) -> LentLimits<'a>
        ensures { result ≡ limits.now }
    {
        LentLimits {
            ahead: Aheads::listed(&limits.ahead),
            below: limits.below,
        }
    }

    // What is ahead of a place.
    pub(crate) fn ahead_at(&self, place: usize) -> Ahead
        requires { All IsAhead self.now.ahead }
        ensures value { result ≡ place_ahead self.now.ahead place }
        ensures ahead { IsAhead result }
    {
        self.ahead.at(place)
    }

    // What is ahead of where a move leads.
    pub(crate) fn ahead_to(&self, step: &LentMove) -> Ahead
        requires { All IsAhead self.now.ahead }
        ensures value { result ≡ next_ahead self.now.ahead step.now.target }
        ensures ahead { IsAhead result }
    {
        match step.target() {
            Target::Place(place) => self.ahead_at(place as usize),
            Target::End => Ahead { ticks: 0 },
        }
    }

    // The tick below which a path is to end.
    pub(crate) fn below(&self) -> Ahead
        ensures { result.ticks ≡ self.now.below }
    {
        Ahead { ticks: self.below }
    }
}
