//! What of a chart is lent, with what is known of it.

ghost use Rattle.std.specs.Prelude.{◌+◌, ◌<◌, ◌^◌, All};
ghost use Rattle.label_search.specs.Charts.{HasNumbers, LeadOnChart, number_over};

use crate::charts::{ChartCall, ChartSpot, ChartWay};

// Calls over a chart, from the ways of the start.
#[derive(Clone, Copy)]
pub(crate) struct Charted<'a> {
    pub(crate) spots: &'a [ChartSpot],
    pub(crate) starts: &'a [ChartWay],
    pub(crate) calls: &'a [ChartCall],
    ghost whole: { LeadOnChart spots.now starts.now },
    ghost numbers: { HasNumbers spots.now calls.now },
}

// The ways from a spot where so many of as many calls as there are levels are made.
#[derive(Clone, Copy)]
pub(crate) struct ChartedWays<'a> {
    pub(crate) call: &'a ChartCall,
    pub(crate) ways: &'a [ChartWay],
    pub(crate) levels: u32,
    pub(crate) made: u32,
    ghost few: { All (λ way. number_over levels way.next (made + 1) < 2 ^ 32) ways.now },
}
