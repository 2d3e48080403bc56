//! What of the sums over a chart is lent, with what is known of it.

ghost use Rattle.std.specs.Prelude.{All, map};
ghost use Rattle.label_search.specs.Limits.{IsAhead};
ghost use Rattle.label_search.specs.Nearing.{AreNears, HaveShortDwells};

use crate::charts::{Chart, ChartCall};
use crate::limits::Ahead;
use crate::nearing::Near;
use rail_types::List;

// Calls over a chart, how near the train is to each of them, and what is left behind each.
#[derive(Clone, Copy)]
pub(crate) struct Summed<'a> {
    pub(crate) chart: &'a Chart,
    pub(crate) calls: &'a List<ChartCall>,
    pub(crate) nears: &'a [&'a Near],
    pub(crate) rests: &'a List<Ahead>,
    ghost dwells: { HaveShortDwells calls.now },
    ghost near: { AreNears chart.now.spots calls.now (map (λ one. one.now) nears.now) },
    ghost left: { All IsAhead rests.now },
}
