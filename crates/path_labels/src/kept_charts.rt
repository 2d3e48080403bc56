//! Charts that are kept for the next requests of their trains.

ghost use Rattle.std.specs.Prelude.{◌≡◌, ◌++◌, ◌∷◌, [], All, IfNone, IfOk, IfSome};
ghost use Rattle.std.specs.Prelude.{vec_capacity};
ghost use Rattle.path_labels.specs.TrainCharts.{IsChartAmong, IsChartAt, IsChartTakenOut};
ghost use Rattle.path_labels.specs.TrainCharts.{StayCharts, StayChartsWith, with_chart_room};

use crate::TrainChart;
use no_memory::NoMemory;
use rail_types::Train;
use std::alloc::Global;
use std::marker::Model;

/// Greatest number of charts that are kept.
pub const MAX_CHARTS: usize = 8;

/// Charts that are kept, the one that was kept last behind the others: at most `MAX_CHARTS`, each
/// of at most `MAX_SPOTS` spots; and as many trains at most that have more spots. Contracts see the
/// list of the charts.
#[derive(Drop)]
pub struct Charts {
    kept: Vec<TrainChart>,
    wide: Vec<Train>,
}

impl Model for Charts {
    ghost use Rattle.std.specs.Prelude.{◌≤◌, List as list_of, length, vec_capacity};
    ghost use Rattle.path_labels.specs.declared.kept_charts.TheConstants.{MAX_CHARTS};
    ghost use Rattle.path_labels.specs.declared.train_charts.TrainChart.{TrainChart as one_chart};

    ghost Value = { list_of one_chart };

    ghost view = { λ a. a.kept.items };

    ghost invariant = { λ a. record {
      few : length a.kept.items ≤ MAX_CHARTS;
      room : MAX_CHARTS ≤ vec_capacity a.kept;
      few_wide : length a.wide.items ≤ MAX_CHARTS;
      room_for_wide : MAX_CHARTS ≤ vec_capacity a.wide;
    } };
}

impl Charts {
    /// None yet. The memory for as many as are kept is taken here; `NoMemory` alone is refused.
    pub fn new(alloc: Global) -> Result<Charts, NoMemory>
        ensures { IfOk result (λ charts. charts ≡ []) }
    {
        Ok(Charts {
            kept: Vec::with_capacity(alloc, MAX_CHARTS)?,
            wide: Vec::with_capacity(alloc, MAX_CHARTS)?,
        })
    }

    /// Hands out the chart that is kept for a train, if there is one; it is kept no more.
    pub fn take(&mut self, train: &Train) -> Option<TrainChart>
        ensures taken { IfSome result (IsChartTakenOut self.old self.new train.now) }
        ensures some { IfSome result (IsChartAmong self.old train.now) }
        ensures none { IfNone result (All (λ kept. ¬ (kept.train ≡ train.now)) self.old) }
        ensures same { IfNone result (self.new ≡ self.old) }
        ensures kept { StayCharts self.old self.new }
    {
        let Some(at) = first_of(self.kept.as_slice(), train) else {
            return None;
        };
        let one = self.kept.remove(at);
        Some(one)
    }

    /// Keeps a chart behind the others; of `MAX_CHARTS` the first one is let go for it.
    pub fn keep(&mut self, chart: TrainChart)
        ensures at { self.new ≡ with_chart_room self.old ++ chart ∷ [] }
        ensures kept { StayChartsWith chart self.old self.new }
    {
        make_room(&mut self.kept);
        self.kept.push_reserved(chart);
    }

    /// Whether a train is noted as one with more spots than are listed.
    pub fn is_wide(&self, train: &Train) -> bool {
        self.wide.iter().any(|wide| wide.is_same(train))
    }

    /// Notes that a train has more spots than are listed; of `MAX_CHARTS` such trains the first one
    /// is forgotten for it. Where memory is wanted, nothing is noted.
    pub fn note_wide(&mut self, alloc: Global, train: &Train)
        ensures { self.new ≡ self.old }
    {
        let Ok(train) = train.copy(alloc) else {
            return;
        };
        if self.wide.len() >= MAX_CHARTS {
            self.wide.remove(0);
        }
        self.wide.push_reserved(train);
    }
}

// Where the first chart of a train stands.
fn first_of(charts: &[TrainChart], train: &Train) -> Option<usize>
    ensures some { IfSome result (IsChartAt charts.now train.now) }
    ensures none { IfNone result (All (λ kept. ¬ (kept.train ≡ train.now)) charts.now) }
{
    for at in 0..charts.len() {
        if charts[at].is_of(train) {
            return Some(at);
        }
    }
    None
}

// Lets the first chart go where no more could be kept.
fn make_room(charts: &mut Vec<TrainChart>)
    ensures items { charts.new.items ≡ with_chart_room charts.old.items }
    ensures room { vec_capacity charts.new ≡ vec_capacity charts.old }
{
    if charts.len() >= MAX_CHARTS {
        charts.remove(0);
    }
}
