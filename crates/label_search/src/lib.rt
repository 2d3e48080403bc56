//! The search for a path that leaves last as early as can be, over places with windows of ticks.
#![tactic(auto)]

mod bounding;
mod chart_loans;
mod charts;
mod distances;
mod endings;
mod finds;
mod firsts;
mod labels;
mod laws;
mod lent;
mod lent_limits;
mod limits;
mod nearing;
mod paths;
mod plans;
mod queues;
mod roads;
mod searches;
mod seeks;
mod seen;
mod stays;
mod stretches;
mod sum_loans;

pub use bounding::bounds;
pub use charts::{Chart, ChartCall, ChartSpot, ChartWay};
pub use endings::{ends_are_shut, spots_before};
pub use finds::{Finding, find, find_below, find_lent};
pub use labels::{Label, Origin};
pub use laws::{
    aheads_are_consistent, closed_below_all_is_closed, closed_below_excludes_earlier_paths,
    closed_members_exclude_paths, limits_are_these,
};
pub use lent::{LentPlan, way_on_chart};
pub use lent_limits::Aheads;
pub use limits::{Ahead, Limits};
pub use nearing::{Near, near_to, rests_of};
pub use plans::{LATEST, Member, Move, Place, Plan, Step, Target, Trip};
pub use roads::Roads;
pub use seeks::{Sought, search, seek, seek_lent};
