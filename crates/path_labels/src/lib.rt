//! The path of a request that leaves last as early as can be, or what shows that there is none;
//! and courses, which keep what a search needs of a request for the next one like it.
#![tactic(auto)]

mod answers;
mod chart_courses;
mod chart_seeks;
mod course_searches;
mod guides;
mod kept_charts;
mod kept_courses;
mod kept_nears;
mod laws;
mod members;
mod paths;
mod plan_searches;
pub mod request_plans;
mod seeks;
mod train_charts;

pub use answers::Sought;
pub use chart_courses::{ChartCourse, find_over};
pub use chart_seeks::seek_over;
pub use course_searches::{Course, find_along, seek_along};
pub use guides::{Guide, find_by, guides_are_narrow, guides_have_the_places, seek_by};
pub use kept_charts::{Charts, MAX_CHARTS};
pub use kept_courses::{Courses, KeptCourse, MAX_COURSES, MAX_KEPT_PLACES};
pub use kept_nears::MAX_NEARS;
pub use laws::{
    chart_courses_are_narrow, chart_courses_have_the_places, charts_are_planned,
    closed_plans_are_closed, courses_have_the_places, granted_paths_are_planned, limits_are_these,
    planned_paths_are_granted,
};
pub use seeks::{find, label_count, seek};
pub use stair_pieces as pieces;
pub use tail_states as tails;
pub use train_charts::TrainChart;
