//! The laws that join what is planned of a request to the request, each on a function
//! that calls other laws alone.

ghost use Rattle.std.specs.Prelude.{◌≡◌};
ghost use Rattle.path_labels.specs.ChartCourses.{
  ChartCoursesAreNarrow,
  ChartCoursesHaveThePlaces,
  ChartsArePlanned,
};
ghost use Rattle.path_labels.specs.Courses.{CoursesHaveThePlaces};
ghost use Rattle.path_labels.specs.Joining.{
  ClosedPlansAreClosed,
  GrantedPathsArePlanned,
  PlannedPathsAreGranted,
};

use crate::kept_charts::MAX_CHARTS;
use crate::kept_courses::{MAX_COURSES, MAX_KEPT_PLACES};
use crate::kept_nears::MAX_NEARS;
use crate::request_plans::plans_over_may_be_searched;
use stair_pieces::{a_path_fits_run_by_run, a_path_is_a_list_of_moves, moves_make_a_path};
use tail_states::{
    MAX_SPOTS, sound_networks_are_asked, spots_bound_places, windows_change_no_places,
};

/// The runs of a path of a request's plan that fits are a path that can be granted, which
/// leaves last at the same tick.
pub fn planned_paths_are_granted()
    ensures { PlannedPathsAreGranted }
{
    moves_make_a_path();
    a_path_fits_run_by_run();
}

/// To each path that can be granted there is one of the request's plan that fits, and
/// leaves last at the same tick.
pub fn granted_paths_are_planned()
    ensures { GrantedPathsArePlanned }
{
    a_path_is_a_list_of_moves();
    a_path_fits_run_by_run();
}

/// Members that are closed for the plan of a request, or for it with a window of arrival that ends
/// earlier, are closed for that request when they are told by their places.
pub fn closed_plans_are_closed()
    ensures { ClosedPlansAreClosed }
{
    windows_change_no_places();
}

/// The course of a request has its places, and the request has no more than are searched.
pub fn courses_have_the_places()
    ensures { CoursesHaveThePlaces }
{
    windows_change_no_places();
}

/// The limits of the courses and charts that are kept.
pub fn limits_are_these()
    ensures charts { MAX_CHARTS ≡ 8 }
    ensures spots { MAX_SPOTS ≡ 16384 }
    ensures nears { MAX_NEARS ≡ 128 }
    ensures courses { MAX_COURSES ≡ 16 }
    ensures kept_places { MAX_KEPT_PLACES ≡ 32768 }
{}

/// A request that has a course over the chart of its train has no more places than are searched.
pub fn chart_courses_are_narrow()
    ensures { ChartCoursesAreNarrow }
{
    sound_networks_are_asked();
    spots_bound_places();
}

/// The places of a request that has such a course can be listed, no more than are searched: they
/// are those that moves lead to from the start.
pub fn chart_courses_have_the_places()
    ensures { ChartCoursesHaveThePlaces }
{
    charts_are_planned();
    chart_courses_are_narrow();
}

/// What a request asks of the chart of its train is planned: from each of the places exactly the
/// moves of the request. Such a plan may be lent and searched.
pub fn charts_are_planned()
    ensures { ChartsArePlanned }
{
    plans_over_may_be_searched();
}
