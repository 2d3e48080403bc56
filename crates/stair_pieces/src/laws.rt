//! The laws that join a path's steps and moves to its stairway and rules, each on a
//! function that calls others alone.

ghost use Rattle.stair_pieces.specs.Claiming.{
  PiecesAreClaims,
  StandingZonesAreOfTheNetwork,
  StepsLeadToPlaces,
};
ghost use Rattle.stair_pieces.specs.Places.{TailsAreLongest};
ghost use Rattle.stair_pieces.specs.Joining.{StepsAreTheStairway};
ghost use Rattle.stair_pieces.specs.Moves.{MovesAreAPath, PathsAreMoves};
ghost use Rattle.stair_pieces.specs.Fitting.{FitsRunByRun};

use blocking_time::{
    joined_claims_are_one, joined_claims_fit_alike, legs_are_the_runs, stairways_have_ticks,
    the_first_broken_rule_is_told,
};
use rail_types::networks_without_flaws;

/// The stairway of a path that keeps what it is held to covers, zone by zone, the ticks that its
/// steps cover: the pieces of each step from its enter tick on, the standing zones over each wait,
/// and over the release behind the last run.
pub fn steps_are_the_stairway()
    ensures { StepsAreTheStairway }
{
    networks_without_flaws();
    legs_are_the_runs();
    the_first_broken_rule_is_told();
    joined_claims_are_one();
}

/// A path that keeps what it is held to clashes with no claim of a list exactly where each of its
/// runs is free: the pieces of the step that it makes from its place, and the zones kept over the
/// wait behind it.
pub fn a_path_fits_run_by_run()
    ensures { FitsRunByRun }
{
    networks_without_flaws();
    legs_are_the_runs();
    the_first_broken_rule_is_told();
    stairways_have_ticks();
    joined_claims_fit_alike();
}

/// The runs of a path that keeps a request are moves of the request, of which the last alone is an
/// end, and the places behind the others are places of the request.
pub fn a_path_is_a_list_of_moves()
    ensures { PathsAreMoves }
{
    legs_are_the_runs();
    the_first_broken_rule_is_told();
}

/// Moves of a request, of which the last alone is an end, that take their running times and dwells
/// within its windows are a path that keeps the request.
pub fn moves_make_a_path()
    ensures { MovesAreAPath }
{
    legs_are_the_runs();
    the_first_broken_rule_is_told();
}

/// The tail of a place is the longest end of all blocks run in which those behind the first are
/// together shorter than the train.
pub fn tails_are_longest()
    ensures { TailsAreLongest }
{}

/// The pieces of a step from a place have ticks, which are near, on zones of a network without a
/// flaw; and so are the zones that a train keeps while it waits there; and each step leads to a
/// place of which the same is true.
pub fn pieces_are_claims()
    ensures pieces { PiecesAreClaims }
    ensures standing { StandingZonesAreOfTheNetwork }
    ensures places { StepsLeadToPlaces }
{
    networks_without_flaws();
}
