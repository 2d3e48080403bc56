//! Laws of the definitions, each on a function that does nothing.

ghost use Rattle.blocking_time.specs.Laws.{
  JoinedClaimsAreOne,
  JoinedFitAlike,
  LegsAreTheRuns,
  StairwaysAreNear,
  StairwaysHaveTicks,
  TheFirstIsTold,
};

/// The run and the rule that are told of a path are the first that is broken: of the
/// rules of runs run by run, else of those of the request rule by rule. None are told
/// exactly of a path that keeps all.
pub fn the_first_broken_rule_is_told()
    ensures { TheFirstIsTold }
{}

/// Joined claims stand by zone, then by begin, with a tick between any two of a zone, and cover the
/// same ticks; no other list of claims does.
pub fn joined_claims_are_one()
    ensures { JoinedClaimsAreOne }
{}

/// Of claims that all have ticks: joined claims clash with none of a list exactly where those that
/// they were joined from do not.
pub fn joined_claims_fit_alike()
    ensures { JoinedFitAlike }
{}

/// A path that keeps the rules of runs blocks each zone that it passes for a tick at least.
pub fn stairways_have_ticks()
    ensures { StairwaysHaveTicks }
{}

/// A path that keeps the rules of runs blocks its zones from no earlier and to no later than claims
/// that are held may begin and end.
pub fn stairways_are_near()
    ensures { StairwaysAreNear }
{}

#[doc(hidden)]
pub fn legs_are_the_runs()
    ensures { LegsAreTheRuns }
{}
