//! Laws of the definitions, each on a function that does nothing.

ghost use Rattle.std.specs.Prelude.{◌≡◌, ℤ, ◌<ℤ◌, ◌≤ℤ◌, ◌-ℤ◌, ◌↔◌, pos, List, [], All};
ghost use Rattle.label_search.specs.declared.charts.ChartCall.{ChartCall as call_type};
ghost use Rattle.label_search.specs.declared.charts.ChartSpot.{ChartSpot as spot_type};
ghost use Rattle.label_search.specs.declared.limits.Ahead.{Ahead as ahead_type};
ghost use Rattle.label_search.specs.declared.nearing.Near.{Near as near_type};
ghost use Rattle.label_search.specs.declared.plans.Plan.{Plan as plan_type};
ghost use Rattle.label_search.specs.declared.plans.Trip.{Trip as trip_type};
ghost use Rattle.label_search.specs.declared.plans.Step.{Step as step_type};
ghost use Rattle.label_search.specs.declared.plans.Member.{Member as member_type};
ghost use Rattle.label_search.specs.Free.{Book};
ghost use Rattle.label_search.specs.Paths.{Possible, IsPath, PathFits, arrival};
ghost use Rattle.label_search.specs.declared.limits.Limits.{Limits as limits_type};
ghost use Rattle.label_search.specs.Limits.{IsAhead, IsConsistent, IsUnlimited};
ghost use Rattle.label_search.specs.Closed.{IsClosed, IsClosedBelow, IsHeld, before};
ghost use Rattle.label_search.specs.Nearing.{AreNears, AreRests, HaveShortDwells};
ghost use Rattle.label_search.specs.Nearing.{IsConsistentOver, aheads_over};

use crate::plans::LATEST;

/// Where members are closed no path is possible, and where they are closed for a window of arrival
/// that ends before a tick, each path that fits arrives at that tick or later.
pub fn closed_members_exclude_paths()
    ensures none { (plan : plan_type) (trip : trip_type) (book : Book) (members : List
        member_type) → IsClosed plan trip book members → Possible plan trip book → ⊥ }
    ensures later { (plan : plan_type) (trip : trip_type) (book : Book) (members : List
        member_type) (tick : ℤ) → IsClosed plan (before trip tick) book members
        → (steps : List step_type) → IsPath plan trip steps → PathFits plan book steps
        → tick ≤ℤ arrival plan steps }
{}

/// Where members are closed below a limit and what is ahead of the places is consistent, each path
/// that fits arrives at the limit or later.
pub fn closed_below_excludes_earlier_paths()
    ensures { (plan : plan_type) (trip : trip_type) (book : Book) (limits : limits_type) (members
        : List member_type) → IsConsistent plan limits.ahead
        → IsClosedBelow plan limits trip book (IsHeld members) → (steps : List step_type)
        → IsPath plan trip steps → PathFits plan book steps → limits.below ≤ℤ arrival plan steps }
{}

/// Where nothing is ahead and the limit lies behind the horizon, members are closed
/// below it where they are closed.
pub fn closed_below_all_is_closed()
    ensures unlimited { (plan : plan_type) (limits : limits_type) → limits.ahead ≡ []
        → plan.horizon <ℤ limits.below → IsUnlimited plan limits }
    ensures same { (plan : plan_type) (trip : trip_type) (book : Book) (limits : limits_type)
        (members : List member_type) → IsUnlimited plan limits
        → (IsClosed plan trip book members ↔ IsClosedBelow plan limits trip book (IsHeld members)) }
{}

/// The sums of what is ahead over a chart are numbers of ticks that are not negative and not too
/// great to be added, and consistent.
pub fn aheads_are_consistent()
    ensures ahead { (spots : List spot_type) (calls : List call_type) (nears : List near_type)
        (rests : List ahead_type) → HaveShortDwells calls → AreNears spots calls nears
        → AreRests spots calls nears rests → All IsAhead (aheads_over spots calls nears rests) }
    ensures consistent { (spots : List spot_type) (calls : List call_type)
        (nears : List near_type) (rests : List ahead_type) → HaveShortDwells calls
        → AreNears spots calls nears → AreRests spots calls nears rests
        → IsConsistentOver spots calls (aheads_over spots calls nears rests) }
{}

/// The limit of the ticks of a plan.
pub fn limits_are_these()
    ensures { LATEST ≡ pos 1000000000 }
{}
