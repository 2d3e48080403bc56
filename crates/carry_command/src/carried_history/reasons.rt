//! Why an entry is left out.

ghost use Rattle.std.specs.Prelude.{◌≡◌, IfSome, IsNone, length};
ghost use Rattle.path_recover.specs.history.declared.verdicts.Verdict.TheVariants.{Fresh as fresh};
ghost use Rattle.carry_command.specs.Carried.{IsReason};
ghost use Rattle.carry_command.specs.CarriedInside.{IsToldNew};

use blocking_time::Broken;
use path_recover::history::Verdict;
use rail_types::Owner;

/// Why an entry is left out. A zone is by its number, a planned train by its index, an entry by its
/// position in the history that is carried.
#[derive(Clone, Copy, Debug, PartialEq, Eq)]
pub enum Reason {
    /// A planned train has the zone.
    ByBase { zone: u32, train: u32 },
    /// An entry that was carried before has the zone.
    ByEntry { zone: u32, entry: u64 },
    /// The entry's path breaks this rule.
    Breaks(Broken),
}

/// An entry that is left out, by its position in the history that is carried, and why.
#[derive(Clone, Copy, Debug, PartialEq, Eq)]
pub struct LeftOut {
    pub at: u64,
    pub reason: Reason,
}

// Why an entry with a new number is left out; None where it is not.
pub(crate) fn reason_of(kept: &[u64], verdict: Verdict) -> Option<Reason>
    requires told { IsToldNew (length kept.now) verdict }
    ensures some { IfSome result (IsReason kept.now verdict) }
    ensures none { IsNone result → verdict ≡ fresh }
{
    match verdict {
        Verdict::Fresh => None,
        Verdict::BreaksRequest(rule) => Some(Reason::Breaks(rule)),
        Verdict::Taken(claim, Owner::Base(train)) => Some(Reason::ByBase {
            zone: claim.zone,
            train,
        }),
        Verdict::Taken(claim, Owner::Entry(at)) => Some(Reason::ByEntry {
            zone: claim.zone,
            entry: kept[at as usize],
        }),
        _ => unreachable!(),
    }
}
