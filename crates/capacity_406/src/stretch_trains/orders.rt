//! Claims by owners, and trains in the order in which they are told.

ghost use Rattle.std.specs.Prelude.{◌≡◌, AllPairs};
ghost use Rattle.std.specs.List.Sorted.{IsPermutation};
ghost use Rattle.capacity_406.specs.InsideStretch.{OwnerNoLater, StandsNoLater, key_of};

use crate::stretch_trains::groups::Standing;
use rail_types::{Claim, Owner};

pub(crate) fn sort_by_owner(taken: &mut Vec<(Claim, Owner)>)
    ensures same { IsPermutation taken.old.items taken.new.items }
    ensures sorted { AllPairs OwnerNoLater taken.new.items }
{
    taken.sort_unstable_by_key(|one| owner_key(&one.1));
}

// By first begin, then by owner.
pub(crate) fn sort_as_told(standing: &mut Vec<Standing>)
    ensures same { IsPermutation standing.old.items standing.new.items }
    ensures sorted { AllPairs StandsNoLater standing.new.items }
{
    standing.sort_unstable_by_key(|one| (one.first.span.from, owner_key(&one.owner)));
}

// Numbers that are in the order of owners: trains of the base timetable come before entries.
fn owner_key(owner: &Owner) -> (u8, u64)
    ensures { result ≡ key_of owner.now }
{
    match owner {
        Owner::Base(train) => (0, u64::from(*train)),
        Owner::Entry(at) => (1, *at),
    }
}
